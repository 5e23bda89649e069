//! Stores that sessions share: the steps of sessions that keep their seats, and runs of three sessions on one thread.
#![tactic(auto)]

mod reading;
mod runs;
mod seats;
mod steps;
mod tally;
mod visitors;

pub use runs::{Run, answer_line, push_finished, seated};
pub use seats::{taken, with_seat};
pub use steps::commit_once;
pub use tally::tallied;
pub use visitors::Visitor;
