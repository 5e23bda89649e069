//! A lock whose value keeps a history: a turn begins with all that its seat has seen, and more.

mod closing;
mod create;
mod history;
mod lock;
mod rule;
mod seat;
mod turns;
mod view;

pub use closing::Closing;
pub use history::History;
pub use lock::TurnLock;
pub use seat::{LockSeat, Turn, TurnSeat};
