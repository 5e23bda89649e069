//! A store that several threads share. Each call takes a turn of it, and says what it adds to what the seat has seen.
#![tactic(auto)]

mod committing;
mod create;
mod finish;
mod pinning;
mod reading;
mod seat;
mod shared;
mod turns;

pub use array_store::{CommitFault, ReadFault, Store, commit};
pub use committing::Commit;
pub use seat::Seat;
pub use shared::{Shared, StoreTurn};
