//! A lock whose value keeps a history: a turn begins with all that its seat has seen, and more; and a bell that threads share.
#![tactic(auto)]

mod bell;
mod turns;

pub use bell::{Bell, Ring};
pub use turns::{Closing, History, LockSeat, Turn, TurnLock, TurnSeat};
