//! A store as one value: an array database in a file, with the history of what was done since it was opened.

mod freshness;
mod laws;
mod opening;
mod preparing;
mod reading;
mod sealing;
mod start;
mod stepping;
mod store;
mod telling;

pub use laws::events_grow;
pub use start::{FirstVersion, Start};
pub use store::Store;
