//! Stores that sessions share, from their databases on: three sessions on one thread, or two, each on a thread of its own, beside one that reaps.
#![tactic(auto)]

mod starts;
mod threads;
mod whole;

pub use starts::shared_database;
pub use whole::push_threads;
