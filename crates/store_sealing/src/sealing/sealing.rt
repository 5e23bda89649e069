//! The call that commits what was prepared.

mod finishing;
mod laws;
mod sealing;
mod settling;
mod stopping;
mod writing;

pub use sealing::seal;
