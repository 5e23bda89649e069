//! Answers to statements over the arrays of a source: a reply, or a change that may be committed.

mod changes;
mod laws;
mod outcome;
mod statements;

pub use laws::forms_are_said;
pub use outcome::Outcome;
pub use statements::outcome_of;
