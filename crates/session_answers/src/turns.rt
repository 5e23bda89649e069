//! Statements that are answered in a turn that their session holds.

mod held;
mod settings;

pub use held::answer_held;
pub use settings::Options;
