//! Whether a change that was computed at a pin may be committed now.

mod fresh;
mod laws;
mod names;

pub use fresh::is_fresh;
pub use laws::fresh_changes_are_left;
