//! Changes that were computed under a pin, and may be committed now.

mod laws;

pub use laws::fresh_changes_may_be_made;
