//! The sources of chunks of a session: of what its pin sees, and of the store in a turn that it holds.
#![tactic(auto)]

mod held;
mod holding;
mod laws;
mod marks;
mod pinned;
mod reading;

pub use held::HeldSource;
pub use holding::{Holding, LentTurn};
pub use laws::{courses_are_told, sources_hold_their_versions};
pub use marks::Marks;
pub use pinned::PinnedSource;
pub use reading::{Lent, Reading};
pub use snapshot_manager::{Commit, CommitFault, Seat, Shared, StoreTurn, commit};
