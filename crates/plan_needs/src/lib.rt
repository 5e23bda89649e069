//! The boxes of stored arrays that plans need.
#![tactic(auto)]

mod boxes;
mod laws;
mod lines;
mod needs;
mod shapes;
mod sides;
mod sources;
mod stretch;

pub use laws::{needs_are_sufficient, other_chunks_stay, target_needs_are_sufficient};
pub use needs::need;
