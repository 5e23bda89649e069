//! Work on many pieces, shared by several threads.
#![tactic(auto)]

mod crew;
mod share;
mod work;
mod workers;

pub use crew::Crew;
pub use work::Work;
pub use workers::over_pieces;
