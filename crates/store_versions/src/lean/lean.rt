//! A core that copies no pages for a pin: versions stand in rows, which say from which place on and below which they are seen.

mod live;
mod pin;
mod put;
mod ready;
mod row;
mod rows;
mod state;

pub use pin::LeanPin;
pub use ready::LeanReady;
pub use state::LeanCore;
