//! Arrays through the operators that work chunk by chunk.

mod chunks;
mod cut;
mod made;

pub use cut::between;
pub use made::over_array;
