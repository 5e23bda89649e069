//! Arrays in chunks: rows put into chunks, the rows taken out again, and arrays cut or laid over one another.
#![tactic(auto)]

mod assembly;
mod fitting;
mod overlay;
mod reading;

pub use assembly::assemble;
pub use fitting::{fit, fit_rows};
pub use overlay::put_over;
pub use reading::{broken_array, into_core_rows, into_rows, rows, with_halo};
