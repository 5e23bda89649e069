//! Scripts of records: from a text of CSV the statements that put its records into a stored array.
#![tactic(auto)]

mod batch;
mod conversion;
mod fault;
mod fields;
mod header;
mod laws;
mod loader;
mod loading;
mod plan;
mod statements;

pub use conversion::convert;
pub use fault::{CsvFault, FieldFault, fault_text};
pub use laws::literals_are_read;
pub use loading::Options;
pub use plan::{LoadPlan, load_plan};
