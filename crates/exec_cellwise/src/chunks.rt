//! Chunks through the operators that go cell by cell: filter, apply and project.

mod applying;
mod computing;
mod filtering;
mod places;
mod projecting;

pub use applying::apply_chunk;
pub use filtering::filter_chunk;
pub use projecting::project_chunk;
