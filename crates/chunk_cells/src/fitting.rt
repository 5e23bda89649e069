//! Arrays in the chunks of another schema.

mod arrays;
mod values;

pub use arrays::fit;
pub use values::fit_rows;
