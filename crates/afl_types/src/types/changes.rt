//! Statements that change arrays or list something: what each is over the stored arrays, or the first rule that it breaks.

mod arrays;
mod create;
mod place;
mod put;

pub use arrays::{array_call, cut_call, list_call};
pub use create::create_array;
pub use put::Target;
pub(crate) use put::{Putting, put_call};
