//! The rules that a statement may break, and the operators and functions that its calls may name.

mod fault;
mod operator;

pub use fault::{TypeFault, broken};
pub use operator::{Form, OneForm, Operator, form_named, name_span, operator_named, same_name};
