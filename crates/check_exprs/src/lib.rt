//! Expressions: what a tree is as an expression over the attributes and dimensions of a source, or the rule that it breaks.
#![tactic(auto)]

mod expression;
mod laws;
mod operand;

pub use expression::{attribute_place, dimension_place, typed};
pub use laws::{inner_faults_come_first, typed_expressions_have_kinds};
pub use operand::{Operand, fits};
