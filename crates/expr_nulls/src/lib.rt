//! Typed expressions: their kinds, and their values at a cell.
#![tactic(auto)]

mod copies;
mod evaluate;
mod expr;
mod functions;

pub use cell_values::{Attribute, Copies, Dimension, Kind, List, Memory, Name, Schema};
pub use evaluate::{eval, typed_values_fit};
pub use expr::{ArithOp, ExprNode, TypedExpr, let_go_expr};
