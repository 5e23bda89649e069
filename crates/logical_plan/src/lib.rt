//! Plans of queries, their leaves, what they mean, and with which schema.
#![tactic(auto)]

mod arity;
mod copies;
mod laws;
mod leaves;
mod meaning;
mod names;
mod parts;
mod plan;

pub use arity::{BinaryNode, LeafNode, PlanShape, UnaryNode};
pub use expr_nulls::{ArithOp, ExprNode, TypedExpr};
pub use laws::{plans_mean_arrays_of_their_schema, values_are_ordered};
pub use leaves::reads;
pub use meaning::meaning_reads_leaves;
pub use names::{NameEntry, Names};
pub use parts::{AggFunction, Aggregate, Applied, Fixed, Leaf, Pair, Reach};
pub use plan::{Plan, PlanNode, let_go};
