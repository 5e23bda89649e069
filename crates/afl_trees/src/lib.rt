//! Syntax trees of statements, the grammar and the printer.
#![tactic(auto)]

mod copies;
mod kind;
mod printer;
mod tree;

pub use kind::{ParseKind, StopKind};
pub use printer::{print, printed_trees_are_read_again};
pub use schema_grammar::{SchemaFault, TypeKind};
pub use tree::{BinaryOp, Node, Tree, let_go_tree};
