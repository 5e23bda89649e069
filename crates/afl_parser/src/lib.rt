//! The parser of statements.
#![tactic(auto)]

mod fault;
mod frame;
mod grown;
mod laws;
mod lines;
mod parser;
mod reader;

pub use fault::ParseFault;
pub use laws::texts_have_tree_or_stop;
pub use parser::parse;
