//! The lexical half of the query language: the statements of a script, and the tokens of a statement.
#![tactic(auto)]

mod gap;
mod lexer;
mod quoted;
mod reading;
mod splitter;
mod token;

pub use cell_values::{
    Attribute, Bytes, Copies, Dimension, Kind, List, Memory, Name, Schema, Span,
};
pub use gap::gap_end;
pub use lexer::{
    name_value, spelled_lexemes_are_read_again, text_value, texts_have_tokens_or_stop, tokens,
};
pub use reading::if_spelled;
pub use splitter::{SplitStep, Splitter};
pub use token::{LexFault, LexKind, Symbol, Token, TokenKind, Word};
