//! The tree of a statement.
use cell_values::{Bytes, Code, Name, Span};
use schema_grammar::SchemaText;
use std::marker::Model;

/// A tree. Contracts see it as a `Term`, without its boxes.
#[cycle(tree)]
#[derive(Drop)]
pub struct Tree {
    /// From the start of the first token to the end of the last.
    pub span: Span,
    pub node: Node,
}

#[cycle(tree)]
#[derive(Drop)]
pub enum Node {
    /// `create array` with a name and a schema.
    Create(Name, SchemaText),
    Number(i64),
    Text(Bytes),
    Truth(bool),
    /// `null`, or the code `?0`.
    Null,
    Missing(Code),
    Ref(Name),
    /// A name with `@` and a number.
    Version(Name, i64),
    Call(Name, Vec<Tree>),
    Schema(SchemaText),
    Star,
    As(Box<Tree>, Name),
    Not(Box<Tree>),
    Minus(Box<Tree>),
    Binary(BinaryOp, Box<Tree>, Box<Tree>),
    /// A bracketed expression.
    Group(Box<Tree>),
}

/// An operator between two operands.
#[derive(Clone, Copy, Debug)]
pub enum BinaryOp {
    Or,
    And,
    Equal,
    /// `<>` or `!=`.
    Differs,
    Less,
    AtMost,
    More,
    AtLeast,
    Add,
    Sub,
    Mul,
    Div,
    Rem,
}

impl Model for Tree {
    ghost use Rattle.afl_trees.specs.Term.{Term, term_size};
    ghost use Rattle.afl_trees.specs.Lemmas.TermCode.{term_code};

    ghost Value = { Term };

    ghost coded = { term_code };

    ghost use Rattle.afl_trees.specs.Inner.View.{term_of};

    ghost view = { λ a. term_of a.span a.node };

    ghost size = { term_size };

    ghost use Rattle.afl_trees.specs.Lemmas.TreeFalls.{depth_le-size};

    ghost size_decreases = { λ a h. depth_le-size a.span a.node };
}

/// Lets a tree go. That its parts can be let go is proved here once, and not again in each crate that calls this.
pub fn let_go_tree(tree: Tree) {
    drop(tree)
}
