//! Lines of the grammar, and places.
ghost use Rattle.std.specs.Prelude.{◌≡◌};
ghost use Rattle.schema_grammar.specs.Spelling.{across};
ghost use Rattle.afl_trees.specs.Grammar.{line_of, left_line, right_line, line, span_of};
ghost use Rattle.afl_parser.specs.Inner.Machine.{reference_of};

use afl_trees::{BinaryOp, Node, Tree};
use cell_values::{Name, Span};

/// From the start of the first to the end of the second.
pub(crate) fn across(first: Span, last: Span) -> Span
    ensures { result ≡ across first last }
{
    Span {
        start: first.start,
        end: last.end,
    }
}

/// The line of the grammar that has the operator.
pub(crate) fn operator_line(op: BinaryOp) -> u8
    ensures { result ≡ line_of op }
{
    match op {
        BinaryOp::Or => 1,
        BinaryOp::And => 2,
        BinaryOp::Equal
        | BinaryOp::Differs
        | BinaryOp::Less
        | BinaryOp::AtMost
        | BinaryOp::More
        | BinaryOp::AtLeast => 4,
        BinaryOp::Add | BinaryOp::Sub => 5,
        BinaryOp::Mul | BinaryOp::Div | BinaryOp::Rem => 6,
    }
}

/// The line of its left operand.
pub(crate) fn left_line(op: BinaryOp) -> u8
    ensures { result ≡ left_line op }
{
    match op {
        BinaryOp::Or => 1,
        BinaryOp::And => 2,
        BinaryOp::Equal
        | BinaryOp::Differs
        | BinaryOp::Less
        | BinaryOp::AtMost
        | BinaryOp::More
        | BinaryOp::AtLeast => 5,
        BinaryOp::Add | BinaryOp::Sub => 5,
        BinaryOp::Mul | BinaryOp::Div | BinaryOp::Rem => 6,
    }
}

/// The line of its right operand.
pub(crate) fn right_line(op: BinaryOp) -> u8
    ensures { result ≡ right_line op }
{
    match op {
        BinaryOp::Or => 2,
        BinaryOp::And => 3,
        BinaryOp::Equal
        | BinaryOp::Differs
        | BinaryOp::Less
        | BinaryOp::AtMost
        | BinaryOp::More
        | BinaryOp::AtLeast => 5,
        BinaryOp::Add | BinaryOp::Sub => 6,
        BinaryOp::Mul | BinaryOp::Div | BinaryOp::Rem => 7,
    }
}

/// The line of the grammar that has the tree's top.
pub(crate) fn top_line(tree: &Tree) -> u8
    ensures { result ≡ line tree.now }
{
    match &tree.node {
        Node::Create(_, _) | Node::Schema(_) | Node::Star | Node::As(_, _) => 0,
        Node::Not(_) => 3,
        Node::Minus(_) => 7,
        Node::Binary(op, _, _) => operator_line(*op),
        Node::Number(_)
        | Node::Text(_)
        | Node::Truth(_)
        | Node::Null
        | Node::Missing(_)
        | Node::Ref(_)
        | Node::Version(_, _)
        | Node::Call(_, _)
        | Node::Group(_) => 8,
    }
}

pub(crate) fn span_of(tree: &Tree) -> Span
    ensures { result ≡ span_of tree.now }
{
    tree.span
}

/// The name, where the tree is one.
pub(crate) fn reference_of(tree: Tree) -> Option<Name>
    ensures { result ≡ reference_of tree }
{
    match tree.node {
        Node::Ref(name) => Some(name),
        other => {
            drop(other);
            None
        }
    }
}
