//! Sorts of arguments.
ghost use Rattle.std.specs.Prelude.{◌≡◌};
ghost use Rattle.afl_trees.specs.TypeKind.{TypeKind};
ghost use Rattle.afl_trees.specs.Grammar.{span_of};
ghost use Rattle.check_rules.specs.declared.rules.fault.TypeFault.{TypeFault};
ghost use Rattle.check_rules.specs.Sorts.{is_expression, is_name, opposite_number, number_in, is_number, is_bound, first_but, first_but_pairs};

use crate::rules::{TypeFault, broken};
use afl_trees::{Node, Tree, TypeKind};
use cell_values::Span;

/// That a tree is of the wrong sort or kind.
pub fn wrong_type(tree: &Tree) -> TypeFault
    ensures { result ≡ TypeFault.Rule (span_of tree.now) TypeKind.WrongType }
{
    broken(tree.span, TypeKind::WrongType)
}

/// Whether a tree may stand where an expression is due.
pub fn is_expression(tree: &Tree) -> bool
    ensures { result ≡ is_expression tree.now }
{
    !matches!(
        &tree.node,
        Node::Schema(_) | Node::Star | Node::As(_, _) | Node::Create(_, _)
    )
}

/// Whether a tree is a bare name.
pub fn is_name(tree: &Tree) -> bool
    ensures { result ≡ is_name tree.now }
{
    matches!(&tree.node, Node::Ref(_))
}

fn opposite_number(number: i64) -> Option<i64>
    ensures { result ≡ opposite_number number }
{
    number.checked_neg()
}

/// The number that a tree is, with or without one prefix `-`.
pub fn number_in(tree: &Tree) -> Option<i64>
    ensures { result ≡ number_in tree.now }
{
    match &tree.node {
        Node::Number(number) => Some(*number),
        Node::Minus(inner) => match &inner.node {
            Node::Number(number) => opposite_number(*number),
            _ => None,
        },
        _ => None,
    }
}

fn is_number(tree: &Tree) -> bool
    ensures { result ≡ is_number tree.now }
{
    number_in(tree).is_some()
}

/// Whether a tree is a number, or `null` for the dimension's own bound.
fn is_bound(tree: &Tree) -> bool
    ensures { result ≡ is_bound tree.now }
{
    match &tree.node {
        Node::Null => true,
        _ => number_in(tree).is_some(),
    }
}

/// The place of the first argument that is no bare name.
pub fn first_but_names(arguments: &[Tree]) -> Option<Span>
    ensures { result ≡ first_but is_name arguments.now }
{
    for argument in arguments {
        if !is_name(argument) {
            return Some(argument.span);
        }
    }
    None
}

/// The place of the first argument that is no number.
pub fn first_but_numbers(arguments: &[Tree]) -> Option<Span>
    ensures { result ≡ first_but is_number arguments.now }
{
    for argument in arguments {
        if !is_number(argument) {
            return Some(argument.span);
        }
    }
    None
}

/// The place of the first argument that is no bound.
pub fn first_but_bounds(arguments: &[Tree]) -> Option<Span>
    ensures { result ≡ first_but is_bound arguments.now }
{
    for argument in arguments {
        if !is_bound(argument) {
            return Some(argument.span);
        }
    }
    None
}

/// The place of the first argument that is not of its sort, of names with an expression behind each.
pub fn first_but_values(arguments: &[Tree]) -> Option<Span>
    ensures { result ≡ first_but_pairs is_name is_expression arguments.now }
{
    let mut left = arguments;
    while let [name, value, rest @ ..] = left {
        if !is_name(name) {
            return Some(name.span);
        }
        if !is_expression(value) {
            return Some(value.span);
        }
        left = rest;
    }
    None
}

/// The place of the first argument that is not of its sort, of names with a number behind each.
pub fn first_but_places(arguments: &[Tree]) -> Option<Span>
    ensures { result ≡ first_but_pairs is_name is_number arguments.now }
{
    let mut left = arguments;
    while let [name, number, rest @ ..] = left {
        if !is_name(name) {
            return Some(name.span);
        }
        if !is_number(number) {
            return Some(number.span);
        }
        left = rest;
    }
    None
}
