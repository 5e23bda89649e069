//! The sort of aggregates.
ghost use Rattle.std.specs.Prelude.{◌≡◌, ◌≤◌, length};
ghost use Rattle.std.specs.List.{prefix_len};
ghost use Rattle.std.specs.Option.{option_copied};
ghost use Rattle.afl_trees.specs.Term.{to_terms};
ghost use Rattle.check_rules.specs.Sorts.{first_but, is_number};
ghost use Rattle.check_groups.specs.AggregateSort.{cells_function, function_in, function_named, function_over, is_aggregate, operand_in, sole, unnamed};

use afl_trees::{Node, Tree};
use cell_values::Span;
use check_rules::number_in;
use logical_plan::AggFunction;

#[tactic(auto, unfolding(crate::specs::AggregateSort::function_named))]
fn function_named(word: &[u8]) -> Option<AggFunction>
    ensures { result ≡ function_named word.now }
{
    if word == b"sum".as_slice() {
        Some(AggFunction::Sum)
    } else if word == b"min".as_slice() {
        Some(AggFunction::Min)
    } else if word == b"max".as_slice() {
        Some(AggFunction::Max)
    } else if word == b"count".as_slice() {
        Some(AggFunction::Count)
    } else {
        None
    }
}

#[tactic(auto, unfolding(crate::specs::AggregateSort::cells_function))]
fn cells_function(word: &[u8]) -> Option<AggFunction>
    ensures { result ≡ cells_function word.now }
{
    if word == b"count".as_slice() {
        Some(AggFunction::CountAll)
    } else {
        None
    }
}

/// The function of a word, of a bare name or of `*`.
fn function_over(word: &[u8], operand: &Tree) -> Option<AggFunction>
    ensures { result ≡ function_over word.now operand.now }
{
    match &operand.node {
        Node::Ref(_) => function_named(word),
        Node::Star => cells_function(word),
        _ => None,
    }
}

/// What stands before `as`.
pub(crate) fn unnamed(tree: &Tree) -> &Tree
    ensures { result.now ≡ unnamed tree.now }
{
    match &tree.node {
        Node::As(call, _) => call,
        _ => tree,
    }
}

/// The argument, where there is one alone.
#[tactic(auto, using(crate::proofs::Sole::too_few, crate::proofs::Sole::too_many))]
fn sole(arguments: &[Tree]) -> Option<&Tree>
    ensures { option_copied result ≡ sole (to_terms arguments.now) }
{
    match arguments {
        [operand] => Some(operand),
        _ => None,
    }
}

/// The operand of a call of one.
pub(crate) fn operand_in(call: &Tree) -> Option<&Tree>
    ensures { option_copied result ≡ operand_in call.now }
{
    match &call.node {
        Node::Call(_, arguments) => sole(arguments.as_slice()),
        _ => None,
    }
}

/// The function of an aggregate.
pub(crate) fn function_in(call: &Tree) -> Option<AggFunction>
    ensures { result ≡ function_in call.now }
{
    match &call.node {
        Node::Call(word, arguments) => match sole(arguments.as_slice()) {
            Some(operand) => function_over(word.as_slice(), operand),
            None => None,
        },
        _ => None,
    }
}

fn is_aggregate(tree: &Tree) -> bool
    ensures { result ≡ is_aggregate tree.now }
{
    function_in(unnamed(tree)).is_some()
}

/// The place of the first argument that is no aggregate.
pub fn first_but_aggregates(arguments: &[Tree]) -> Option<Span>
    ensures { result ≡ first_but is_aggregate arguments.now }
{
    for argument in arguments {
        if !is_aggregate(argument) {
            return Some(argument.span);
        }
    }
    None
}

/// How many arguments from the first one on are aggregates.
pub fn leading_aggregates(arguments: &[Tree]) -> usize
    ensures value { result ≡ prefix_len is_aggregate arguments.now }
    ensures within { result ≤ length arguments.now }
{
    for (place, argument) in arguments.iter().enumerate() {
        if !is_aggregate(argument) {
            return place;
        }
    }
    arguments.len()
}

fn is_number(tree: &Tree) -> bool
    ensures { result ≡ is_number tree.now }
{
    number_in(tree).is_some()
}

/// How many arguments from the first one on are numbers.
pub fn leading_numbers(arguments: &[Tree]) -> usize
    ensures value { result ≡ prefix_len is_number arguments.now }
    ensures within { result ≤ length arguments.now }
{
    for (place, argument) in arguments.iter().enumerate() {
        if !is_number(argument) {
            return place;
        }
    }
    arguments.len()
}
