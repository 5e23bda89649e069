//! Queries: from a tree to a plan over the stored arrays.
ghost use Rattle.afl_trees.specs.Term.{to_terms};
ghost use Rattle.check_rules.specs.Checked.{Answers};
ghost use Rattle.check_rules.specs.Operators.{operator_named};
ghost use Rattle.afl_types.specs.Calls.{call_of};
ghost use Rattle.afl_types.specs.Arrays.{AreValid};
ghost use Rattle.afl_types.specs.Queries.{called, query_of};

use crate::queries::call::{Call, call_of};
use crate::queries::content::content_span;
use crate::queries::nested::no_query;
use crate::queries::sources::{one_checked, two_checked};
use afl_trees::{Node, Tree};
use cell_values::Span;
use check_rules::{TypeFault, broken, operator_named};
use check_sources::{build_call, referred, scan_call};
use logical_plan::{NameEntry, Names, Plan};
use schema_grammar::TypeKind;
use std::alloc::Global;

/// A call of an operator. Its sources are checked before the arguments behind them, the left one first.
#[cycle(query)]
fn called(
    alloc: Global,
    text: &[u8],
    arrays: &[NameEntry],
    span: Span,
    name: &[u8],
    arguments: &[Tree],
) -> Result<Plan, TypeFault>
    requires { AreValid arrays.now }
    ensures { Answers result (called arrays.now span name.now (call_of (operator_named name.now)) (to_terms arguments.now)) }
{
    match call_of(operator_named(name)) {
        Some(Call::Build) => build_call(alloc, text, span, arguments),
        Some(Call::Scan) => scan_call(arrays, span, arguments),
        Some(Call::Over(operator)) => match arguments {
            [source, rest @ ..] if operator.fits_count(rest.len()) => {
                let at = content_span(source);
                let checked = query_of(alloc, text, arrays, source);
                one_checked(alloc, text, span, operator, at, checked, rest)
            }
            _ => Err(broken(span, TypeKind::WrongCount)),
        },
        Some(Call::Two(operator)) => match arguments {
            [left, right, rest @ ..] if operator.fits_count(rest.len()) => {
                let at = content_span(left);
                let left = query_of(alloc, text, arrays, left);
                let right = query_of(alloc, text, arrays, right);
                two_checked(alloc, span, operator, at, left, right, rest)
            }
            _ => Err(broken(span, TypeKind::WrongCount)),
        },
        None => Err(no_query(span, name)),
    }
}

/// The plan that a tree is over some stored arrays.
#[cycle(query)]
fn query_of(
    alloc: Global,
    text: &[u8],
    arrays: &[NameEntry],
    tree: &Tree,
) -> Result<Plan, TypeFault>
    requires { AreValid arrays.now }
    ensures { Answers result (query_of arrays.now tree.now) }
{
    match &tree.node {
        Node::Group(inner) => query_of(alloc, text, arrays, inner),
        Node::Call(name, arguments) => called(
            alloc,
            text,
            arrays,
            tree.span,
            name.as_slice(),
            arguments.as_slice(),
        ),
        _ => referred(arrays, tree),
    }
}

/// The plan that a tree is over the stored arrays, or the first rule that it breaks. `text` is the statement's.
///
/// Rules are tested in this order: at a call its name, the number of its arguments, its sources, each wholly and the
/// left one first, the sort of each further argument from left to right, and then the operator's own rules.
pub fn query_plan(alloc: Global, tree: &Tree, text: &[u8], names: &Names) -> Result<Plan, TypeFault>
    requires { AreValid names.now.arrays }
    ensures { Answers result (query_of names.now.arrays tree.now) }
{
    query_of(alloc, text, names.arrays.as_slice(), tree)
}
