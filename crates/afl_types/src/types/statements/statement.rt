//! Statements: changes and listings beside queries.
ghost use Rattle.std.specs.Prelude.{ℕ, List};
ghost use Rattle.afl_trees.specs.Term.{to_terms};
ghost use Rattle.logical_plan.specs.Query.{Query};
ghost use Rattle.plan_changes.specs.declared.change.Change.{Change};
ghost use Rattle.check_rules.specs.Checked.{Answers, Checked};
ghost use Rattle.check_rules.specs.Operators.{operator_named};
ghost use Rattle.afl_types.specs.Arrays.{AreValid};
ghost use Rattle.afl_types.specs.Queries.{query_of};
ghost use Rattle.afl_types.specs.Inner.PuttingStatements.{put_of, put_two};
ghost use Rattle.afl_types.specs.Statements.{changed, listed, numbered, queried, removed, said, shown};

use crate::queries::query_plan;
use crate::types::changes::{Putting, array_call, cut_call, list_call, put_call};
use crate::types::statements::checking::Typed;
use afl_trees::Tree;
use cell_values::{Name, Span};
use check_rules::{Operator, TypeFault, broken, operator_named};
use logical_plan::{Names, Plan};
use plan_changes::Change;
use schema_grammar::TypeKind;
use std::alloc::Global;

/// `store` or `insert` of a tree that is a query, checked wholly, under a name.
#[tactic(auto, using(check_rules::proofs::Steps::ok_then, check_rules::proofs::Steps::err_then))]
fn put_two(
    alloc: Global,
    text: &[u8],
    names: &Names,
    putting: Putting,
    span: Span,
    source: &Tree,
    target: &Tree,
) -> Result<Change, TypeFault>
    requires { AreValid names.now.arrays }
    ensures { Answers result (put_two putting names.now.arrays span source.now target.now) }
{
    let plan = query_plan(alloc, source, text, names)?;
    put_call(alloc, putting, &names.arrays, span, plan, target)
}

/// `store` or `insert`.
fn put_of(
    alloc: Global,
    text: &[u8],
    names: &Names,
    putting: Putting,
    span: Span,
    arguments: &[Tree],
) -> Result<Change, TypeFault>
    requires { AreValid names.now.arrays }
    ensures { Answers result (put_of putting names.now.arrays span (to_terms arguments.now)) }
{
    match arguments {
        [source, target] => put_two(alloc, text, names, putting, span, source, target),
        _ => Err(broken(span, TypeKind::WrongCount)),
    }
}

/// A statement that is a query.
#[tactic(auto, using(crate::proofs::Parts::ok_part, crate::proofs::Parts::err_part))]
pub(crate) fn of_query(plan: Result<Plan, TypeFault>) -> Result<Typed, TypeFault>
    ensures { (checked : Checked Query) → Answers plan checked → Answers result (queried checked) }
{
    match plan {
        Ok(plan) => Ok(Typed::Query(plan)),
        Err(fault) => Err(fault),
    }
}

/// A statement that changes arrays.
#[tactic(auto, using(crate::proofs::Parts::ok_part, crate::proofs::Parts::err_part))]
pub(crate) fn of_change(change: Result<Change, TypeFault>) -> Result<Typed, TypeFault>
    ensures { (checked : Checked Change) → Answers change checked → Answers result (changed checked) }
{
    match change {
        Ok(change) => Ok(Typed::Change(change)),
        Err(fault) => Err(fault),
    }
}

/// `remove` of a stored array.
#[tactic(auto, using(crate::proofs::Parts::ok_part, crate::proofs::Parts::err_part))]
fn removed(name: Result<Name, TypeFault>) -> Result<Typed, TypeFault>
    ensures { (checked : Checked (List ℕ)) → Answers name checked → Answers result (removed checked) }
{
    match name {
        Ok(name) => Ok(Typed::Change(Change::Remove { name })),
        Err(fault) => Err(fault),
    }
}

/// `versions` of a stored array.
#[tactic(auto, using(crate::proofs::Parts::ok_part, crate::proofs::Parts::err_part))]
fn numbered(name: Result<Name, TypeFault>) -> Result<Typed, TypeFault>
    ensures { (checked : Checked (List ℕ)) → Answers name checked → Answers result (numbered checked) }
{
    match name {
        Ok(name) => Ok(Typed::Versions(name)),
        Err(fault) => Err(fault),
    }
}

/// `show` of a stored array.
#[tactic(auto, using(crate::proofs::Parts::ok_part, crate::proofs::Parts::err_part))]
fn shown(name: Result<Name, TypeFault>) -> Result<Typed, TypeFault>
    ensures { (checked : Checked (List ℕ)) → Answers name checked → Answers result (shown checked) }
{
    match name {
        Ok(name) => Ok(Typed::Show(name)),
        Err(fault) => Err(fault),
    }
}

/// The list of the stored arrays.
#[tactic(auto, using(crate::proofs::Parts::ok_part, crate::proofs::Parts::err_part))]
fn listed(done: Result<(), TypeFault>) -> Result<Typed, TypeFault>
    ensures { (checked : Checked (Unit {0})) → Answers done checked → Answers result (listed checked) }
{
    match done {
        Ok(()) => Ok(Typed::ListArrays),
        Err(fault) => Err(fault),
    }
}

/// A statement that is a call: of an operator that changes arrays or lists something, or else a query.
pub(crate) fn said(
    alloc: Global,
    text: &[u8],
    names: &Names,
    tree: &Tree,
    span: Span,
    name: &[u8],
    arguments: &[Tree],
) -> Result<Typed, TypeFault>
    requires { AreValid names.now.arrays }
    ensures { Answers result (said names.now.arrays span (operator_named name.now) (to_terms arguments.now) (queried (query_of names.now.arrays tree.now))) }
{
    match operator_named(name) {
        Some(Operator::Store) => of_change(put_of(
            alloc,
            text,
            names,
            Putting::Store,
            span,
            arguments,
        )),
        Some(Operator::Insert) => of_change(put_of(
            alloc,
            text,
            names,
            Putting::Insert,
            span,
            arguments,
        )),
        Some(Operator::Remove) => removed(array_call(&names.arrays, span, arguments)),
        Some(Operator::RemoveVersions) => of_change(cut_call(&names.arrays, span, arguments)),
        Some(Operator::Versions) => numbered(array_call(&names.arrays, span, arguments)),
        Some(Operator::Show) => shown(array_call(&names.arrays, span, arguments)),
        Some(Operator::ListNames) => listed(list_call(span, arguments)),
        _ => of_query(query_plan(alloc, tree, text, names)),
    }
}
