//! `store` and `insert`.
ghost use Rattle.std.specs.Prelude.{◌≡◌};
ghost use Rattle.logical_plan.specs.PlanSchema.{schema_of};
ghost use Rattle.plan_changes.specs.Changes.{entry_named};
ghost use Rattle.check_rules.specs.Checked.{Answers};
ghost use Rattle.afl_types.specs.Changes.{fitting};
ghost use Rattle.afl_types.specs.Inner.Putting.{new_schema, put_schema, put_in, put_target, put_change, put_call};

use afl_trees::{Node, Tree};
use cell_values::{List, Name, Schema, Span};
use check_rules::{TypeFault, broken, shape_of, wrong_type};
use logical_plan::{NameEntry, Plan, let_go};
use plan_changes::{Change, are_alike, entry_named, has_room};
use schema_grammar::TypeKind;
use std::alloc::Global;

/// What a version is stored in: the array of this name, under this schema. Only contracts and proofs of other crates name it.
#[derive(Drop)]
pub struct Target {
    pub name: Name,
    pub schema: Schema,
}

/// Which of the two puts a version: `store` makes a new array where none has the name, `insert` puts it into one that stands.
#[derive(Clone, Copy)]
pub(crate) enum Putting {
    Store,
    Insert,
}

/// The most versions that an array ever has had, one more than which has no number.
const MOST_VERSIONS: u32 = 65_535;

/// The schema of an array that stands, where it has a number for one more version and is like another schema.
fn fitting(span: Span, at: Span, entry: &NameEntry, shape: &Schema) -> Result<Schema, TypeFault>
    ensures { Answers result (fitting span at entry.now shape.now) }
{
    if entry.next > MOST_VERSIONS {
        return Err(broken(at, TypeKind::TooManyVersions));
    }
    if !are_alike(&entry.schema, shape) {
        return Err(broken(span, TypeKind::SchemaDiffers));
    }
    Ok(entry.schema.copy()?)
}

/// The schema of what is put under a name that no array has: of a new array that of the plan.
fn new_schema(
    putting: Putting,
    arrays: &List<NameEntry>,
    at: Span,
    shape: Schema,
) -> Result<Schema, TypeFault>
    ensures { Answers result (new_schema putting arrays.now at shape) }
{
    match putting {
        Putting::Store => {
            if has_room(arrays) {
                Ok(shape)
            } else {
                Err(broken(at, TypeKind::TooManyArrays))
            }
        }
        Putting::Insert => Err(broken(at, TypeKind::UnknownArray)),
    }
}

/// The schema of what is put under a name.
fn put_schema(
    putting: Putting,
    arrays: &List<NameEntry>,
    span: Span,
    at: Span,
    name: &Name,
    shape: Schema,
) -> Result<Schema, TypeFault>
    ensures { Answers result (put_schema putting arrays.now span at shape (entry_named arrays.now name.now)) }
{
    match entry_named(arrays, name) {
        Some(entry) => fitting(span, at, entry, &shape),
        None => new_schema(putting, arrays, at, shape),
    }
}

/// What a version is put into, where an argument names it.
#[tactic(auto, using(check_rules::proofs::Steps::ok_then, check_rules::proofs::Steps::err_then))]
fn put_in(
    putting: Putting,
    arrays: &List<NameEntry>,
    span: Span,
    at: Span,
    name: &Name,
    shape: Schema,
) -> Result<Target, TypeFault>
    ensures { Answers result (put_in putting arrays.now span shape at name.now) }
{
    let schema = put_schema(putting, arrays, span, at, name, shape)?;
    Ok(Target {
        name: name.copy()?,
        schema,
    })
}

/// What a version of an array of this schema is put into.
fn put_target(
    putting: Putting,
    arrays: &List<NameEntry>,
    span: Span,
    shape: Schema,
    target: &Tree,
) -> Result<Target, TypeFault>
    ensures { Answers result (put_target putting arrays.now span shape target.now) }
{
    match &target.node {
        Node::Ref(name) => put_in(putting, arrays, span, target.span, name, shape),
        _ => Err(wrong_type(target)),
    }
}

/// What a version that a plan gives is put into.
fn target_of_plan(
    alloc: Global,
    putting: Putting,
    arrays: &List<NameEntry>,
    span: Span,
    plan: &Plan,
    target: &Tree,
) -> Result<Target, TypeFault>
    ensures { Answers result (put_target putting arrays.now span (schema_of plan.now) target.now) }
{
    let shape = shape_of(alloc, plan)?;
    put_target(putting, arrays, span, shape, target)
}

/// The change that puts what a plan gives into its target.
fn put_change(putting: Putting, target: Target, plan: Plan) -> Change
    ensures { result ≡ put_change putting target plan }
{
    let Target { name, schema } = target;
    match putting {
        Putting::Store => Change::Store { name, schema, plan },
        Putting::Insert => Change::Insert { name, schema, plan },
    }
}

/// `store` or `insert` of a plan and a tree, the array that it is put into: the change, or the first rule that it breaks.
///
/// `span` is that of the whole call.
#[tactic(auto, using(check_rules::proofs::Steps::ok_then, check_rules::proofs::Steps::err_then))]
pub(crate) fn put_call(
    alloc: Global,
    putting: Putting,
    arrays: &List<NameEntry>,
    span: Span,
    plan: Plan,
    target: &Tree,
) -> Result<Change, TypeFault>
    ensures { Answers result (put_call putting arrays.now span plan target.now) }
{
    match target_of_plan(alloc, putting, arrays, span, &plan, target) {
        Ok(target) => Ok(put_change(putting, target, plan)),
        Err(fault) => {
            let_go(plan);
            Err(fault)
        }
    }
}
