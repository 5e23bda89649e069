//! `project`.
ghost use Rattle.std.specs.Prelude.{◌≡◌, ◌≤◌, length, []};
ghost use Rattle.logical_plan.specs.PlanSchema.{schema_of};
ghost use Rattle.logical_plan.specs.Query.{projected};
ghost use Rattle.check_rules.specs.Checked.{Answers};
ghost use Rattle.check_exprs.specs.Expressions.{attribute_place};
ghost use Rattle.check_rules.specs.InTurn.{in_turn, new_place};
ghost use Rattle.check_rules.specs.NewSchema.{of_new_schema};
ghost use Rattle.check_cellwise.specs.Project.{project_call, project_named, projected_one};

use afl_trees::{Node, Tree};
use cell_values::{Attribute, List, Schema, Span};
use check_exprs::attribute_place;
use check_rules::{
    TypeFault, broken, first_but_names, new_place, of_new_schema, shape_of, wrong_type,
};
use logical_plan::{Plan, let_go};
use schema_grammar::TypeKind;
use std::alloc::Global;

/// The place of the attribute of a name, written at a place.
fn place_named(
    attributes: &[Attribute],
    done: &[u32],
    span: Span,
    name: &[u8],
) -> Result<u32, TypeFault>
    requires { length attributes.now ≤ 64 }
    ensures { Answers result (new_place span done.now (attribute_place attributes.now name.now)) }
{
    let place = attribute_place(attributes, name);
    new_place(span, done, place)
}

/// The place of the attribute that is named.
fn projected_one(attributes: &[Attribute], done: &[u32], name: &Tree) -> Result<u32, TypeFault>
    requires { length attributes.now ≤ 64 }
    ensures { Answers result (projected_one attributes.now done.now name.now) }
{
    match &name.node {
        Node::Ref(known) => place_named(attributes, done, name.span, known.as_slice()),
        _ => Err(wrong_type(name)),
    }
}

/// The places of the attributes of these names, from 0, each of which is there and named once.
#[tactic(auto, using(check_rules::proofs::Steps::ok_then, check_rules::proofs::Steps::err_then))]
pub fn attribute_places(
    alloc: Global,
    attributes: &[Attribute],
    names: &[Tree],
) -> Result<List<u32>, TypeFault>
    requires { length attributes.now ≤ 64 }
    ensures { Answers result (in_turn (projected_one attributes.now) [] names.now) }
{
    let mut done = List::new(alloc);
    for name in names {
        let place = projected_one(attributes, done.as_slice(), name)?;
        done.push(place)?;
    }
    Ok(done)
}

/// The places of the attributes of a schema that are named.
fn projected_by(alloc: Global, schema: &Schema, names: &[Tree]) -> Result<List<u32>, TypeFault>
    requires { length schema.now.attributes ≤ 64 }
    ensures { Answers result (in_turn (projected_one schema.now.attributes) [] names.now) }
{
    attribute_places(alloc, schema.attributes.as_slice(), names)
}

/// The places of the attributes of a plan that are named.
fn projected_over(alloc: Global, source: &Plan, names: &[Tree]) -> Result<List<u32>, TypeFault>
    requires { length (schema_of source.now).attributes ≤ 64 }
    ensures { Answers result (in_turn (projected_one (schema_of source.now).attributes) [] names.now) }
{
    let schema = shape_of(alloc, source)?;
    projected_by(alloc, &schema, names)
}

/// A source with the attributes at these places alone, where its schema is within the limits.
fn with_places(
    alloc: Global,
    span: Span,
    source: Plan,
    places: List<u32>,
) -> Result<Plan, TypeFault>
    ensures { Answers result (of_new_schema span (projected source places)) }
{
    let plan = Plan::project(alloc, source, places)?;
    of_new_schema(alloc, span, plan)
}

/// A source with the attributes that are named, and no others.
#[tactic(auto, using(check_rules::proofs::Steps::ok_then, check_rules::proofs::Steps::err_then))]
fn project_named(alloc: Global, span: Span, source: Plan, names: &[Tree]) -> Result<Plan, TypeFault>
    requires { length (schema_of source).attributes ≤ 64 }
    ensures { Answers result (project_named span source names.now) }
{
    if let Some(other) = first_but_names(names) {
        let_go(source);
        return Err(broken(other, TypeKind::WrongType));
    }
    match projected_over(alloc, &source, names) {
        Ok(places) => with_places(alloc, span, source, places),
        Err(fault) => {
            let_go(source);
            Err(fault)
        }
    }
}

/// `project` of a source, with what stands behind it.
pub fn project_call(
    alloc: Global,
    span: Span,
    source: Plan,
    arguments: &[Tree],
) -> Result<Plan, TypeFault>
    requires { length (schema_of source).attributes ≤ 64 }
    ensures { Answers result (project_call span source arguments.now) }
{
    if arguments.is_empty() {
        let_go(source);
        return Err(broken(span, TypeKind::WrongCount));
    }
    project_named(alloc, span, source, arguments)
}
