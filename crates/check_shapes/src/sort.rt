//! `sort`.
ghost use Rattle.std.specs.Prelude.{◌≡◌, ◌≤◌, codes, length, IfOk};
ghost use Rattle.check_rules.specs.Checked.{Answers};
ghost use Rattle.check_shapes.specs.Sort.{number_name, sort_parts, sorted_by, sorted_schema};

use crate::numbered::numbered_schema;
use afl_trees::Tree;
use cell_values::{Attribute, List, Memory, Name, Schema, Span};
use check_cellwise::attribute_places;
use check_groups::push_attribute_names;
use check_joins::free_name;
use check_rules::{TypeFault, broken, first_but_names};
use schema_grammar::TypeKind;
use std::alloc::Global;

/// The keys of a `sort`, and its schema.
#[derive(Drop)]
pub struct SortKeys {
    /// The places of the attributes by which cells are sorted, from 0. The first one decides, then the next one.
    pub keys: List<u32>,
    /// The schema of the result.
    pub schema: Schema,
}

fn usual_name(alloc: Global) -> Result<Name, Memory>
    ensures { IfOk result (λ name. name ≡ codes "n") }
{
    let Some(name) = Name::new(List::from_slice(alloc, b"n".as_slice())?) else {
        unreachable!()
    };
    Ok(name)
}

/// The name of the one dimension of sorted cells, which no attribute has.
fn number_name(alloc: Global, span: Span, attributes: &[Attribute]) -> Result<Name, TypeFault>
    ensures { Answers result (number_name span attributes.now) }
{
    let mut names = List::with_capacity(alloc, attributes.len())?;
    push_attribute_names(&mut names, attributes)?;
    let name = usual_name(alloc)?;
    free_name(alloc, span, names.as_slice(), &name)
}

/// The schema of the cells of a source of this schema, sorted.
#[tactic(auto, using(check_rules::proofs::Steps::ok_then, check_rules::proofs::Steps::err_then))]
fn sorted_schema(alloc: Global, span: Span, source: &Schema) -> Result<Schema, TypeFault>
    ensures { Answers result (sorted_schema span source.now) }
{
    let name = number_name(alloc, span, source.attributes.as_slice())?;
    Ok(numbered_schema(alloc, source.attributes.copy()?, name)?)
}

/// Keys, with the schema of what they sort.
#[tactic(auto, using(check_rules::proofs::Steps::ok_then, check_rules::proofs::Steps::err_then))]
fn sorted_by(
    alloc: Global,
    span: Span,
    source: &Schema,
    keys: List<u32>,
) -> Result<SortKeys, TypeFault>
    ensures { Answers result (sorted_by span source.now keys) }
{
    let schema = sorted_schema(alloc, span, source)?;
    Ok(SortKeys { keys, schema })
}

/// The parts of `sort` over a source of this schema, with the names behind the source.
///
/// `span` is that of the whole call.
#[tactic(auto, using(check_rules::proofs::Steps::ok_then, check_rules::proofs::Steps::err_then))]
pub fn sort_parts(
    alloc: Global,
    span: Span,
    source: &Schema,
    names: &[Tree],
) -> Result<SortKeys, TypeFault>
    requires { length source.now.attributes ≤ 64 }
    ensures { Answers result (sort_parts span source.now names.now) }
{
    if names.is_empty() {
        return Err(broken(span, TypeKind::WrongCount));
    }
    if let Some(other) = first_but_names(names) {
        return Err(broken(other, TypeKind::WrongType));
    }
    let keys = attribute_places(alloc, source.attributes.as_slice(), names)?;
    sorted_by(alloc, span, source, keys)
}
