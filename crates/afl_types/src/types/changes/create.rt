//! `create array`.
ghost use Rattle.check_rules.specs.Checked.{Answers};
ghost use Rattle.afl_types.specs.Changes.{created, created_as};
ghost use Rattle.afl_types.specs.Place.{created_place};

use crate::types::changes::place::created_place;
use cell_values::{List, Name, Schema, Span};
use check_rules::{TypeFault, broken};
use check_sources::meant;
use logical_plan::NameEntry;
use plan_changes::{Change, has_array, has_room};
use schema_grammar::{SchemaText, TypeKind};
use std::alloc::Global;

/// A new array of a schema, where none has its name and there is room for one more.
fn created_as(
    arrays: &List<NameEntry>,
    at: Span,
    name: &Name,
    schema: Schema,
) -> Result<Change, TypeFault>
    ensures { Answers result (created_as arrays.now at name.now schema) }
{
    if has_array(arrays, name) {
        return Err(broken(at, TypeKind::ArrayExists));
    }
    if !has_room(arrays) {
        return Err(broken(at, TypeKind::TooManyArrays));
    }
    Ok(Change::Create {
        name: name.copy()?,
        schema,
    })
}

/// `create array` with a name and a schema: the change, or the first rule that it breaks.
///
/// `statement` is its place in `text`, in bytes.
#[tactic(auto, using(check_rules::proofs::Steps::ok_then, check_rules::proofs::Steps::err_then))]
pub fn create_array(
    alloc: Global,
    arrays: &List<NameEntry>,
    text: &[u8],
    statement: Span,
    name: &Name,
    written: &SchemaText,
) -> Result<Change, TypeFault>
    ensures { Answers result (created arrays.now (created_place text.now statement name.now) name.now written.now) }
{
    let schema = meant(alloc, text, written)?;
    let at = created_place(text, statement, name.as_slice());
    created_as(arrays, at, name, schema)
}
