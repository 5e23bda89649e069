//! Arrays whose chunks are stored as they are: no row is made of a cell.
ghost use Rattle.std.specs.Prelude.{◌≡◌, ◌+◌, ◌<◌, ◌^◌, length, IsTrue};
ghost use Rattle.std.specs.List.{AllByRecursion};
ghost use Rattle.array_parts.specs.Cores.{HasCells};
ghost use Rattle.array_parts.specs.Placed.{HasPlaces};
ghost use Rattle.cell_values.specs.Schemas.{IsValid};
ghost use Rattle.logical_plan.specs.Typing.{is_sound};
ghost use Rattle.changed_chunks.specs.Inner.Unchanged.{AreNumbers, AreNumbersAt, HaveNoFault, IsStorable, MayStandAt, MayStandFrom, IsStorableChunk};

use array_geom::{Chunk, ChunkedArray, margins_of};
use array_parts::holds_cell;
use array_rows::Cells;
use cell_values::{Attribute, Dimension, Kind, Margins, Schema};

fn same_kind(a: Kind, b: Kind) -> bool
    ensures { IsTrue result → a ≡ b }
{
    matches!(
        (a, b),
        (Kind::Int64, Kind::Int64) | (Kind::Str, Kind::Str) | (Kind::Bool, Kind::Bool)
    )
}

fn same_attribute(a: &Attribute, b: &Attribute) -> bool
    ensures { IsTrue result → a.now ≡ b.now }
{
    a.name.as_slice() == b.name.as_slice() && same_kind(a.kind, b.kind) && a.nullable == b.nullable
}

fn same_attributes(a: &[Attribute], b: &[Attribute]) -> bool
    ensures { IsTrue result → a.now ≡ b.now }
{
    match a {
        [] => b.is_empty(),
        [x, a @ ..] => match b {
            [] => false,
            [y, b @ ..] => same_attribute(x, y) && same_attributes(a, b),
        },
    }
}

fn same_dimension(a: &Dimension, b: &Dimension) -> bool
    ensures { IsTrue result → a.now ≡ b.now }
{
    a.name.as_slice() == b.name.as_slice()
        && a.lo == b.lo
        && a.hi == b.hi
        && a.chunk == b.chunk
        && a.overlap == b.overlap
}

fn same_dimensions(a: &[Dimension], b: &[Dimension]) -> bool
    ensures { IsTrue result → a.now ≡ b.now }
{
    match a {
        [] => b.is_empty(),
        [x, a @ ..] => match b {
            [] => false,
            [y, b @ ..] => same_dimension(x, y) && same_dimensions(a, b),
        },
    }
}

fn same_schema(a: &Schema, b: &Schema) -> bool
    ensures { IsTrue result → a.now ≡ b.now }
{
    same_attributes(a.attributes.as_slice(), b.attributes.as_slice())
        && same_dimensions(a.dimensions.as_slice(), b.dimensions.as_slice())
}

fn same_margins(a: &Margins, b: &Margins) -> bool
    ensures { IsTrue result → a.now.items ≡ b.now.items }
{
    a.as_slice() == b.as_slice()
}

/// Whether the values in a place of all cells are kept as numbers.
fn is_number(cells: &Cells, place: usize) -> bool
    ensures { IsTrue result → AreNumbersAt place cells.now }
{
    match cells.numbers(place) {
        Some(_) => true,
        None => false,
    }
}

/// Whether the first `count` values of all cells are kept as numbers.
fn are_numbers(cells: &Cells, count: usize) -> bool
    ensures { IsTrue result → AreNumbers count cells.now }
{
    for place in 0..count {
        if !is_number(cells, place) {
            return false;
        }
    }
    true
}

fn may_stand_at(attribute: &Attribute, cells: &Cells, place: usize) -> bool
    ensures { IsTrue result → MayStandAt attribute.now place cells.now }
{
    attribute.nullable || is_number(cells, place)
}

/// Whether each value from a place on may be null, or is known to be a number.
fn may_stand_from(attributes: &[Attribute], cells: &Cells, place: usize) -> bool
    requires { place + length attributes.now < 2 ^ 64 }
    ensures { IsTrue result → MayStandFrom place attributes.now cells.now }
{
    match attributes {
        [] => true,
        [attribute, attributes @ ..] => {
            may_stand_at(attribute, cells, place) && may_stand_from(attributes, cells, place + 1)
        }
    }
}

fn has_no_fault(cells: &Cells) -> bool
    ensures { IsTrue result → HaveNoFault cells.now }
{
    for k in 0..cells.len() {
        match cells.fault(k) {
            Some(_) => return false,
            None => {}
        }
    }
    true
}

/// Whether the cells are known to be without a fault, and without a null where none may be.
fn are_sound(attributes: &[Attribute], cells: &Cells) -> bool
    requires { 0 < length attributes.now }
    ensures { IsTrue result → AllByRecursion (λ cell. IsTrue (is_sound attributes.now cell)) cells.now }
{
    if are_numbers(cells, attributes.len()) {
        return true;
    }
    may_stand_from(attributes, cells, 0) && has_no_fault(cells)
}

/// Whether a chunk has a cell in its core and is known to be without a fault.
fn is_storable_chunk(schema: &Schema, margins: &Margins, chunk: &Chunk) -> bool
    requires places { HasPlaces schema.now margins.now.items chunk.now }
    requires some { 0 < length schema.now.attributes }
    ensures { IsTrue result → IsStorableChunk schema.now margins.now.items chunk.now }
{
    holds_cell(schema, margins, chunk) && are_sound(schema.attributes.as_slice(), &chunk.cells)
}

fn are_storable_chunks(schema: &Schema, margins: &Margins, chunks: &[Chunk]) -> bool
    requires places { AllByRecursion (HasPlaces schema.now margins.now.items) chunks.now }
    requires some { 0 < length schema.now.attributes }
    ensures { IsTrue result → AllByRecursion (IsStorableChunk schema.now margins.now.items) chunks.now }
{
    for chunk in chunks {
        if !is_storable_chunk(schema, margins, chunk) {
            return false;
        }
    }
    true
}

/// Whether an array's chunks are those that are stored of it under a schema. Where they are not, or are not known to be, its rows are
/// put into chunks.
pub(crate) fn is_storable(array: &ChunkedArray, schema: &Schema) -> bool
    requires cells { HasCells array.now }
    requires valid { IsValid schema.now }
    ensures { IsTrue result → IsStorable schema.now array.now }
{
    array.broken.is_none()
        && !schema.attributes.is_empty()
        && same_schema(&array.schema, schema)
        && same_margins(&array.margins, &margins_of(schema))
        && are_storable_chunks(&array.schema, &array.margins, array.chunks.as_slice())
}
