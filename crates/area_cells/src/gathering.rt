//! The rows of an array's cores in a box.
ghost use Rattle.std.specs.Prelude.{◌≡◌, ℕ, ◌<◌, ◌||◌, ◌∷◌, [], List as Items, length, IsTrue, OnOk, IfOk};
ghost use Rattle.std.specs.List.{AllByRecursion};
ghost use Rattle.cell_values.specs.Schemas.{IsValid};
ghost use Rattle.array_rows.specs.Boxes.{within};
ghost use Rattle.array_geom.specs.Areas.{are_ordered};
ghost use Rattle.array_geom.specs.Geometry.{core, has_core};
ghost use Rattle.array_geom.specs.Link.{NumbersRise, core_rows, numbers};
ghost use Rattle.array_parts.specs.Placed.{HasPlaces, HavePlaces};
ghost use Rattle.chunk_cells.specs.Whole.{CoresRise};
ghost use Rattle.area_cells.specs.Inner.Apart.{begins_above};
ghost use Rattle.area_cells.specs.Inner.Cuts.{TakesCuts};

use crate::cutting::cut_chunk;
use array_geom::{Boxes, Chunk, ChunkedArray, core_box};
use cell_values::{Bounds, ChunkAt, List, Margins, Memory, Row, Schema, copy_numbers};
use chunk_cells::into_core_rows;

/// Whether no low number is above its high one.
pub(crate) fn are_ordered(lo: &[i64], hi: &[i64]) -> bool
    ensures { result ≡ are_ordered lo.now hi.now }
{
    match lo {
        [] => hi.is_empty(),
        [l, lo @ ..] => match hi {
            [] => false,
            [h, hi @ ..] => *l <= *h && are_ordered(lo, hi),
        },
    }
}

/// Whether the first of some numbers is above the first of others.
fn begins_above(numbers: &[i64], others: &[i64]) -> bool
    ensures { result ≡ begins_above numbers.now others.now }
{
    match numbers {
        [] => false,
        [number, ..] => match others {
            [] => false,
            [other, ..] => *other < *number,
        },
    }
}

/// Whether a box lies behind the core of a last chunk or before that of a first one, as the first dimension tells.
fn lies_off(schema: &Schema, first: &ChunkAt, last: &ChunkAt, area: &Bounds) -> bool
    requires valid { IsValid schema.now }
    requires first { IsTrue (has_core schema.now.dimensions first.now.items) }
    requires last { IsTrue (has_core schema.now.dimensions last.now.items) }
    ensures { result ≡ (begins_above area.now.lo.items (core schema.now.dimensions last.now.items).hi.items
        || begins_above (core schema.now.dimensions first.now.items).lo.items area.now.hi.items) }
{
    let from = core_box(schema, first);
    let upto = core_box(schema, last);
    begins_above(area.lo.as_slice(), upto.hi.as_slice())
        || begins_above(from.lo.as_slice(), area.hi.as_slice())
}

/// Whether a box lies behind the cores of chunks or before them.
pub(crate) fn lie_off(schema: &Schema, chunks: &[Chunk], area: &Bounds) -> bool
    requires some { 0 < length chunks.now }
    requires places { AllByRecursion (λ chunk. IsTrue (has_core schema.now.dimensions chunk.at.items)) chunks.now }
    requires valid { IsValid schema.now }
    requires rise { NumbersRise (numbers chunks.now) }
    ensures { IsTrue result → (margins : Items ℕ) → within area.now (core_rows schema.now.dimensions margins chunks.now) ≡ [] }
{
    let first = &chunks[0];
    let last = &chunks[chunks.len() - 1];
    lies_off(schema, &first.at, &last.at, area)
}

/// Adds what a chunk has in a box, if its core has something there.
fn push_cut(
    cuts: &mut List<Chunk>,
    schema: &Schema,
    margins: &Margins,
    chunk: &Chunk,
    area: &Bounds,
) -> Result<(), Memory>
    requires places { HasPlaces schema.now margins.now.items chunk.now }
    requires rise { CoresRise schema.now.dimensions margins.now.items (chunk.now ∷ []) }
    ensures { OnOk result (TakesCuts schema.now margins.now.items area.now (chunk.now ∷ []) cuts.old cuts.new) }
{
    let shared = core_box(schema, &chunk.at).meet(area);
    if !are_ordered(shared.lo.as_slice(), shared.hi.as_slice()) {
        return Ok(());
    }
    cuts.push(cut_chunk(schema, margins, chunk, area)?)
}

/// Adds what chunks have in a box.
fn push_cuts(
    cuts: &mut List<Chunk>,
    schema: &Schema,
    margins: &Margins,
    chunks: &[Chunk],
    area: &Bounds,
) -> Result<(), Memory>
    requires valid { IsValid schema.now }
    requires places { AllByRecursion (HasPlaces schema.now margins.now.items) chunks.now }
    requires cores { CoresRise schema.now.dimensions margins.now.items chunks.now }
    requires rise { NumbersRise (numbers chunks.now) }
    ensures { OnOk result (TakesCuts schema.now margins.now.items area.now chunks.now cuts.old cuts.new) }
{
    if chunks.is_empty() {
        return Ok(());
    }
    if chunks.len() == 1 {
        return push_cut(cuts, schema, margins, &chunks[0], area);
    }
    if lie_off(schema, chunks, area) {
        return Ok(());
    }
    let (front, back) = chunks.split_at(chunks.len() / 2);
    push_cuts(cuts, schema, margins, front, area)?;
    push_cuts(cuts, schema, margins, back, area)
}

/// Copies of the rows of an array's cores that lie in a box.
pub fn rows_in_area(
    schema: &Schema,
    margins: &Margins,
    chunks: &[Chunk],
    area: &Bounds,
) -> Result<List<Row>, Memory>
    requires places { HavePlaces schema.now margins.now.items chunks.now }
    requires cores { CoresRise schema.now.dimensions margins.now.items chunks.now }
    ensures { IfOk result (λ rows. rows ≡ within area.now (core_rows schema.now.dimensions margins.now.items chunks.now)) }
{
    let mut cuts = schema.dimensions.another();
    push_cuts(&mut cuts, schema, margins, chunks, area)?;
    into_core_rows(ChunkedArray {
        schema: schema.copy()?,
        margins: copy_numbers(margins),
        chunks: cuts,
        broken: None,
    })
}
