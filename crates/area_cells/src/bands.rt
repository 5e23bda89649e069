//! Bands of chunks: those that have one first number, whose rows all come before those of later bands.
ghost use Rattle.std.specs.Prelude.{◌≡◌, ℕ, ◌<◌, ◌≤◌, ◌++◌, List as Items, length, take, drop, IsTrue, OnOk, IfOk};
ghost use Rattle.std.specs.List.{AllByRecursion};
ghost use Rattle.array_geom.specs.Geometry.{has_core};
ghost use Rattle.array_geom.specs.Link.{NumbersRise, core_rows, numbers};
ghost use Rattle.array_parts.specs.Placed.{HasPlaces, HavePlaces};
ghost use Rattle.chunk_cells.specs.Whole.{CoresRise};
ghost use Rattle.cell_values.specs.Schemas.{IsValid};
ghost use Rattle.area_cells.specs.Inner.Apart.{BeginsBand, first_of};

use array_geom::{Chunk, ChunkedArray};
use cell_values::{List, Margins, Memory, Row, Schema, copy_numbers};
use chunk_cells::into_core_rows;

fn first_number(chunk: &Chunk) -> u64
    ensures { result ≡ first_of chunk.now.at.items }
{
    match chunk.at.as_slice() {
        [] => 0,
        [number, ..] => *number,
    }
}

/// How many chunks at the beginning are in the first band. All their rows come before those of the others.
pub fn count_in_band(schema: &Schema, chunks: &[Chunk]) -> usize
    requires some { 0 < length chunks.now }
    requires valid { IsValid schema.now }
    requires cores { AllByRecursion (λ chunk. IsTrue (has_core schema.now.dimensions chunk.at.items)) chunks.now }
    requires rise { NumbersRise (numbers chunks.now) }
    ensures some { 0 < result }
    ensures within { result ≤ length chunks.now }
    ensures rows { (margins : Items ℕ) → core_rows schema.now.dimensions margins chunks.now ≡ core_rows schema.now.dimensions margins
        (take result chunks.now) ++ core_rows schema.now.dimensions margins (drop result chunks.now) }
{
    let _ = schema;
    let first = first_number(&chunks[0]);
    let mut count = 1;
    while count < chunks.len() {
        if first_number(&chunks[count]) != first {
            return count;
        }
        count += 1;
    }
    count
}

/// Whether a band begins at a place behind the first chunk.
fn begins_band(chunks: &[Chunk], at: usize) -> bool
    ensures { IsTrue result → BeginsBand at chunks.now }
{
    if at == 0 || at >= chunks.len() {
        return false;
    }
    let last = at - 1;
    let before = first_number(&chunks[last]);
    let next = first_number(&chunks[at]);
    before < next
}

/// Where a band begins in the midst of chunks, as near to their middle as there is one; their number, where all are in one band.
/// All rows of those before come before those of the others.
pub fn half_of_bands(schema: &Schema, chunks: &[Chunk]) -> usize
    requires valid { IsValid schema.now }
    requires cores { AllByRecursion (λ chunk. IsTrue (has_core schema.now.dimensions chunk.at.items)) chunks.now }
    requires rise { NumbersRise (numbers chunks.now) }
    ensures some { 0 < length chunks.now → 0 < result }
    ensures within { result ≤ length chunks.now }
    ensures rows { (margins : Items ℕ) → core_rows schema.now.dimensions margins chunks.now ≡ core_rows schema.now.dimensions margins
        (take result chunks.now) ++ core_rows schema.now.dimensions margins (drop result chunks.now) }
{
    let _ = schema;
    let half = chunks.len() / 2;
    for step in 0..half + 1 {
        if begins_band(chunks, half + step) {
            return half + step;
        }
        if begins_band(chunks, half - step) {
            return half - step;
        }
    }
    chunks.len()
}

fn copies(chunks: &[Chunk], schema: &Schema) -> Result<List<Chunk>, Memory>
    ensures { IfOk result (λ copies. copies ≡ chunks.now) }
{
    let mut copies = schema.dimensions.another();
    for chunk in chunks {
        copies.push(chunk.copy()?)?;
    }
    Ok(copies)
}

/// Copies of the rows of cores.
pub fn rows_of_chunks(
    schema: &Schema,
    margins: &Margins,
    chunks: &[Chunk],
) -> Result<List<Row>, Memory>
    requires places { HavePlaces schema.now margins.now.items chunks.now }
    requires cores { CoresRise schema.now.dimensions margins.now.items chunks.now }
    ensures { IfOk result (λ rows. rows ≡ core_rows schema.now.dimensions margins.now.items chunks.now) }
{
    into_core_rows(ChunkedArray {
        schema: schema.copy()?,
        margins: copy_numbers(margins),
        chunks: copies(chunks, schema)?,
        broken: None,
    })
}
