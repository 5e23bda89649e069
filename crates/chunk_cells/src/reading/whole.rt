//! The rows of an array.
ghost use Rattle.std.specs.Prelude.{◌≡◌, ◌≤◌, ◌<◌, List as Items, length, take, drop, OnOk, IfOk};
ghost use Rattle.std.specs.List.{AllByRecursion};
ghost use Rattle.std.specs.Vec.Iter.{into_iter_items};
ghost use Rattle.cell_values.specs.declared.datum.Row.{Row as Placed};
ghost use Rattle.array_geom.specs.Link.{HoldsRows, core_rows};
ghost use Rattle.array_parts.specs.Placed.{HasPlaces, HavePlaces};
ghost use Rattle.chunk_cells.specs.Whole.{CoresRise};

use crate::reading::cores::core_cells;
use crate::reading::merging::merge;
use array_geom::{Chunk, ChunkedArray};
use cell_values::{List, Margins, Memory, Row, Schema};
use std::vec::IntoIter;

/// The rows of the next chunk's core.
fn next_rows(
    schema: &Schema,
    margins: &Margins,
    chunks: &mut IntoIter<Chunk>,
) -> Result<List<Row>, Memory>
    requires some { 1 ≤ length (into_iter_items chunks.old) }
    requires places { AllByRecursion (HasPlaces schema.now margins.now.items) (into_iter_items chunks.old) }
    ensures left { into_iter_items chunks.new ≡ drop 1 (into_iter_items chunks.old) }
    ensures rows { CoresRise schema.now.dimensions margins.now.items (into_iter_items chunks.old)
        → IfOk result (λ rows. rows ≡ core_rows schema.now.dimensions margins.now.items (take 1 (into_iter_items chunks.old))) }
{
    match chunks.next() {
        Some(chunk) => core_cells(schema, margins, chunk),
        None => Ok(schema.dimensions.another()),
    }
}

/// A place at which to cut a list of chunks: the first one from the middle on where a new number of the first dimension begins,
/// so that all rows of the left part come before those of the right one, or else the middle.
fn cut_of(first: &[u64]) -> usize
    requires { 2 ≤ length first.now }
    ensures some { 0 < result }
    ensures few { result < length first.now }
{
    let half = first.len() / 2;
    let mut at = half;
    while at < first.len() {
        if first[at - 1] != first[at] {
            return at;
        }
        at += 1;
    }
    half
}

/// The number of each chunk in the first dimension.
fn first_numbers(chunks: &List<Chunk>) -> Result<List<u64>, Memory>
    ensures { IfOk result (λ first. length first ≡ length chunks.now) }
{
    let mut first = List::with_capacity(chunks.allocator(), chunks.len())?;
    for chunk in chunks.as_slice() {
        first.push(first_number(chunk))?;
    }
    Ok(first)
}

fn first_number(chunk: &Chunk) -> u64 {
    match chunk.at.as_slice() {
        [] => 0,
        [number, ..] => *number,
    }
}

/// The rows of the cores of as many chunks as there are first numbers.
fn gather(
    schema: &Schema,
    margins: &Margins,
    chunks: &mut IntoIter<Chunk>,
    first: &[u64],
) -> Result<List<Row>, Memory>
    requires some { length first.now ≤ length (into_iter_items chunks.old) }
    requires places { AllByRecursion (HasPlaces schema.now margins.now.items) (into_iter_items chunks.old) }
    ensures left { OnOk result (into_iter_items chunks.new ≡ drop (length first.now) (into_iter_items chunks.old)) }
    ensures rows { CoresRise schema.now.dimensions margins.now.items (into_iter_items chunks.old)
        → IfOk result (λ rows. rows ≡ core_rows schema.now.dimensions margins.now.items (take (length first.now) (into_iter_items chunks.old))) }
{
    if first.is_empty() {
        return Ok(schema.dimensions.another());
    }
    if first.len() == 1 {
        return next_rows(schema, margins, chunks);
    }
    let half = cut_of(first);
    let (front, back) = first.split_at(half);
    let left = gather(schema, margins, chunks, front)?;
    let right = gather(schema, margins, chunks, back)?;
    merge(left, right)
}

/// The rows of all cores.
fn gathered(array: ChunkedArray) -> Result<List<Row>, Memory>
    requires { AllByRecursion (HasPlaces array.schema array.margins.items) array.chunks }
    ensures { CoresRise array.schema.dimensions array.margins.items array.chunks
        → IfOk result (λ rows. rows ≡ core_rows array.schema.dimensions array.margins.items array.chunks) }
{
    let ChunkedArray {
        schema,
        margins,
        chunks,
        broken: _,
    } = array;
    let first = first_numbers(&chunks)?;
    let mut chunks = chunks.into_vec().into_iter();
    gather(&schema, &margins, &mut chunks, first.as_slice())
}

/// The rows of an array's cores, put together, whose cells are moved. The margins need not agree with them, and the chunks may stand
/// in any order.
pub fn into_core_rows(array: ChunkedArray) -> Result<List<Row>, Memory>
    requires places { AllByRecursion (HasPlaces array.schema array.margins.items) array.chunks }
    requires rise { CoresRise array.schema.dimensions array.margins.items array.chunks }
    ensures { IfOk result (λ rows. rows ≡ core_rows array.schema.dimensions array.margins.items array.chunks) }
{
    gathered(array)
}

/// The rows of an array, whose cells are moved.
pub fn into_rows(array: ChunkedArray) -> Result<List<Row>, Memory>
    requires { HavePlaces array.schema array.margins.items array.chunks }
    ensures { (held : Items Placed) → HoldsRows array.schema array held → IfOk result (λ rows. rows ≡ held) }
{
    gathered(array)
}

/// The rows of an array, which stays.
pub fn rows(array: &ChunkedArray) -> Result<List<Row>, Memory>
    requires { HavePlaces array.now.schema array.now.margins.items array.now.chunks }
    ensures { (held : Items Placed) → HoldsRows array.now.schema array.now held → IfOk result (λ rows. rows ≡ held) }
{
    into_rows(array.copy()?)
}
