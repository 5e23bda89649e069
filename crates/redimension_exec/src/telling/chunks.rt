//! Chunks whose rows are told in order, and the array of them.
ghost use Rattle.std.specs.Prelude.{◌≡◌, ◌<◌, ◌++◌, ◌∷◌, [], List as Items, Ok as Good, drop, OnOk, IfOk};
ghost use Rattle.std.specs.BTreeMap.{values};
ghost use Rattle.std.specs.List.{AllByRecursion, AllZip};
ghost use Rattle.std.specs.Vec.Iter.{into_iter_items};
ghost use Rattle.cell_values.specs.declared.datum.Row.{Row as Placed};
ghost use Rattle.array_geom.specs.Geometry.{HasFrame, frame_lengths, overlaps, volume};
ghost use Rattle.array_geom.specs.Inner.Ranges.{IsGrid};
ghost use Rattle.array_geom.specs.Link.{Is, chunk_rows, rows_in};
ghost use Rattle.area_cells.specs.Margins.{no_margins};
ghost use Rattle.redimension_exec.specs.Inner.Telling.{CanBeTold, CanTell, IsToldOf, told_rows};

use crate::telling::rows::in_order;
use area_cells::{array_of_parts, chunk_of_rows};
use array_geom::{Chunk, ChunkedArray, Grid, grid_of, margins_of};
use cell_values::{
    Cell, ChunkAt, List, Margins, Memory, Row, Schema, compare_numbers, copy_numbers,
};
use chunk_cells::{assemble, fit_rows, into_rows};
use std::collections::BTreeMap;
use std::vec::IntoIter;

/// Adds the next cell, which stands at this place.
fn push_next(
    rows: &mut List<Row>,
    grid: &Grid,
    position: u64,
    cells: &mut IntoIter<Cell>,
) -> Result<(), Memory>
    requires grid { IsGrid grid.now }
    requires inside { position < volume grid.now.lengths.items }
    ensures rows { OnOk result (rows.new ≡ rows.old ++ rows_in grid.now.low.items grid.now.lengths.items (position ∷ []) (into_iter_items cells.old)) }
    ensures left { into_iter_items cells.new ≡ drop 1 (into_iter_items cells.old) }
{
    if let Some(cell) = cells.next() {
        let at = grid.place(position);
        rows.push(Row { at, cell })?;
    }
    Ok(())
}

/// The rows of a chunk in the order in which they stand.
fn rows_held(schema: &Schema, margins: &Margins, chunk: Chunk) -> Result<List<Row>, Memory>
    requires framed { HasFrame schema.now margins.now.items chunk.at.items }
    requires in_frame { AllByRecursion (λ p. p < volume (frame_lengths schema.now.dimensions margins.now.items)) chunk.positions }
    ensures { IfOk result (λ rows. rows ≡ chunk_rows schema.now.dimensions margins.now.items chunk) }
{
    let grid = grid_of(schema, margins, &chunk.at);
    let Chunk {
        at: _,
        positions,
        cells,
    } = chunk;
    let mut rows = positions.another();
    let mut cells = cells.into_list()?.into_vec().into_iter();
    for position in positions.as_slice() {
        push_next(&mut rows, &grid, *position, &mut cells)?;
    }
    Ok(rows)
}

/// The chunk with its rows in order, the values fitted to the target's attributes.
fn told_chunk(target: &Schema, margins: &Margins, chunk: Chunk) -> Result<Chunk, Memory>
    requires { (made : Items Placed) × CanBeTold target.now margins.now.items made chunk }
    ensures { IfOk result (IsToldOf target.now margins.now.items chunk) }
{
    let number = copy_numbers(&chunk.at);
    let rows = rows_held(target, margins, chunk)?;
    let sorted = in_order(rows)?;
    let told = fit_rows(target.attributes.as_slice(), sorted)?;
    let made = chunk_of_rows(target, margins, &number, told)?;
    Ok(made)
}

/// All chunks by their numbers, each with its rows in order.
fn told_chunks(
    target: &Schema,
    margins: &Margins,
    chunks: BTreeMap<ChunkAt, Chunk>,
    room: usize,
) -> Result<List<Chunk>, Memory>
    requires { (made : Items Placed) × AllByRecursion (CanBeTold target.now margins.now.items made) (values chunks) }
    ensures { IfOk result (AllZip (IsToldOf target.now margins.now.items) (values chunks)) }
{
    let mut told = List::with_capacity(target.dimensions.allocator(), room)?;
    let mut chunks = chunks;
    'telling: while let Some((_number, chunk)) = chunks.pop_first() {
        let next = told_chunk(target, margins, chunk)?;
        told.push(next)?;
    }
    Ok(told)
}

/// The same array with the margins of its schema.
fn with_overlaps(target: &Schema, array: ChunkedArray) -> Result<ChunkedArray, Memory>
    requires { (rows : Items Placed) × Is array (record { schema = target.now; rows = Good rows }) }
    ensures array { (rows : Items Placed) → Is array (record { schema = target.now; rows = Good rows })
        → IfOk result (λ made. Is made (record { schema = target.now; rows = Good rows })) }
    ensures margins { IfOk result (λ made. made.margins.items ≡ overlaps target.now.dimensions) }
{
    let margins = margins_of(target);
    if compare_numbers(&array.margins, &margins).is_eq() {
        return Ok(array);
    }
    let rows = into_rows(array)?;
    assemble(target, &margins, rows.as_slice())
}

/// The array of the target with the rows that these chunks hold.
pub(crate) fn told_array(
    target: &Schema,
    none: &Margins,
    chunks: BTreeMap<ChunkAt, Chunk>,
) -> Result<ChunkedArray, Memory>
    requires margins { none.now.items ≡ no_margins target.now.dimensions }
    requires rows { CanTell target.now chunks }
    ensures array { (can : CanTell target.now chunks)
        → IfOk result (λ array. Is array (record { schema = target.now; rows = Good (told_rows target.now can.made) })) }
    ensures margins { IfOk result (λ array. array.margins.items ≡ overlaps target.now.dimensions) }
{
    let room = chunks.len();
    let told = told_chunks(target, none, chunks, room)?;
    let array = array_of_parts(target, none, told)?;
    with_overlaps(target, array)
}
