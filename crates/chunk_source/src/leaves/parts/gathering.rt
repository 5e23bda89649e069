//! The rows of chunks, those of their margins too, in row-major order.
ghost use Rattle.std.specs.Prelude.{◌≡◌, ◌<◌, ◌++◌, [], ◌∷◌, drop, OnOk, IfOk};
ghost use Rattle.std.specs.List.{AllByRecursion, flat_map};
ghost use Rattle.std.specs.Vec.Iter.{into_iter_items};
ghost use Rattle.array_rows.specs.Rows.{in_order};
ghost use Rattle.array_geom.specs.Geometry.{volume};
ghost use Rattle.array_geom.specs.Link.{chunk_rows, rows_in};
ghost use Rattle.array_geom.specs.Inner.Ranges.{IsGrid};
ghost use Rattle.array_parts.specs.Placed.{HasPlaces};

use array_geom::{Chunk, Grid, grid_of};
use cell_values::{Cell, List, Margins, Memory, Row, Schema, row_major};
use std::vec::IntoIter;

/// Adds the next cell, which stands at this place.
fn push_next(
    rows: &mut List<Row>,
    grid: &Grid,
    position: u64,
    cells: &mut IntoIter<Cell>,
) -> Result<(), Memory>
    requires grid { IsGrid grid.now }
    requires inside { position < volume grid.now.lengths.items }
    ensures rows { OnOk result (rows.new ≡ rows.old
        ++ rows_in grid.now.low.items grid.now.lengths.items (position ∷ []) (into_iter_items cells.old)) }
    ensures left { into_iter_items cells.new ≡ drop 1 (into_iter_items cells.old) }
{
    if let Some(cell) = cells.next() {
        rows.push(Row {
            at: grid.place(position),
            cell,
        })?;
    }
    Ok(())
}

/// Adds the rows of a chunk.
fn push_rows(
    rows: &mut List<Row>,
    schema: &Schema,
    margins: &Margins,
    chunk: Chunk,
) -> Result<(), Memory>
    requires { HasPlaces schema.now margins.now.items chunk }
    ensures { OnOk result (rows.new ≡ rows.old ++ chunk_rows schema.now.dimensions margins.now.items chunk) }
{
    let grid = grid_of(schema, margins, &chunk.at);
    let Chunk {
        at: _,
        positions,
        cells,
    } = chunk;
    let mut cells = cells.into_list()?.into_vec().into_iter();
    for position in positions.as_slice() {
        push_next(rows, &grid, *position, &mut cells)?;
    }
    Ok(())
}

/// The rows of chunks, one chunk's behind the other's.
fn all_rows(schema: &Schema, margins: &Margins, chunks: List<Chunk>) -> Result<List<Row>, Memory>
    requires { AllByRecursion (HasPlaces schema.now margins.now.items) chunks }
    ensures { IfOk result (λ rows. rows ≡ flat_map (chunk_rows schema.now.dimensions margins.now.items) chunks) }
{
    let mut rows = schema.dimensions.another();
    for chunk in chunks.into_vec() {
        push_rows(&mut rows, schema, margins, chunk)?;
    }
    Ok(rows)
}

/// Rows in row-major order, of several at one coordinate the first.
fn in_order(rows: List<Row>) -> Result<List<Row>, Memory>
    ensures { IfOk result (λ sorted. sorted ≡ in_order rows) }
{
    let mut rows = rows.into_vec();
    rows.sort_by(|a, b| a.at.as_slice().cmp(b.at.as_slice()))?;
    rows.dedup_by(|later, row| row_major(&later.at, &row.at).is_eq());
    Ok(List::from_vec(rows))
}

/// The rows of chunks in row-major order, of several at one coordinate the first.
pub(crate) fn rows_in_order(
    schema: &Schema,
    margins: &Margins,
    chunks: List<Chunk>,
) -> Result<List<Row>, Memory>
    requires { AllByRecursion (HasPlaces schema.now margins.now.items) chunks }
    ensures { IfOk result (λ rows. rows ≡ in_order (flat_map (chunk_rows schema.now.dimensions margins.now.items) chunks)) }
{
    in_order(all_rows(schema, margins, chunks)?)
}
