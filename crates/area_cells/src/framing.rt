//! Chunks made of the rows of their frames, and arrays made of such chunks.
ghost use Rattle.std.specs.Prelude.{◌≡◌, ◌++◌, ◌∷◌, [], List as Items, Ok as Good, length, IsTrue, OnOk, IfOk};
ghost use Rattle.std.specs.List.{AllByRecursion};
ghost use Rattle.cell_values.specs.declared.datum.Row.{Row as Placed};
ghost use Rattle.array_rows.specs.Arrays.{AreRowsOf};
ghost use Rattle.array_rows.specs.Boxes.{is_inside};
ghost use Rattle.array_geom.specs.Geometry.{HasFrame, frame};
ghost use Rattle.array_geom.specs.Inner.Ranges.{IsGrid, is_in_grid};
ghost use Rattle.array_geom.specs.Link.{Is, chunk_rows};
ghost use Rattle.array_parts.specs.Made.{IsPlaced};
ghost use Rattle.array_parts.specs.Parts.{AreParts};
ghost use Rattle.array_parts.specs.Placed.{HavePlaces};
ghost use Rattle.area_cells.specs.Inner.Filled.{IsFilled};

use array_geom::{Chunk, ChunkedArray, Grid, grid_of};
use array_parts::with_cells;
use array_rows::Cells;
use cell_values::{ChunkAt, List, Margins, Memory, Row, Schema, copy_numbers};

/// Adds the cell of a row, whose coordinate has a place in the grid.
fn add_row(chunk: &mut Chunk, grid: &Grid, row: Row) -> Result<(), Memory>
    requires grid { IsGrid grid.now }
    requires inside { IsTrue (is_in_grid grid.now.low.items grid.now.lengths.items row.at.items) }
    ensures number { OnOk result (chunk.new.at ≡ chunk.old.at) }
    ensures filled { OnOk result ((rows : Items Placed) → IsFilled grid.now.low.items grid.now.lengths.items rows chunk.old
        → IsFilled grid.now.low.items grid.now.lengths.items (rows ++ row ∷ []) chunk.new) }
{
    let place = grid.position(&row.at);
    chunk.positions.push(place)?;
    chunk.cells.push(row.cell)
}

/// The chunk with these rows, which lie in its frame.
pub fn chunk_of_rows(
    schema: &Schema,
    margins: &Margins,
    number: &ChunkAt,
    rows: List<Row>,
) -> Result<Chunk, Memory>
    requires framed { HasFrame schema.now margins.now.items number.now.items }
    requires inside { AllByRecursion (λ row. IsTrue (is_inside (frame schema.now.dimensions margins.now.items number.now.items) row.at.items)) rows }
    ensures number { IfOk result (λ chunk. chunk.at ≡ number.now) }
    ensures placed { IfOk result (IsPlaced schema.now.dimensions margins.now.items) }
    ensures rows { IfOk result (λ chunk. chunk_rows schema.now.dimensions margins.now.items chunk ≡ rows) }
{
    let grid = grid_of(schema, margins, number);
    let mut chunk = Chunk {
        at: copy_numbers(number),
        positions: rows.another(),
        cells: Cells::new(rows.allocator()),
    };
    for row in rows.into_vec() {
        add_row(&mut chunk, &grid, row)?;
    }
    Ok(chunk)
}

/// The array of rows of which these chunks are parts.
pub fn array_of_parts(
    schema: &Schema,
    margins: &Margins,
    chunks: List<Chunk>,
) -> Result<ChunkedArray, Memory>
    requires { HavePlaces schema.now margins.now.items chunks }
    ensures array { (rows : Items Placed) → AreRowsOf schema.now rows → AreParts schema.now.dimensions margins.now.items rows chunks
        → IfOk result (λ array. Is array (record { schema = schema.now; rows = Good rows })) }
    ensures margins { IfOk result (λ array. array.margins ≡ margins.now) }
{
    let chunks = with_cells(schema, margins, chunks)?;
    Ok(ChunkedArray {
        schema: schema.copy()?,
        margins: copy_numbers(margins),
        chunks,
        broken: None,
    })
}
