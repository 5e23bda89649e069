//! The values of some attributes.
ghost use Rattle.std.specs.Prelude.{◌≡◌, ℕ, List as Items, map, slice_index_or, IfOk};
ghost use Rattle.cell_values.specs.declared.datum.Datum.TheVariants.{Null};
ghost use Rattle.cell_values.specs.declared.datum.Row.{Row};
ghost use Rattle.cell_values.specs.declared.schema.Dimension.{Dimension};
ghost use Rattle.array_geom.specs.Link.{IsPart};
ghost use Rattle.logical_plan.specs.CellOps.{project_rows};
ghost use Rattle.array_parts.specs.Made.{IsPlaced, IsMadeBy};
ghost use Rattle.exec_cellwise.specs.Picked.{picked};

use array_geom::Chunk;
use array_rows::Cells;
use cell_values::{Cell, Datum, List, Memory, copy_numbers};

fn value_at(values: &List<Datum>, place: usize) -> Result<Datum, Memory>
    ensures { IfOk result (λ value. value ≡ slice_index_or values.now place Null) }
{
    match values.as_slice().get(place) {
        Some(value) => value.copy(),
        None => Ok(Datum::Null),
    }
}

fn pick(values: &List<Datum>, places: &[u32]) -> Result<List<Datum>, Memory>
    ensures { IfOk result (λ found. found ≡ map (λ place. slice_index_or values.now place Null) places.now) }
{
    let mut found = List::with_capacity(values.allocator(), places.len())?;
    for place in places {
        found.push(value_at(values, *place as usize)?)?;
    }
    Ok(found)
}

fn project_cell(cell: &Cell, kept: &[u32]) -> Result<Cell, Memory>
    ensures { IfOk result (λ made. made ≡ picked kept.now cell.now) }
{
    match cell {
        Cell::Full(values) => Ok(Cell::Full(pick(values, kept)?)),
        Cell::Doubt(kind) => Ok(Cell::Doubt(*kind)),
    }
}

fn project_cells(cells: &Cells, kept: &[u32]) -> Result<Cells, Memory>
    ensures { IfOk result (λ made. made ≡ map (picked kept.now) cells.now) }
{
    let mut made = cells.another();
    for k in 0..cells.len() {
        made.push(project_cell(&cells.cell(k)?, kept)?)?;
    }
    Ok(made)
}

/// Each cell of a chunk with the values at these places alone, in this order.
pub fn project_chunk(chunk: &Chunk, kept: &[u32]) -> Result<Chunk, Memory>
    ensures made { (dims : Items Dimension) (margins : Items ℕ) → IsPlaced dims margins chunk.now
        → IfOk result (IsMadeBy (project_rows kept.now) dims margins chunk.now) }
    ensures part { (dims : Items Dimension) (margins : Items ℕ) (rows : Items Row) → IsPart dims margins rows chunk.now
        → IfOk result (IsPart dims margins (project_rows kept.now rows)) }
{
    Ok(Chunk {
        at: copy_numbers(&chunk.at),
        positions: chunk.positions.copy()?,
        cells: project_cells(&chunk.cells, kept)?,
    })
}
