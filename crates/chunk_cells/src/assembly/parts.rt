//! Rows put into the chunks that have them in their frames.
ghost use Rattle.std.specs.Prelude.{◌≡◌, ◌≤◌, ◌++◌, [], ◌∷◌, List as Items, false, length, take, IsTrue, OnOk, IfOk};
ghost use Rattle.std.specs.List.{AllByRecursion};
ghost use Rattle.std.specs.Ordering.{is_lt};
ghost use Rattle.cell_values.specs.declared.datum.Row.{Row as Placed};
ghost use Rattle.array_rows.specs.Boxes.{bounds_of, is_inside};
ghost use Rattle.array_geom.specs.Geometry.{HasFrame, frame};
ghost use Rattle.array_geom.specs.Link.{IsPart, NumbersRise, number_order, numbers};
ghost use Rattle.chunk_cells.specs.Frames.{HasFrames, AreFramed, TakesRow, TakeRow};
ghost use Rattle.chunk_cells.specs.Inner.Near.{lies_between};
ghost use Rattle.chunk_cells.specs.Inner.Numbers.{numbers_in};
ghost use Rattle.chunk_cells.specs.Inner.Reach.{Reaches};

use crate::assembly::near::{Reached, lies_between, next_near, numbers_near};
use crate::assembly::numbers::{comes_before, count_before};
use array_geom::{Chunk, position};
use cell_values::{ChunkAt, Margins, Memory, Row, Schema};

/// Adds the cell of a row, which comes after those that the chunk has.
fn add_cell(schema: &Schema, margins: &Margins, chunk: &mut Chunk, row: &Row) -> Result<(), Memory>
    requires framed { HasFrame schema.now margins.now.items chunk.old.at.items }
    requires inside { IsTrue (is_inside (frame schema.now.dimensions margins.now.items chunk.old.at.items) row.now.at.items) }
    ensures { OnOk result (TakesRow schema.now margins.now.items row.now chunk.old chunk.new) }
{
    let place = position(schema, margins, &chunk.at, &row.at);
    chunk.positions.push(place)?;
    chunk.cells.push(row.cell.copy()?)?;
    Ok(())
}

/// Adds the cell of a row if the chunk's frame has it.
fn offer(
    schema: &Schema,
    margins: &Margins,
    near: &Reached,
    chunk: &mut Chunk,
    row: &Row,
) -> Result<(), Memory>
    requires framed { HasFrame schema.now margins.now.items chunk.old.at.items }
    requires near { Reaches schema.now.dimensions margins.now.items row.now.at.items near.now }
    requires inside { IsTrue (is_inside (bounds_of schema.now.dimensions) row.now.at.items) }
    ensures { OnOk result (TakesRow schema.now margins.now.items row.now chunk.old chunk.new) }
{
    if lies_between(
        near.low.as_slice(),
        near.high.as_slice(),
        chunk.at.as_slice(),
    ) {
        add_cell(schema, margins, chunk, row)?;
    }
    Ok(())
}

/// How many of the numbers after one come before the box's next number.
fn count_outside(near: &Reached, last: &ChunkAt, later: &[ChunkAt]) -> usize
    requires in_order { NumbersRise (numbers_in (last.now ∷ later.now)) }
    requires not_after { is_lt (number_order near.now.high.items last.now.items) ≡ false }
    ensures within { result ≤ length later.now }
    ensures outside { AllByRecursion (λ n. lies_between near.now.low.items near.now.high.items n.items ≡ false) (take result later.now) }
{
    if lies_between(near.low.as_slice(), near.high.as_slice(), last.as_slice()) {
        return 0;
    }
    count_before(later, &next_near(near, last))
}

/// Adds the cell of a row to each chunk whose frame has it.
pub(crate) fn put_row(
    schema: &Schema,
    margins: &Margins,
    listed: &[ChunkAt],
    chunks: &mut Vec<Chunk>,
    row: &Row,
) -> Result<(), Memory>
    requires frames { HasFrames schema.now margins.now.items }
    requires in_order { NumbersRise (numbers_in listed.now) }
    requires framed { AreFramed schema.now.dimensions (numbers_in listed.now) }
    requires same { numbers chunks.old.items ≡ numbers_in listed.now }
    requires inside { IsTrue (is_inside (bounds_of schema.now.dimensions) row.now.at.items) }
    ensures same { OnOk result (numbers chunks.new.items ≡ numbers_in listed.now) }
    ensures row { OnOk result (TakeRow schema.now margins.now.items row.now chunks.old.items chunks.new.items) }
{
    let near = numbers_near(schema, margins, &row.at);
    let mut index = count_before(listed, &near.low);
    while index < listed.len() {
        let number = &listed[index];
        if comes_before(&near.high, number) {
            return Ok(());
        }
        offer(schema, margins, &near, &mut chunks[index], row)?;
        index += 1 + count_outside(&near, number, &listed[index + 1..]);
    }
    Ok(())
}
