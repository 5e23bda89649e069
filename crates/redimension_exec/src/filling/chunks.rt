//! Chunks that take the rows that land, each at the end.
ghost use Rattle.std.specs.Prelude.{◌≡◌, ℕ, ◌+◌, ◌++◌, ◌∷◌, [], List as Items, Some, None, false, IsTrue, OnOk, IfOk};
ghost use Rattle.std.specs.BTreeMap as tree;
ghost use Rattle.std.specs.Option.{unwrap_or};
ghost use Rattle.std.specs.Ordering.{is_eq};
ghost use Rattle.arrayvec.specs.ArrayVec.{ArrayVec as Numbers};
ghost use Rattle.cell_values.specs.declared.datum.Row.{Row as Placed};
ghost use Rattle.cell_values.specs.Schemas.{IsValid};
ghost use Rattle.array_rows.specs.Boxes.{bounds_of, is_inside};
ghost use Rattle.array_parts.specs.Made.{with_cell};
ghost use Rattle.area_cells.specs.Margins.{no_margins};
ghost use Rattle.redimension_exec.specs.Inner.Filling.{AreIn, by_number, chunk_at, no_cells};

use array_geom::{Chunk, chunk_of, position};
use array_rows::Cells;
use cell_values::{Cell, ChunkAt, Margins, Memory, Row, Schema, compare_numbers, copy_numbers};
use std::alloc::Global;
use std::collections::BTreeMap;

/// The chunk that took the last cell, which is not looked for again while cells land there, and the others by their numbers.
#[derive(Drop)]
pub(crate) struct Filled {
    last: Option<Chunk>,
    others: BTreeMap<ChunkAt, Chunk>,
}

impl Filled {
    pub(crate) fn new(alloc: Global) -> Filled
        ensures { (key : Numbers ℕ) → chunk_at result.last result.others key ≡ None }
    {
        Filled {
            last: None,
            others: BTreeMap::new(alloc),
        }
    }

    /// All chunks by their numbers.
    pub(crate) fn finish(self) -> Result<BTreeMap<ChunkAt, Chunk>, Memory>
        ensures { IfOk result (λ chunks. (key : Numbers ℕ) → tree.get by_number chunks key ≡ chunk_at self.last self.others key) }
    {
        let Filled { last, others } = self;
        match last {
            Some(chunk) => put_back(others, chunk),
            None => Ok(others),
        }
    }
}

fn put_back(
    others: BTreeMap<ChunkAt, Chunk>,
    chunk: Chunk,
) -> Result<BTreeMap<ChunkAt, Chunk>, Memory>
    ensures { IfOk result (λ chunks. (key : Numbers ℕ) → tree.get by_number chunks key ≡ chunk_at (Some chunk) others key) }
{
    let mut chunks = others;
    chunks.insert(copy_numbers(&chunk.at), chunk)?;
    Ok(chunks)
}

/// Takes out the chunk of a number, which has no cells if there is none.
fn take_out(target: &Schema, chunks: &mut BTreeMap<ChunkAt, Chunk>, number: &ChunkAt) -> Chunk
    ensures chunk { result ≡ unwrap_or (tree.get by_number chunks.old number.now) (no_cells number.now) }
    ensures others { (key : Numbers ℕ) → is_eq (by_number number.now key) ≡ false → tree.get by_number chunks.new key ≡ tree.get by_number chunks.old key }
{
    match chunks.remove(number) {
        Some(chunk) => chunk,
        None => Chunk {
            at: copy_numbers(number),
            positions: target.dimensions.another(),
            cells: Cells::new(target.dimensions.allocator()),
        },
    }
}

/// Takes out the chunk of a number, where one took the last cell.
fn chunk_after(
    target: &Schema,
    others: &mut BTreeMap<ChunkAt, Chunk>,
    number: &ChunkAt,
    last: Chunk,
) -> Result<Chunk, Memory>
    ensures chunk { IfOk result (λ chunk. chunk ≡ unwrap_or (chunk_at (Some last) others.old number.now) (no_cells number.now)) }
    ensures others { OnOk result ((key : Numbers ℕ) → is_eq (by_number number.now key) ≡ false
        → tree.get by_number others.new key ≡ chunk_at (Some last) others.old key) }
{
    if compare_numbers(&last.at, number).is_eq() {
        return Ok(last);
    }
    others.insert(copy_numbers(&last.at), last)?;
    Ok(take_out(target, others, number))
}

/// Takes out the chunk of a number.
fn chunk_for(target: &Schema, filled: &mut Filled, number: &ChunkAt) -> Result<Chunk, Memory>
    ensures chunk { IfOk result (λ chunk. chunk ≡ unwrap_or (chunk_at filled.old.last filled.old.others number.now) (no_cells number.now)) }
    ensures others { OnOk result ((key : Numbers ℕ) → is_eq (by_number number.now key) ≡ false
        → tree.get by_number filled.new.others key ≡ chunk_at filled.old.last filled.old.others key) }
{
    match filled.last.take() {
        Some(last) => chunk_after(target, &mut filled.others, number, last),
        None => Ok(take_out(target, &mut filled.others, number)),
    }
}

fn add_cell(chunk: &mut Chunk, place: u64, cell: Cell) -> Result<(), Memory>
    ensures { OnOk result (chunk.new ≡ with_cell chunk.old place (Some cell)) }
{
    chunk.positions.push(place)?;
    chunk.cells.push(cell)?;
    Ok(())
}

/// Adds a row to the chunk whose core has it.
pub(crate) fn fill(
    target: &Schema,
    none: &Margins,
    filled: &mut Filled,
    row: Row,
) -> Result<(), Memory>
    requires valid { IsValid target.now }
    requires margins { none.now.items ≡ no_margins target.now.dimensions }
    requires inside { IsTrue (is_inside (bounds_of target.now.dimensions) row.at.items) }
    ensures { OnOk result ((made : Items Placed) → AreIn target.now made filled.old → AreIn target.now (made ++ row ∷ []) filled.new) }
{
    let number = chunk_of(target, &row.at);
    let place = position(target, none, &number, &row.at);
    let mut chunk = chunk_for(target, filled, &number)?;
    add_cell(&mut chunk, place, row.cell)?;
    filled.last = Some(chunk);
    Ok(())
}
