//! Chunks whose cells are ranked from their columns: no row is made.
ghost use Rattle.std.specs.Prelude.{◌≡◌, ◌++◌, [], List as Items, length, replicate, IsTrue, IfOk, IfSome};
ghost use Rattle.std.specs.List.{AllByRecursion, AllZip};
ghost use Rattle.cell_values.specs.declared.datum.Row.{Row as Placed};
ghost use Rattle.array_rows.specs.Boxes.{by_pairs};
ghost use Rattle.array_geom.specs.Geometry.{volume};
ghost use Rattle.array_geom.specs.Link.{chunk_rows};
ghost use Rattle.array_parts.specs.Placed.{HasPlaces};
ghost use Rattle.order_exec.specs.Inner.GroupNumbers.{AreRising};
ghost use Rattle.order_exec.specs.Inner.GroupPlaces.{HaveGroups, IsGroupGrid};
ghost use Rattle.order_exec.specs.Inner.RankedChunks.{HoldNumbers, IsRanked, frame_grid, ranked_number, rows_of_chunks};

use crate::group_numbers::{ranks_of, take_numbers};
use crate::group_places::{GroupGrid, places_of_groups};
use array_geom::{Chunk, grid_of};
use array_rows::{Cells, Column, Rows};
use cell_values::{List, Margins, Memory, Schema, copy_numbers};
use std::alloc::Global;

/// The array whose cells are ranked, the attribute by which they are, and their groups.
#[derive(Drop)]
pub(crate) struct Ranking<'a> {
    pub schema: &'a Schema,
    pub margins: &'a Margins,
    pub attribute: u32,
    pub to: &'a GroupGrid<'a>,
}

/// So many groups without numbers.
fn no_numbers(alloc: Global, count: usize) -> Result<Vec<List<i64>>, Memory>
    ensures { IfOk result (λ groups. groups.items ≡ replicate count []) }
{
    let mut groups = List::with_capacity(alloc, count)?;
    for _ in 0..count {
        groups.push(List::new(alloc))?;
    }
    Ok(groups.into_vec())
}

/// The places of the groups of a chunk's cells, if all groups have places.
fn places_in_chunk(ranking: &Ranking<'_>, chunk: &Chunk) -> Result<Option<List<u64>>, Memory>
    requires to { IsGroupGrid ranking.now.to.now.dims.now ranking.now.to.now.bounds.now ranking.now.to.now.grid.now }
    requires places { HasPlaces ranking.now.schema.now ranking.now.margins.now.items chunk.now }
    ensures { IfOk result (λ found. IfSome found (HaveGroups ranking.now.to.now.dims.now ranking.now.to.now.grid.now
        (frame_grid ranking.now.schema.now.dimensions ranking.now.margins.now.items chunk.now) chunk.now.positions)) }
{
    let grid = grid_of(ranking.schema, ranking.margins, &chunk.at);
    places_of_groups(
        chunk.positions.allocator(),
        ranking.to,
        &grid,
        chunk.positions.as_slice(),
    )
}

/// Takes the numbers of a chunk into their groups, and says whether all its values are numbers whose groups have places.
fn take_chunk(
    groups: &mut Vec<List<i64>>,
    ranking: &Ranking<'_>,
    chunk: &Chunk,
) -> Result<bool, Memory>
    requires to { IsGroupGrid ranking.now.to.now.dims.now ranking.now.to.now.bounds.now ranking.now.to.now.grid.now }
    requires places { HasPlaces ranking.now.schema.now ranking.now.margins.now.items chunk.now }
    requires long { length groups.old.items ≡ volume ranking.now.to.now.grid.now.lengths.items }
    ensures { IfOk result (λ taken. IsTrue taken → (earlier : Items Placed)
        → HoldNumbers ranking.now.attribute ranking.now.to.now.dims.now ranking.now.to.now.grid.now earlier groups.old.items
        → HoldNumbers ranking.now.attribute ranking.now.to.now.dims.now ranking.now.to.now.grid.now
        (earlier ++ chunk_rows ranking.now.schema.now.dimensions ranking.now.margins.now.items chunk.now) groups.new.items) }
{
    let Some(numbers) = chunk.cells.numbers(ranking.attribute as usize) else {
        return Ok(false);
    };
    let Some(places) = places_in_chunk(ranking, chunk)? else {
        return Ok(false);
    };
    take_numbers(groups, places.as_slice(), numbers)?;
    Ok(true)
}

/// The numbers of each group of the cells of chunks, if all values are numbers whose groups have places.
pub(crate) fn numbers_of_groups(
    alloc: Global,
    ranking: &Ranking<'_>,
    chunks: &[Chunk],
) -> Result<Option<List<List<i64>>>, Memory>
    requires to { IsGroupGrid ranking.now.to.now.dims.now ranking.now.to.now.bounds.now ranking.now.to.now.grid.now }
    requires places { AllByRecursion (HasPlaces ranking.now.schema.now ranking.now.margins.now.items) chunks.now }
    ensures { IfOk result (λ found. IfSome found (HoldNumbers ranking.now.attribute ranking.now.to.now.dims.now ranking.now.to.now.grid.now
        (rows_of_chunks ranking.now.schema.now.dimensions ranking.now.margins.now.items chunks.now))) }
{
    let mut groups = no_numbers(alloc, ranking.to.grid.volume() as usize)?;
    for k in 0..chunks.len() {
        if !take_chunk(&mut groups, ranking, &chunks[k])? {
            return Ok(None);
        }
    }
    Ok(Some(List::from_vec(groups)))
}

/// Cells with a number and its rank each.
fn ranked_cells(alloc: Global, numbers: &[i64], ranks: List<i64>) -> Result<Cells, Memory>
    requires { length ranks ≡ length numbers.now }
    ensures { IfOk result (λ cells. cells ≡ by_pairs ranked_number numbers.now ranks) }
{
    let mut columns = List::with_capacity(alloc, 2)?;
    columns.push(Column::from_numbers(List::from_slice(alloc, numbers)?))?;
    columns.push(Column::from_numbers(ranks))?;
    Ok(Cells::from_rows(alloc, Rows::from_columns(columns.into_vec(), numbers.len())))
}

/// The chunk with the numbers and the ranks of a chunk's cells, if all its values are numbers whose groups have places.
fn ranked_chunk(
    ranking: &Ranking<'_>,
    groups: &[List<i64>],
    chunk: &Chunk,
) -> Result<Option<Chunk>, Memory>
    requires to { IsGroupGrid ranking.now.to.now.dims.now ranking.now.to.now.bounds.now ranking.now.to.now.grid.now }
    requires places { HasPlaces ranking.now.schema.now ranking.now.margins.now.items chunk.now }
    requires long { length groups.now ≡ volume ranking.now.to.now.grid.now.lengths.items }
    requires order { AreRising groups.now }
    ensures { IfOk result (λ found. IfSome found (IsRanked ranking.now.attribute ranking.now.to.now.dims.now ranking.now.to.now.grid.now
        ranking.now.schema.now.dimensions ranking.now.margins.now.items groups.now chunk.now)) }
{
    let Some(numbers) = chunk.cells.numbers(ranking.attribute as usize) else {
        return Ok(None);
    };
    let Some(places) = places_in_chunk(ranking, chunk)? else {
        return Ok(None);
    };
    let alloc = chunk.positions.allocator();
    let ranks = ranks_of(alloc, groups, places.as_slice(), numbers)?;
    let cells = ranked_cells(alloc, numbers, ranks)?;
    Ok(Some(Chunk {
        at: copy_numbers(&chunk.at),
        positions: List::from_slice(alloc, chunk.positions.as_slice())?,
        cells,
    }))
}

/// The same of each chunk.
pub(crate) fn ranked_chunks(
    alloc: Global,
    ranking: &Ranking<'_>,
    groups: &[List<i64>],
    chunks: &[Chunk],
) -> Result<Option<List<Chunk>>, Memory>
    requires to { IsGroupGrid ranking.now.to.now.dims.now ranking.now.to.now.bounds.now ranking.now.to.now.grid.now }
    requires places { AllByRecursion (HasPlaces ranking.now.schema.now ranking.now.margins.now.items) chunks.now }
    requires long { length groups.now ≡ volume ranking.now.to.now.grid.now.lengths.items }
    requires order { AreRising groups.now }
    ensures { IfOk result (λ found. IfSome found (AllZip (IsRanked ranking.now.attribute ranking.now.to.now.dims.now ranking.now.to.now.grid.now
        ranking.now.schema.now.dimensions ranking.now.margins.now.items groups.now) chunks.now)) }
{
    let mut made = List::with_capacity(alloc, chunks.len())?;
    for k in 0..chunks.len() {
        match ranked_chunk(ranking, groups, &chunks[k])? {
            Some(ranked) => made.push(ranked)?,
            None => return Ok(None),
        }
    }
    Ok(Some(made))
}
