//! Windows of an array, chunk by chunk, each from the rows that its windows reach.
ghost use Rattle.std.specs.Prelude.{◌≡◌, ◌<◌, ◌^◌, None, IsTrue, IfOk, IfSome};
ghost use Rattle.std.specs.List.{AllByRecursion};
ghost use Rattle.cell_values.specs.Schemas.{IsValid};
ghost use Rattle.array_rows.specs.Boxes.{within};
ghost use Rattle.array_geom.specs.Geometry.{HasFrame, frame as frame_of, frame_lengths, frame_low, overlaps};
ghost use Rattle.array_geom.specs.Link.{Is, IsPart, numbers};
ghost use Rattle.array_parts.specs.Cores.{HasCells, HaveCells, cores_of, meant_by_cores};
ghost use Rattle.array_parts.specs.Placed.{HasPlaces};
ghost use Rattle.chunk_cells.specs.Frames.{HasFrames};
ghost use Rattle.area_cells.specs.Inner.Filled.{IsFilled};
ghost use Rattle.area_cells.specs.Pieces.{IsPartAt};
ghost use Rattle.logical_plan.specs.Groups.{window_rows};
ghost use Rattle.logical_plan.specs.PlanSchema.{window_schema};
ghost use Rattle.logical_plan.specs.Typing.{are_aggregates_of, are_windows_of};
ghost use Rattle.window_overlap.specs.Meant.{window_meant};

use crate::chunks::{reach_of, windows_inside};
use crate::dense::{
    all_full, chunk_of_windows, columns_of, fits, grid_between, grid_from, offsets, window_grid,
};
use afl_outside::Gate;
use area_cells::{are_few, array_of_parts, chunk_of_rows, found_in, numbers_of, rows_in_area};
use array_geom::{Chunk, ChunkedArray, frame, grid_of, margins_of};
use cell_values::{Bounds, ChunkAt, List, Margins, Memory, Row, Schema};
use chunk_workers::{Crew, Work, over_pieces};
use logical_plan::{Aggregate, Reach};
use std::thread::Threads;

/// The windows in a box, from the rows that they reach. More rows than can be counted are as good as no memory.
fn windows_in(
    array: &ChunkedArray,
    reach: &[Reach],
    aggs: &[Aggregate],
    target: &Schema,
    margins: &Margins,
    number: &ChunkAt,
    area: &Bounds,
) -> Result<List<Row>, Memory>
    requires cells { HaveCells array.now.schema array.now.margins.items array.now.chunks }
    requires reach { IsTrue (are_windows_of array.now.schema reach.now) }
    requires typed { IsTrue (are_aggregates_of array.now.schema.attributes aggs.now) }
    requires same { target.now.dimensions ≡ array.now.schema.dimensions }
    requires framed { HasFrame target.now margins.now.items number.now.items }
    requires area { area.now ≡ frame_of target.now.dimensions margins.now.items number.now.items }
    ensures { IfOk result (λ made. made ≡ within area.now (window_rows reach.now aggs.now (cores_of array.now))) }
{
    let reached = reach_of(area, reach);
    let rows = rows_in_area(
        &array.schema,
        &array.margins,
        array.chunks.as_slice(),
        &reached,
    )?;
    if rows.len() >= 1 << 63 {
        return Err(Memory);
    }
    windows_inside(&rows, area, reach, aggs)
}

/// The chunk of the windows in a frame, where all cells that they reach are numbers that stand near enough.
fn windows_by_places(
    array: &ChunkedArray,
    reach: &[Reach],
    aggs: &[Aggregate],
    target: &Schema,
    margins: &Margins,
    number: &ChunkAt,
    area: &Bounds,
) -> Result<Option<Chunk>, Memory>
    requires cells { HaveCells array.now.schema array.now.margins.items array.now.chunks }
    requires reach { IsTrue (are_windows_of array.now.schema reach.now) }
    requires typed { IsTrue (are_aggregates_of array.now.schema.attributes aggs.now) }
    requires same { target.now.dimensions ≡ array.now.schema.dimensions }
    requires framed { HasFrame target.now margins.now.items number.now.items }
    requires area { area.now ≡ frame_of target.now.dimensions margins.now.items number.now.items }
    ensures number { IfOk result (λ made. IfSome made (λ chunk. chunk.at ≡ number.now)) }
    ensures filled { IfOk result (λ made. IfSome made (IsFilled (frame_low target.now.dimensions margins.now.items number.now.items)
        (frame_lengths target.now.dimensions margins.now.items) (within area.now (window_rows reach.now aggs.now (cores_of array.now))))) }
{
    let reached = reach_of(area, reach);
    let Some(shape) = window_grid(reach) else {
        return Ok(None);
    };
    let Some(grid) = grid_between(&reached) else {
        return Ok(None);
    };
    if !fits(shape.lengths.as_slice(), grid.lengths.as_slice()) {
        return Ok(None);
    }
    let found = found_in(
        &array.schema,
        &array.margins,
        array.chunks.as_slice(),
        &reached,
        &grid,
    )?;
    if grid.volume() / 16 > found.len() as u64 || !all_full(found.as_slice()) {
        return Ok(None);
    }
    let Some(columns) = columns_of(found.allocator(), found.as_slice(), aggs, &grid)? else {
        return Ok(None);
    };
    let origin = grid_from(&shape.low, &grid);
    let offsets = offsets(found.allocator(), &shape, &origin)?;
    let places = grid_of(target, margins, number);
    let made = chunk_of_windows(
        number,
        &places,
        &found,
        area,
        reach,
        aggs,
        columns.as_slice(),
        offsets.as_slice(),
        &grid,
        &shape,
        &origin,
    )?;
    Ok(Some(made))
}

/// The windows in a chunk's frame.
fn window_part(
    array: &ChunkedArray,
    reach: &[Reach],
    aggs: &[Aggregate],
    target: &Schema,
    margins: &Margins,
    number: &ChunkAt,
) -> Result<Chunk, Memory>
    requires cells { HaveCells array.now.schema array.now.margins.items array.now.chunks }
    requires reach { IsTrue (are_windows_of array.now.schema reach.now) }
    requires typed { IsTrue (are_aggregates_of array.now.schema.attributes aggs.now) }
    requires same { target.now.dimensions ≡ array.now.schema.dimensions }
    requires framed { HasFrame target.now margins.now.items number.now.items }
    ensures number { IfOk result (λ made. made.at ≡ number.now) }
    ensures places { IfOk result (HasPlaces target.now margins.now.items) }
    ensures part { IfOk result (IsPart target.now.dimensions margins.now.items (window_rows reach.now aggs.now (cores_of array.now))) }
{
    let area = frame(target, margins, number);
    if let Some(quick) = windows_by_places(array, reach, aggs, target, margins, number, &area)? {
        return Ok(quick);
    }
    let windows = windows_in(array, reach, aggs, target, margins, number, &area)?;
    let made = chunk_of_rows(target, margins, number, windows)?;
    Ok(made)
}

/// An array and its windows, and the schema and the margins of the array whose chunks are to hold them.
#[derive(Drop)]
struct OfArray<'a> {
    array: &'a ChunkedArray,
    reach: &'a [Reach],
    aggs: &'a [Aggregate],
    target: &'a Schema,
    margins: &'a Margins,
}

impl Work<ChunkAt, Chunk> for OfArray<'_> {
    ghost accepts = { λ of number. HaveCells of.array.now.schema of.array.now.margins.items of.array.now.chunks
        × IsTrue (are_windows_of of.array.now.schema of.reach.now)
        × IsTrue (are_aggregates_of of.array.now.schema.attributes of.aggs.now)
        × (of.target.now.dimensions ≡ of.array.now.schema.dimensions)
        × HasFrame of.target.now of.margins.now.items number.items };

    ghost gives = { λ of number made. IsPartAt of.target.now of.margins.now.items (window_rows of.reach.now of.aggs.now (cores_of of.array.now)) number made };

    fn size(&self, number: &ChunkAt) -> usize {
        grid_of(self.target, self.margins, number).volume() as usize
    }

    fn work(&self, number: ChunkAt) -> Result<Chunk, Memory> {
        window_part(
            self.array,
            self.reach,
            self.aggs,
            self.target,
            self.margins,
            &number,
        )
    }
}

fn window_parts<R: Threads + Sync, G: Gate>(
    crew: &mut Crew<'_, R, G>,
    array: &ChunkedArray,
    reach: &[Reach],
    aggs: &[Aggregate],
    target: &Schema,
    margins: &Margins,
) -> Result<List<Chunk>, Memory>
    requires cells { HaveCells array.now.schema array.now.margins.items array.now.chunks }
    requires reach { IsTrue (are_windows_of array.now.schema reach.now) }
    requires typed { IsTrue (are_aggregates_of array.now.schema.attributes aggs.now) }
    requires same { target.now.dimensions ≡ array.now.schema.dimensions }
    requires frames { HasFrames target.now margins.now.items }
    ensures numbers { IfOk result (λ parts. numbers parts ≡ numbers array.now.chunks) }
    ensures places { IfOk result (AllByRecursion (HasPlaces target.now margins.now.items)) }
    ensures parts { IfOk result (AllByRecursion (IsPart target.now.dimensions margins.now.items (window_rows reach.now aggs.now (cores_of array.now)))) }
{
    let pieces = numbers_of(&array.chunks)?;
    let of = OfArray {
        array,
        reach,
        aggs,
        target,
        margins,
    };
    over_pieces(crew, pieces, &of)
}

/// The aggregates of the cells in the window around each cell: an array of the target, chunk by chunk. A cell in doubt stays one.
/// What the array's margins hold doesn't matter. More cells than can be counted are as good as no memory.
#[tactic(auto, using(array_geom::proofs::MarginLaws::overlap_each, array_geom::proofs::MarginLaws::overlap_places))]
pub fn window<R: Threads + Sync, G: Gate>(
    crew: &mut Crew<'_, R, G>,
    array: ChunkedArray,
    reach: &[Reach],
    aggs: &[Aggregate],
    target: &Schema,
) -> Result<ChunkedArray, Memory>
    requires whole { array.broken ≡ None }
    requires cells { HasCells array }
    requires target { target.now ≡ window_schema aggs.now array.schema }
    requires valid { IsValid target.now }
    requires reach { IsTrue (are_windows_of array.schema reach.now) }
    requires typed { IsTrue (are_aggregates_of array.schema.attributes aggs.now) }
    ensures array { IfOk result (λ made. Is made (window_meant reach.now aggs.now (meant_by_cores array))) }
    ensures margins { IfOk result (λ made. made.margins.items ≡ overlaps target.now.dimensions) }
{
    if !are_few(array.chunks.as_slice()) {
        return Err(Memory);
    }
    let margins = margins_of(target);
    let parts = window_parts(crew, &array, reach, aggs, target, &margins)?;
    array_of_parts(target, &margins, parts)
}
