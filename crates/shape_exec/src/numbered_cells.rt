//! Cells that are numbered from 0, each with its coordinate before its values, in chunks of 1000.
ghost use Rattle.std.specs.Prelude.{◌≡◌, ℕ, ◌+◌, ◌*◌, ◌<◌, ◌≤◌, ◌^◌, ◌++◌, ◌∷◌, [], None, List as Items, length, map, take, drop, OnOk, IfOk, IfSome};
ghost use Rattle.std.specs.List.{AllByRecursion};
ghost use Rattle.cell_values.specs.Schemas.{IsValid};
ghost use Rattle.cell_values.specs.declared.datum.Datum.TheVariants.{Int};
ghost use Rattle.cell_values.specs.declared.datum.Row.{Row as Placed};
ghost use Rattle.array_rows.specs.Arrays.{AreRowsOf};
ghost use Rattle.array_geom.specs.Geometry.{overlaps};
ghost use Rattle.array_geom.specs.Inner.Ranges.{IsGrid};
ghost use Rattle.array_geom.specs.Link.{Is, chunk_rows};
ghost use Rattle.array_parts.specs.Cores.{HaveCells, meant_by_cores};
ghost use Rattle.array_parts.specs.Made.{IsPlaced};
ghost use Rattle.array_parts.specs.Parts.{AreParts};
ghost use Rattle.array_parts.specs.Placed.{HavePlaces};
ghost use Rattle.area_cells.specs.Found.{IsFound, found_cell, found_row, found_rows};
ghost use Rattle.logical_plan.specs.Ordered.{numbered};
ghost use Rattle.logical_plan.specs.ShapeMeant.{unpack_meant};
ghost use Rattle.logical_plan.specs.ShapeSchemas.{counting, unpack_schema};
ghost use Rattle.logical_plan.specs.Shapes.{unpack_rows};
ghost use Rattle.logical_plan.specs.Typing.{first_name};
ghost use Rattle.shape_exec.specs.Inner.Unpacked.{IsFirstDoubt, doubt_of, unpacked_found, with_coordinate};

use area_cells::{Found, array_of_parts, found_in};
use array_geom::{Chunk, ChunkedArray, Grid, margins_of};
use array_rows::{Cells, Form};
use cell_values::{Broken, Cell, ChunkAt, Coord, Datum, FaultKind, List, Margins, Memory, Schema};
use chunk_cells::broken_array;
use order_exec::{box_of_cores, grid_between};

/// The numbers of a coordinate, and values behind them.
pub(crate) fn with_numbers(at: &Coord, values: List<Datum>) -> Result<List<Datum>, Memory>
    ensures { IfOk result (λ all. all ≡ map Int at.now.items ++ values) }
{
    let mut all = values.another();
    for number in at.as_slice() {
        all.push(Datum::Int(*number))?;
    }
    all.append(values)?;
    Ok(all)
}

/// A cell with a coordinate before its values.
fn with_coordinate(at: &Coord, cell: Cell) -> Result<Cell, Memory>
    ensures { IfOk result (λ made. made ≡ with_coordinate at.now.items cell) }
{
    match cell {
        Cell::Full(values) => Ok(Cell::Full(with_numbers(at, values)?)),
        Cell::Doubt(kind) => Ok(Cell::Doubt(kind)),
    }
}

/// A copy of a cell that was found.
fn copy_found(found: &Found<'_>, grid: &Grid) -> Result<Cell, Memory>
    requires { IsFound grid.now found.now }
    ensures { IfOk result (λ cell. cell ≡ found_cell found.now) }
{
    let _ = grid;
    match found.form {
        Form::Even(rows) => Ok(Cell::Full(rows.row(found.number)?)),
        Form::Mixed(held) => held[found.number].copy(),
    }
}

/// Adds a cell that was found, with its coordinate before its values.
fn push_unpacked(cells: &mut Cells, found: &Found<'_>, grid: &Grid) -> Result<(), Memory>
    requires grid { IsGrid grid.now }
    requires found { IsFound grid.now found.now }
    ensures { OnOk result (cells.new ≡ cells.old ++ unpacked_found grid.now found.now ∷ []) }
{
    let cell = copy_found(found, grid)?;
    let at = grid.place(found.position);
    let made = with_coordinate(&at, cell)?;
    cells.push(made)
}

/// Why a cell that was found is in doubt, if it is.
fn doubt_of(found: &Found<'_>, grid: &Grid) -> Option<FaultKind>
    requires { IsFound grid.now found.now }
    ensures { result ≡ doubt_of (found_cell found.now) }
{
    let _ = grid;
    match found.form {
        Form::Even(rows) => {
            let _ = rows;
            None
        }
        Form::Mixed(held) => match &held[found.number] {
            Cell::Full(_) => None,
            Cell::Doubt(kind) => Some(*kind),
        },
    }
}

/// The doubt of a cell that was found, or else the first one of the cells behind it.
fn doubt_from(found: &Found<'_>, grid: &Grid, later: Option<Broken>) -> Option<Broken>
    requires grid { IsGrid grid.now }
    requires found { IsFound grid.now found.now }
    ensures { (number : ℕ) (rows : Items Placed) → IsFirstDoubt (number + 1) rows later → IsFirstDoubt number (found_row grid.now found.now ∷ rows) result }
{
    match doubt_of(found, grid) {
        Some(kind) => Some(Broken {
            at: grid.place(found.position),
            kind,
        }),
        None => later,
    }
}

/// The first cell in doubt, if there is one.
fn first_doubt(found: &[Found<'_>], grid: &Grid) -> Option<Broken>
    requires grid { IsGrid grid.now }
    requires found { AllByRecursion (IsFound grid.now) found.now }
    ensures { IsFirstDoubt 0 (found_rows grid.now found.now) result }
{
    let mut broken = None;
    let mut k = found.len();
    'doubting: while k > 0 {
        k -= 1;
        broken = doubt_from(&found[k], grid, broken);
    }
    broken
}

/// So many cells from an index on.
fn cells_from<'a, 'b>(found: &'a [Found<'b>], from: usize, count: usize) -> &'a [Found<'b>]
    requires { from + count ≤ length found.now }
    ensures { result.now ≡ take count (drop from found.now) }
{
    let (_, rest) = found.split_at(from);
    let (some, _) = rest.split_at(count);
    some
}

/// The chunk of a target with this number, whose core these cells fill from its first place on.
fn numbered_chunk(
    target: &Schema,
    margins: &Margins,
    number: u64,
    found: &[Found<'_>],
    grid: &Grid,
) -> Result<Chunk, Memory>
    requires target { (name : Items ℕ) × (target.now.dimensions ≡ counting name ∷ []) }
    requires margins { margins.now.items ≡ 0 ∷ [] }
    requires grid { IsGrid grid.now }
    requires found { AllByRecursion (IsFound grid.now) found.now }
    requires few { length found.now ≤ 1000 }
    ensures at { IfOk result (λ chunk. chunk.at.items ≡ number ∷ []) }
    ensures placed { IfOk result (IsPlaced target.now.dimensions margins.now.items) }
    ensures rows { IfOk result (λ chunk. chunk_rows target.now.dimensions margins.now.items chunk ≡ numbered (number * 1000) (map (unpacked_found grid.now) found.now)) }
{
    let _ = margins;
    let mut at = ChunkAt::new();
    at.push(number);
    let mut positions = List::with_capacity(target.dimensions.allocator(), found.len())?;
    let mut cells = Cells::new(target.dimensions.allocator());
    for place in 0..found.len() {
        positions.push(place as u64)?;
        push_unpacked(&mut cells, &found[place], grid)?;
    }
    Ok(Chunk {
        at,
        positions,
        cells,
    })
}

/// The chunks of a target whose cells are numbered from 0 in this order.
fn numbered_chunks(
    target: &Schema,
    margins: &Margins,
    found: &[Found<'_>],
    grid: &Grid,
) -> Result<List<Chunk>, Memory>
    requires valid { IsValid target.now }
    requires target { (name : Items ℕ) × (target.now.dimensions ≡ counting name ∷ []) }
    requires margins { margins.now.items ≡ 0 ∷ [] }
    requires grid { IsGrid grid.now }
    requires found { AllByRecursion (IsFound grid.now) found.now }
    requires few { length found.now < 2 ^ 62 }
    ensures places { IfOk result (HavePlaces target.now margins.now.items) }
    ensures parts { IfOk result (AreParts target.now.dimensions margins.now.items (numbered 0 (map (unpacked_found grid.now) found.now))) }
{
    let mut chunks = target.dimensions.another();
    let mut from = 0;
    let mut number = 0u64;
    'cutting: while from < found.len() {
        let count = (found.len() - from).min(1000);
        let some = cells_from(found, from, count);
        let chunk = numbered_chunk(target, margins, number, some, grid)?;
        chunks.push(chunk)?;
        from += count;
        number += 1;
    }
    Ok(chunks)
}

/// The array of cells that were found, numbered from 0. The first one in doubt breaks it.
#[tactic(auto, using(array_geom::proofs::MarginLaws::overlap_each, array_geom::proofs::MarginLaws::overlap_places))]
fn numbered_array(found: &[Found<'_>], grid: &Grid, target: &Schema) -> Result<ChunkedArray, Memory>
    requires valid { IsValid target.now }
    requires target { (name : Items ℕ) × (target.now.dimensions ≡ counting name ∷ []) }
    requires grid { IsGrid grid.now }
    requires found { AllByRecursion (IsFound grid.now) found.now }
    requires few { length found.now < 2 ^ 62 }
    requires rows { IfOk (unpack_rows (found_rows grid.now found.now)) (AreRowsOf target.now) }
    ensures array { IfOk result (λ made. Is made (record { schema = target.now; rows = unpack_rows (found_rows grid.now found.now) })) }
    ensures margins { IfOk result (λ made. made.margins.items ≡ overlaps target.now.dimensions) }
{
    let margins = margins_of(target);
    match first_doubt(found, grid) {
        Some(broken) => broken_array(target, &margins, &broken),
        None => {
            let parts = numbered_chunks(target, &margins, found, grid)?;
            array_of_parts(target, &margins, parts)
        }
    }
}

/// The unpacked array, where the box of the array's chunks has few places enough.
pub(crate) fn unpacked_by_places(
    array: &ChunkedArray,
    target: &Schema,
) -> Result<Option<ChunkedArray>, Memory>
    requires whole { array.now.broken ≡ None }
    requires cells { HaveCells array.now.schema array.now.margins.items array.now.chunks }
    requires target { target.now ≡ unpack_schema (first_name target.now.dimensions) array.now.schema }
    requires valid { IsValid target.now }
    ensures array { IfOk result (λ made. IfSome made (λ unpacked. Is unpacked (unpack_meant target.now (meant_by_cores array.now)))) }
    ensures margins { IfOk result (λ made. IfSome made (λ unpacked. unpacked.margins.items ≡ overlaps target.now.dimensions)) }
{
    let chunks = array.chunks.as_slice();
    let Some(area) = box_of_cores(&array.schema, chunks) else {
        return Ok(None);
    };
    let Some(grid) = grid_between(&area) else {
        return Ok(None);
    };
    let found = found_in(&array.schema, &array.margins, chunks, &area, &grid)?;
    let cells = found.as_slice();
    if cells.len() >= 1 << 62 {
        return Err(Memory);
    }
    let made = numbered_array(cells, &grid, target)?;
    Ok(Some(made))
}
