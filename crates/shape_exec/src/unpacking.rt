//! `unpack`.
ghost use Rattle.std.specs.Prelude.{◌≡◌, ◌<◌, ◌≤◌, ◌^◌, ◌++◌, ◌∷◌, [], pos, None, length, map, IfOk};
ghost use Rattle.cell_values.specs.Schemas.{IsValid};
ghost use Rattle.cell_values.specs.declared.datum.Cell.TheVariants.{Full};
ghost use Rattle.cell_values.specs.declared.datum.Datum.TheVariants.{Int};
ghost use Rattle.array_rows.specs.Rows.{placed};
ghost use Rattle.array_geom.specs.Geometry.{overlaps};
ghost use Rattle.array_geom.specs.Link.{Is};
ghost use Rattle.array_parts.specs.Cores.{HasCells, HaveCells, cores_of, meant_by_cores};
ghost use Rattle.logical_plan.specs.ShapeMeant.{unpack_meant};
ghost use Rattle.logical_plan.specs.ShapeSchemas.{unpack_schema};
ghost use Rattle.logical_plan.specs.Shapes.{unpack_rows};
ghost use Rattle.logical_plan.specs.Typing.{first_name};
ghost use Rattle.shape_exec.specs.Inner.Unpacked.{Unpacks};

use crate::numbered_cells::{unpacked_by_places, with_numbers};
use array_geom::{ChunkedArray, margins_of};
use cell_values::{Broken, Cell, Coord, Datum, List, Memory, Row, Schema};
use chunk_cells::{assemble, broken_array, into_core_rows};

/// The row of a number.
fn numbered_row(number: u64, at: &Coord, values: List<Datum>) -> Result<Row, Memory>
    requires { number < 2 ^ 62 }
    ensures { IfOk result (λ row. row ≡ placed (pos number ∷ []) (Full (map Int at.now.items ++ values))) }
{
    let all = with_numbers(at, values)?;
    let mut to = Coord::new();
    to.push(number as i64);
    Ok(Row {
        at: to,
        cell: Cell::Full(all),
    })
}

/// Adds the row of the next number, or tells why the array is broken.
fn push_numbered(rows: &mut List<Row>, number: u64, row: Row) -> Result<Option<Broken>, Memory>
    requires { number < 2 ^ 62 }
    ensures { IfOk result (λ broken. Unpacks number row rows.old rows.new broken) }
{
    let Row { at, cell } = row;
    match cell {
        Cell::Full(values) => {
            rows.push(numbered_row(number, &at, values)?)?;
            Ok(None)
        }
        Cell::Doubt(kind) => Ok(Some(Broken { at, kind })),
    }
}

/// The rows numbered from 0 on, each with its coordinate before its values, or the first one in doubt.
fn unpacked_rows(rows: List<Row>) -> Result<Result<List<Row>, Broken>, Memory>
    requires { length rows ≤ 2 ^ 62 }
    ensures { IfOk result (λ made. made ≡ unpack_rows rows) }
{
    let mut made = List::with_capacity(rows.allocator(), rows.len())?;
    let mut number = 0u64;
    for row in rows.into_vec() {
        if let Some(broken) = push_numbered(&mut made, number, row)? {
            return Ok(Err(broken));
        }
        number += 1;
    }
    Ok(Ok(made))
}

/// The rows of an array's cores; no memory holds more than 2^62 of them.
fn rows_to_number(array: ChunkedArray) -> Result<List<Row>, Memory>
    requires { HaveCells array.schema array.margins.items array.chunks }
    ensures rows { IfOk result (λ rows. rows ≡ cores_of array) }
    ensures few { IfOk result (λ rows. length rows ≤ 2 ^ 62) }
{
    let rows = into_core_rows(array)?;
    if rows.len() as u64 > 1 << 62 {
        return Err(Memory);
    }
    Ok(rows)
}

/// The unpacked array of one that is not broken, by a list of its rows.
#[tactic(auto, using(array_geom::proofs::MarginLaws::overlap_each, array_geom::proofs::MarginLaws::overlap_places))]
fn unpacked_by_rows(array: ChunkedArray, target: &Schema) -> Result<ChunkedArray, Memory>
    requires whole { array.broken ≡ None }
    requires cells { HaveCells array.schema array.margins.items array.chunks }
    requires target { target.now ≡ unpack_schema (first_name target.now.dimensions) array.schema }
    requires valid { IsValid target.now }
    ensures array { IfOk result (λ made. Is made (unpack_meant target.now (meant_by_cores array))) }
    ensures margins { IfOk result (λ made. made.margins.items ≡ overlaps target.now.dimensions) }
{
    let rows = rows_to_number(array)?;
    match unpacked_rows(rows)? {
        Ok(rows) => assemble(target, &margins_of(target), rows.as_slice()),
        Err(broken) => broken_array(target, &margins_of(target), &broken),
    }
}

/// The unpacked array of one that is not broken.
fn of_whole(array: ChunkedArray, target: &Schema) -> Result<ChunkedArray, Memory>
    requires whole { array.broken ≡ None }
    requires cells { HaveCells array.schema array.margins.items array.chunks }
    requires target { target.now ≡ unpack_schema (first_name target.now.dimensions) array.schema }
    requires valid { IsValid target.now }
    ensures array { IfOk result (λ made. Is made (unpack_meant target.now (meant_by_cores array))) }
    ensures margins { IfOk result (λ made. made.margins.items ≡ overlaps target.now.dimensions) }
{
    match unpacked_by_places(&array, target)? {
        Some(made) => Ok(made),
        None => unpacked_by_rows(array, target),
    }
}

/// The cells of an array numbered from 0 in row-major order, each with its coordinate before its values. The first cell in doubt
/// breaks the result. What the array's margins hold doesn't matter.
pub fn unpack(array: ChunkedArray, target: &Schema) -> Result<ChunkedArray, Memory>
    requires whole { array.broken ≡ None }
    requires cells { HasCells array }
    requires target { target.now ≡ unpack_schema (first_name target.now.dimensions) array.schema }
    requires valid { IsValid target.now }
    ensures array { IfOk result (λ made. Is made (unpack_meant target.now (meant_by_cores array))) }
    ensures margins { IfOk result (λ made. made.margins.items ≡ overlaps target.now.dimensions) }
{
    of_whole(array, target)
}
