//! Redimensions without aggregates.
ghost use Rattle.std.specs.Prelude.{◌≡◌, [], None, IsTrue, IfOk};
ghost use Rattle.cell_values.specs.Schemas.{IsValid};
ghost use Rattle.array_parts.specs.Cores.{HasCells, HaveCells, cores_of, meant_by_cores};
ghost use Rattle.array_geom.specs.Geometry.{overlaps};
ghost use Rattle.array_geom.specs.Link.{Is};
ghost use Rattle.area_cells.specs.Margins.{no_margins};
ghost use Rattle.logical_plan.specs.Meaning.{redimensioned_from};
ghost use Rattle.logical_plan.specs.Typing.{redimensions};
ghost use Rattle.redimension_exec.specs.Inner.Filling.{HoldsLanded};

use crate::arrays::building::broken_target;
use crate::moving::filled_in_bands;
use crate::telling::told_array;
use area_cells::{are_few, no_margins};
use array_geom::{Chunk, ChunkedArray};
use cell_values::{Broken, ChunkAt, Margins, Memory, Schema};
use std::collections::BTreeMap;

/// The target's chunks with what lands of an array's cores, or the first row that breaks the target, band by band. More cells than
/// can be counted are as good as no memory.
fn filled_from(
    array: ChunkedArray,
    target: &Schema,
    none: &Margins,
) -> Result<Result<BTreeMap<ChunkAt, Chunk>, Broken>, Memory>
    requires cells { HaveCells array.schema array.margins.items array.chunks }
    requires valid { IsValid target.now }
    requires margins { none.now.items ≡ no_margins target.now.dimensions }
    ensures { IfOk result (HoldsLanded array.schema target.now (cores_of array)) }
{
    if !are_few(array.chunks.as_slice()) {
        return Err(Memory);
    }
    filled_in_bands(array, target, none)
}

/// The cells of an array at the coordinates that their values and their own coordinates give the target's dimensions, with the
/// values of the target's attributes. The first cell in row-major order that has a doubt, a fault among its new numbers, a place
/// out of the target's bounds or one that is taken breaks the result. What the array's margins hold doesn't matter.
pub fn redimension_cells(array: ChunkedArray, target: &Schema) -> Result<ChunkedArray, Memory>
    requires whole { array.broken ≡ None }
    requires cells { HasCells array }
    requires valid { IsValid target.now }
    requires typed { IsTrue (redimensions array.schema target.now []) }
    ensures array { IfOk result (λ made. Is made (redimensioned_from target.now [] (meant_by_cores array))) }
    ensures margins { IfOk result (λ made. made.margins.items ≡ overlaps target.now.dimensions) }
{
    let none = no_margins(target);
    match filled_from(array, target, &none)? {
        Ok(chunks) => told_array(target, &none, chunks),
        Err(broken) => broken_target(target, &broken),
    }
}
