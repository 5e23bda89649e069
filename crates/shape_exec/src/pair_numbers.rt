//! What `merge` and `concat` share: the numbers of the chunks of both sources, and cells that stay.
ghost use Rattle.std.specs.Prelude.{◌≡◌, true, List as Items, IsTrue, IfOk};
ghost use Rattle.std.specs.List.{AllByRecursion};
ghost use Rattle.array_rows.specs.Boxes.{bounds_of, is_inside};
ghost use Rattle.array_rows.specs.Rows.{Coordinate};
ghost use Rattle.array_geom.specs.Geometry.{ChunkNumber, chunk_of};
ghost use Rattle.array_geom.specs.Link.{NumbersRise, is_listed};
ghost use Rattle.array_parts.specs.Cores.{HaveCells, cores_of};
ghost use Rattle.cell_values.specs.declared.schema.Dimension.{Dimension as Along};
ghost use Rattle.cell_values.specs.Schemas.{IsValid};
ghost use Rattle.chunk_cells.specs.Inner.Numbers.{numbers_in};
ghost use Rattle.exec_box.specs.Inner.Reached.{HaveCores};
ghost use Rattle.shape_exec.specs.Inner.Merged.{ShareChunks};

use crate::chunk_numbers::numbers_reached;
use crate::coord_maps::{ByCoords, CoordMap};
use area_cells::numbers_of;
use array_geom::ChunkedArray;
use cell_values::{Bounds, ChunkAt, Coord, Dimension, List, Memory, Schema, copy_coord};
use exec_box::in_order;

/// The numbers of two lists in rising order.
pub(crate) fn numbers_of_both(
    left: List<ChunkAt>,
    right: List<ChunkAt>,
) -> Result<List<ChunkAt>, Memory>
    ensures in_order { IfOk result (λ both. NumbersRise (numbers_in both)) }
    ensures left { IfOk result (λ both. (k : ChunkNumber) → is_listed k (numbers_in left) ≡ true → is_listed k (numbers_in both) ≡ true) }
    ensures right { IfOk result (λ both. (k : ChunkNumber) → is_listed k (numbers_in right) ≡ true → is_listed k (numbers_in both) ≡ true) }
    ensures cores { (dims : Items Along) → HaveCores dims left → HaveCores dims right → IfOk result (HaveCores dims) }
{
    let mut all = left;
    all.append(right)?;
    in_order(all)
}

/// The map of each coordinate to itself, in an array of other bounds.
#[derive(Drop)]
pub(crate) struct Identity<'a> {
    pub source: &'a Schema,
    pub target: &'a Schema,
}

impl CoordMap for Identity<'_> {
    ghost able = { λ by. IsValid by.target.now };

    ghost domain = { λ by. by.source.now.dimensions };

    ghost forth = { λ by. λ c. c };

    ghost back = { λ by. λ c. c };

    ghost range = { λ by. by.target.now.dimensions };

    fn image(&self, at: &Coord) -> Coord {
        copy_coord(at)
    }

    fn preimage(&self, area: &Bounds) -> Bounds {
        Bounds {
            lo: copy_coord(&area.lo),
            hi: copy_coord(&area.hi),
        }
    }
}

/// Whether each chunk of the one dimensions is that of the same number of the others, as far as these reach.
fn share_chunks(source: &[Dimension], target: &[Dimension]) -> bool
    ensures { IsTrue result → ShareChunks source.now target.now }
{
    match source {
        [] => target.is_empty(),
        [s, source @ ..] => match target {
            [] => false,
            [t, target @ ..] => {
                if s.lo != t.lo || s.chunk != t.chunk || t.hi < s.hi {
                    return false;
                }
                share_chunks(source, target)
            }
        },
    }
}

/// The numbers of the chunks into which the cells of an array come that stay where they are.
pub(crate) fn numbers_of_side(
    array: &ChunkedArray,
    schema: &Schema,
) -> Result<List<ChunkAt>, Memory>
    requires cells { HaveCells array.now.schema array.now.margins.items array.now.chunks }
    requires valid { IsValid schema.now }
    requires inside { (c : Coordinate) → is_inside (bounds_of array.now.schema.dimensions) c ≡ true → is_inside (bounds_of schema.now.dimensions) c ≡ true }
    ensures cores { IfOk result (HaveCores schema.now.dimensions) }
    ensures listed { IfOk result (λ found. AllByRecursion (λ row. is_listed (chunk_of schema.now.dimensions row.at.items) (numbers_in found) ≡ true) (cores_of array.now)) }
{
    let source = array.schema.dimensions.as_slice();
    let target = schema.dimensions.as_slice();
    if share_chunks(source, target) {
        return numbers_of(&array.chunks);
    }
    let by = Identity {
        source: &array.schema,
        target: schema,
    };
    numbers_reached(array, &ByCoords { by: &by, schema })
}
