//! The result of an operator chunk by chunk.
ghost use Rattle.std.specs.Prelude.{◌≡◌, true, List as Items, Ok as Good, IfOk};
ghost use Rattle.std.specs.List.{AllByRecursion};
ghost use Rattle.cell_values.specs.Schemas.{IsValid};
ghost use Rattle.cell_values.specs.declared.datum.Row.{Row as Placed};
ghost use Rattle.array_rows.specs.Arrays.{AreRowsOf};
ghost use Rattle.array_rows.specs.Boxes.{bounds_of, is_inside, within};
ghost use Rattle.array_geom.specs.Geometry.{HasFrame, overlaps};
ghost use Rattle.array_geom.specs.Link.{Is};
ghost use Rattle.array_parts.specs.Cores.{HaveCells, cores_of};
ghost use Rattle.shape_rows.specs.Pulls.{IsPulled};
ghost use Rattle.shape_exec.specs.Inner.Pulled.{IsPulledPart};

use crate::cell_maps::CellMap;
use crate::chunk_numbers::numbers_reached;
use crate::row_order::keep_inside;
use afl_outside::Gate;
use area_cells::{array_of_parts, chunk_of_rows, rows_in_area};
use array_geom::{Chunk, ChunkedArray, frame, grid_of, margins_of};
use cell_values::{Bounds, ChunkAt, List, Margins, Memory, Row, Schema};
use chunk_workers::{Crew, Work, over_pieces};
use std::thread::Threads;

/// The result's rows in a box.
fn part_in<M: CellMap>(array: &ChunkedArray, map: &M, area: &Bounds) -> Result<List<Row>, Memory>
    requires sound { M.sound map.now }
    requires source { M.source map.now ≡ array.now.schema.dimensions }
    requires cells { HaveCells array.now.schema array.now.margins.items array.now.chunks }
    ensures inside { IfOk result (AllByRecursion (λ row. is_inside area.now row.at.items ≡ true)) }
    ensures rows { (made : Items Placed) → IsPulled (bounds_of (M.target map.now)) (M.back map.now) (cores_of array.now) made → IfOk result (λ part. part ≡ within area.now made) }
{
    let near = map.preimage(area);
    let from = rows_in_area(
        &array.schema,
        &array.margins,
        array.chunks.as_slice(),
        &near,
    )?;
    let made = map.rows_from(from, area)?;
    keep_inside(made, area)
}

/// The result's chunk of this number.
fn mapped_chunk<M: CellMap>(
    array: &ChunkedArray,
    schema: &Schema,
    margins: &Margins,
    map: &M,
    number: &ChunkAt,
) -> Result<Chunk, Memory>
    requires sound { M.sound map.now }
    requires source { M.source map.now ≡ array.now.schema.dimensions }
    requires target { M.target map.now ≡ schema.now.dimensions }
    requires cells { HaveCells array.now.schema array.now.margins.items array.now.chunks }
    requires framed { HasFrame schema.now margins.now.items number.now.items }
    ensures { IfOk result (IsPulledPart schema.now margins.now.items (M.back map.now) (cores_of array.now) number.now) }
{
    let target = frame(schema, margins, number);
    let rows = part_in(array, map, &target)?;
    let made = chunk_of_rows(schema, margins, number, rows)?;
    Ok(made)
}

/// An array, an operator, and the schema and the margins of the result's chunks.
#[derive(Drop)]
struct OfMap<'a, M> {
    array: &'a ChunkedArray,
    map: &'a M,
    schema: &'a Schema,
    margins: &'a Margins,
}

impl<M: CellMap + Sync> Work<ChunkAt, Chunk> for OfMap<'_, M> {
    ghost accepts = { λ of number. M.sound of.map.now × (M.source of.map.now ≡ of.array.now.schema.dimensions) × (M.target of.map.now ≡ of.schema.now.dimensions)
        × HaveCells of.array.now.schema of.array.now.margins.items of.array.now.chunks
        × HasFrame of.schema.now of.margins.now.items number.items };

    ghost gives = { λ of number made. IsPulledPart of.schema.now of.margins.now.items (M.back of.map.now) (cores_of of.array.now) number made };

    fn size(&self, number: &ChunkAt) -> usize {
        grid_of(self.schema, self.margins, number).volume() as usize
    }

    fn work(&self, number: ChunkAt) -> Result<Chunk, Memory> {
        mapped_chunk(self.array, self.schema, self.margins, self.map, &number)
    }
}

/// What an operator makes of an array that is not broken: an array of this schema with its overlaps as
/// margins.
#[tactic(auto, using(array_geom::proofs::MarginLaws::overlap_each, array_geom::proofs::MarginLaws::overlap_places))]
pub(crate) fn mapped_array<R: Threads + Sync, G: Gate, M: CellMap + Sync>(
    crew: &mut Crew<'_, R, G>,
    array: &ChunkedArray,
    schema: &Schema,
    map: &M,
) -> Result<ChunkedArray, Memory>
    requires sound { M.sound map.now }
    requires source { M.source map.now ≡ array.now.schema.dimensions }
    requires target { M.target map.now ≡ schema.now.dimensions }
    requires cells { HaveCells array.now.schema array.now.margins.items array.now.chunks }
    requires valid { IsValid schema.now }
    requires attributes { schema.now.attributes ≡ array.now.schema.attributes }
    ensures array { (made : Items Placed) → IsPulled (bounds_of schema.now.dimensions) (M.back map.now) (cores_of array.now) made
        → IfOk result (λ whole. Is whole (record { schema = schema.now; rows = Good made })) }
    ensures margins { IfOk result (λ whole. whole.margins.items ≡ overlaps schema.now.dimensions) }
{
    let margins = margins_of(schema);
    let numbers = numbers_reached(array, map)?;
    let of = OfMap {
        array,
        map,
        schema,
        margins: &margins,
    };
    let parts = over_pieces(crew, numbers, &of)?;
    array_of_parts(schema, &margins, parts)
}
