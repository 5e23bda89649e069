//! Chunks of numbers, one a cell, that are numbered from 0.
ghost use Rattle.std.specs.Prelude.{◌≡◌, ◌*◌, ◌<◌, ◌≤◌, ◌^◌, ◌∷◌, [], List as Items, length, map, IfOk};
ghost use Rattle.cell_values.specs.declared.schema.Attribute.{Attribute};
ghost use Rattle.cell_values.specs.Schemas.{IsValid};
ghost use Rattle.array_geom.specs.Link.{chunk_rows};
ghost use Rattle.array_parts.specs.Made.{IsPlaced};
ghost use Rattle.array_parts.specs.Parts.{AreParts};
ghost use Rattle.array_parts.specs.Placed.{HavePlaces};
ghost use Rattle.logical_plan.specs.Ordered.{numbered};
ghost use Rattle.logical_plan.specs.PlanSchema.{sort_dimension};
ghost use Rattle.order_exec.specs.Inner.Counted.{number_cell};

use array_geom::Chunk;
use array_rows::Cells;
use cell_values::{ChunkAt, List, Margins, Memory, Schema};

/// The chunk of a target with this number, whose core these numbers fill from its first place on.
fn number_chunk(
    target: &Schema,
    margins: &Margins,
    number: u64,
    keys: &[i64],
) -> Result<Chunk, Memory>
    requires target { (attributes : Items Attribute) × (target.now.dimensions ≡ sort_dimension attributes ∷ []) }
    requires margins { margins.now.items ≡ 0 ∷ [] }
    requires few { length keys.now ≤ 1000 }
    ensures at { IfOk result (λ chunk. chunk.at.items ≡ number ∷ []) }
    ensures placed { IfOk result (IsPlaced target.now.dimensions margins.now.items) }
    ensures rows { IfOk result (λ chunk. chunk_rows target.now.dimensions margins.now.items chunk ≡ numbered (number * 1000) (map number_cell keys.now)) }
{
    let _ = margins;
    let mut at = ChunkAt::new();
    at.push(number);
    let mut positions = List::with_capacity(target.dimensions.allocator(), keys.len())?;
    let mut cells = Cells::new(target.dimensions.allocator());
    for place in 0..keys.len() {
        positions.push(place as u64)?;
        cells.push_number(keys[place])?;
    }
    Ok(Chunk {
        at,
        positions,
        cells,
    })
}

/// The chunks of a target whose cells are these numbers, numbered from 0.
pub(crate) fn number_chunks(
    target: &Schema,
    margins: &Margins,
    keys: &[i64],
) -> Result<List<Chunk>, Memory>
    requires valid { IsValid target.now }
    requires target { (attributes : Items Attribute) × (target.now.dimensions ≡ sort_dimension attributes ∷ []) }
    requires margins { margins.now.items ≡ 0 ∷ [] }
    requires few { length keys.now < 2 ^ 62 }
    ensures places { IfOk result (HavePlaces target.now margins.now.items) }
    ensures parts { IfOk result (AreParts target.now.dimensions margins.now.items (numbered 0 (map number_cell keys.now))) }
{
    let mut chunks = target.dimensions.another();
    let mut rest = keys;
    let mut number = 0u64;
    'cutting: while !rest.is_empty() {
        let count = rest.len().min(1000);
        let (some, others) = rest.split_at(count);
        let chunk = number_chunk(target, margins, number, some)?;
        chunks.push(chunk)?;
        rest = others;
        number += 1;
    }
    Ok(chunks)
}
