//! Leaves, read for a box.
ghost use Rattle.std.specs.Prelude.{◌≡◌, ◌++◌, map, IfOk, OnOk, OnErr};
ghost use Rattle.cell_values.specs.Schemas.{IsValid};
ghost use Rattle.logical_plan.specs.Meaning.{Database};
ghost use Rattle.plan_needs.specs.Wanted.{wanted_of};
ghost use Rattle.chunk_source.specs.Source.{Reads, listed, Keeps, AsksFront, asks};
ghost use Rattle.chunk_source.specs.Faults.{Answers};
ghost use Rattle.chunk_source.specs.Known.{IsPartIn};
ghost use Rattle.chunk_source.specs.Read.{IsRead};
ghost use Rattle.chunk_source.specs.Inner.Alone.{stand_alone};

use crate::leaves::parts::arrays::{part_array, stand_alone};
use crate::reading::read_chunks;
use crate::{ChunkSource, ExecFault};
use array_geom::{ChunkAt, ChunkedArray, chunks_meeting};
use cell_values::{Bounds, List, Memory, Schema};
use logical_plan::Leaf;
use std::alloc::Global;

/// The array of a leaf, which has this number in its plan, as far as its chunks tell whose cores meet a box. Each of these is asked
/// for once, in the order in which they are listed, and no other.
pub fn read_part<S: ChunkSource>(
    alloc: Global,
    source: &mut S,
    number: u32,
    leaf: &Leaf,
    area: &Bounds,
) -> Result<ChunkedArray, ExecFault>
    requires reads { Reads (S.state source.old) leaf.now }
    requires valid { IsValid leaf.now.schema }
    ensures read { IfOk result (IsRead leaf.now.schema) }
    ensures told { let old = S.state source.old in
        IfOk result (λ array. (db : Database) → old.tells db → IsPartIn db leaf.now area.now (listed old leaf.now) array) }
    ensures asked { let old = S.state source.old in OnOk result ((S.state source.new).asked
        ≡ old.asked ++ map (asks number) (wanted_of leaf.now.schema.dimensions area.now (listed old leaf.now))) }
    ensures front { let old = S.state source.old in OnErr result
        (AsksFront (map (asks number) (wanted_of leaf.now.schema.dimensions area.now (listed old leaf.now))) old (S.state source.new)) }
    ensures kept { Keeps (S.state source.old) (S.state source.new) }
    ensures cause { Answers (S.state source.old) (S.state source.new) result }
    ensures start { S.start source.new ≡ S.start source.old }
{
    let stored = source.listed(leaf)?;
    let (wanted, alone) = wanted_chunks(alloc, &leaf.schema, area, stored)?;
    let chunks = read_chunks(source, number, leaf, wanted.as_slice())?;
    Ok(part_array(&leaf.schema, chunks, alone)?)
}

// Those of the stored chunks whose cores meet a box, and whether these stand alone.
fn wanted_chunks(
    alloc: Global,
    schema: &Schema,
    area: &Bounds,
    stored: List<ChunkAt>,
) -> Result<(List<ChunkAt>, bool), Memory>
    requires { IsValid schema.now }
    ensures wanted { IfOk result (λ found. found.0 ≡ wanted_of schema.now.dimensions area.now stored) }
    ensures alone { IfOk result (λ found. found.1 ≡ stand_alone schema.now.dimensions stored found.0) }
{
    let wanted = chunks_meeting(alloc, schema, area, stored.as_slice())?;
    let alone = stand_alone(schema, stored.as_slice(), wanted.as_slice());
    Ok((wanted, alone))
}
