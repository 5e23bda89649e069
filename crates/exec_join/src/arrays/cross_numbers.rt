//! The numbers of a cross join's chunks: those of the left chunks, each with the unpaired part of those of the right ones.
ghost use Rattle.std.specs.Prelude.{◌≡◌, ℕ, ◌+◌, ◌≤◌, ◌<◌, ◌++◌, ◌∷◌, [], if◌then◌else◌, length, true, IsTrue, OnOk, IfOk};
ghost use Rattle.std.specs.List.{AllByRecursion};
ghost use Rattle.cell_values.specs.Schemas.{IsValid};
ghost use Rattle.array_geom.specs.Geometry.{ChunkNumber};
ghost use Rattle.array_geom.specs.Link.{NumbersRise, is_listed};
ghost use Rattle.chunk_cells.specs.Inner.Numbers.{numbers_in};
ghost use Rattle.exec_box.specs.Inner.Reached.{AddsPicks};
ghost use Rattle.logical_plan.specs.BoxOps.{items_but};
ghost use Rattle.exec_join.specs.Inner.Pieces.{AddsOthers, AreCrossed};

use crate::partners::is_among;
use array_geom::Chunk;
use cell_values::{ChunkAt, List, Memory, Schema, copy_numbers};
use exec_box::{in_order, push_core};

fn push_unless(out: &mut ChunkAt, is_left_out: bool, number: u64)
    requires { length out.old.items < 6 }
    ensures value { out.new.items ≡ out.old.items ++ (if is_left_out then [] else number ∷ []) }
    ensures room { length out.new.items ≤ length out.old.items + 1 }
{
    if !is_left_out {
        out.push(number);
    }
}

/// Adds a chunk's numbers at all other places. The first one has the place `place`.
fn push_unpaired(out: &mut ChunkAt, number: &[u64], places: &[u32], place: usize)
    requires room { length out.old.items + length number.now ≤ 6 }
    requires place { place + length number.now ≤ 6 }
    ensures { out.new.items ≡ out.old.items ++ items_but places.now place number.now }
{
    match number {
        [] => {}
        [first, number @ ..] => {
            push_unless(out, is_among(places, place), *first);
            push_unpaired(out, number, places, place + 1);
        }
    }
}

/// A chunk's number at all other places.
fn unpaired(number: &ChunkAt, places: &[u32]) -> ChunkAt
    ensures { result.items ≡ items_but places.now 0 number.now.items }
{
    let mut others = ChunkAt::new();
    push_unpaired(&mut others, number.as_slice(), places, 0);
    others
}

/// The unpaired part of each chunk's number, in any order.
fn each_unpaired(chunks: &List<Chunk>, places: &[u32]) -> Result<List<ChunkAt>, Memory>
    ensures { IfOk result (λ others. AllByRecursion (λ chunk. IsTrue (is_listed (items_but places.now 0 chunk.at.items) (numbers_in others))) chunks.now) }
{
    let mut others = chunks.another();
    let chunks = chunks.as_slice();
    for k in 0..chunks.len() {
        others.push(unpaired(&chunks[k].at, places))?;
    }
    Ok(others)
}

/// The unpaired part of each chunk's number, each of them once.
pub(crate) fn unpaired_numbers(
    chunks: &List<Chunk>,
    places: &[u32],
) -> Result<List<ChunkAt>, Memory>
    ensures { IfOk result (λ others. AllByRecursion (λ chunk. IsTrue (is_listed (items_but places.now 0 chunk.at.items) (numbers_in others))) chunks.now) }
{
    let others = each_unpaired(chunks, places)?;
    in_order(others)
}

fn push_each(out: &mut ChunkAt, numbers: &[u64])
    requires { length out.old.items + length numbers.now ≤ 6 }
    ensures { out.new.items ≡ out.old.items ++ numbers.now }
{
    for number in numbers {
        out.push(*number);
    }
}

/// Adds a left number with another one, if they are those of a core.
fn push_with(
    found: &mut List<ChunkAt>,
    schema: &Schema,
    front: &ChunkAt,
    other: &ChunkAt,
) -> Result<(), Memory>
    requires { IsValid schema.now }
    ensures { OnOk result (AddsPicks schema.now.dimensions (front.now.items ++ other.now.items) [] [] found.old found.new) }
{
    let others = other.as_slice();
    if front.as_slice().len() + others.len() > 6 {
        return Ok(());
    }
    let mut number = copy_numbers(front);
    push_each(&mut number, others);
    push_core(found, schema, &number)
}

/// Adds a left number with each of the others.
fn push_others_of(
    found: &mut List<ChunkAt>,
    schema: &Schema,
    front: &ChunkAt,
    others: &[ChunkAt],
) -> Result<(), Memory>
    requires { IsValid schema.now }
    ensures { OnOk result (AddsOthers schema.now.dimensions front.now.items others.now found.old found.new) }
{
    for k in 0..others.len() {
        push_with(found, schema, front, &others[k])?;
    }
    Ok(())
}

/// The numbers of the left chunks with each of the others, in any order.
fn each_with(
    chunks: &[Chunk],
    others: &List<ChunkAt>,
    schema: &Schema,
) -> Result<List<ChunkAt>, Memory>
    requires { IsValid schema.now }
    ensures { IfOk result (AreCrossed schema.now.dimensions others.now chunks.now) }
{
    let mut found = others.another();
    for k in 0..chunks.len() {
        push_others_of(&mut found, schema, &chunks[k].at, others.as_slice())?;
    }
    Ok(found)
}

/// The numbers of the left chunks with each of the others.
pub(crate) fn crossed_numbers(
    chunks: &[Chunk],
    others: &List<ChunkAt>,
    schema: &Schema,
) -> Result<List<ChunkAt>, Memory>
    requires { IsValid schema.now }
    ensures in_order { IfOk result (λ found. NumbersRise (numbers_in found)) }
    ensures crossed { IfOk result (AreCrossed schema.now.dimensions others.now chunks.now) }
{
    let found = each_with(chunks, others, schema)?;
    in_order(found)
}
