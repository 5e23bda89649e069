//! The numbers of the chunks into which cells of other chunks come.
ghost use Rattle.std.specs.Prelude.{◌≡◌, ℕ, ◌+◌, ◌/◌, ◌≤◌, ◌<◌, ◌-ℤ◌, unsigned_abs, ◌++◌, ◌∷◌, [], length, IsTrue, OnOk, IfOk};
ghost use Rattle.cell_values.specs.Schemas.{IsValid};
ghost use Rattle.array_rows.specs.Boxes.{is_inside};
ghost use Rattle.array_geom.specs.Geometry.{ChunkNumber, core, has_core};
ghost use Rattle.array_geom.specs.Inner.Ranges.{IsNear, AreNear};
ghost use Rattle.array_geom.specs.Link.{NumbersRise, is_listed};
ghost use Rattle.chunk_cells.specs.Inner.Numbers.{numbers_in};
ghost use Rattle.exec_box.specs.Inner.Reached.{AddsPicks, AddsReached, chunks_from};

use array_geom::{Boxes, core_box, has_core};
use cell_values::{Bounds, ChunkAt, Coord, Dimension, List, Memory, Schema, copy_numbers};

fn chunks_between(d: &Dimension, low: i64, number: i64) -> u64
    requires { IsNear d.now }
    ensures { result ≡ unsigned_abs (number -ℤ low) / d.now.chunk }
{
    number.abs_diff(low) / d.chunk
}

fn push_chunks_from(out: &mut ChunkAt, dims: &[Dimension], low: &[i64], at: &[i64])
    requires room { length out.old.items + length dims.now ≤ 6 }
    requires near { AreNear dims.now }
    ensures { out.new.items ≡ out.old.items ++ chunks_from dims.now low.now at.now }
{
    match dims {
        [] => {}
        [d, dims @ ..] => match low {
            [] => {}
            [l, low @ ..] => match at {
                [] => {}
                [x, at @ ..] => {
                    out.push(chunks_between(d, *l, *x));
                    push_chunks_from(out, dims, low, at);
                }
            },
        },
    }
}

/// How many chunks a coordinate is away from a low one, in each dimension.
#[tactic(auto, using(array_geom::proofs::NearLemmas::near_slice))]
fn chunks_from(schema: &Schema, low: &Coord, at: &Coord) -> ChunkAt
    requires { IsValid schema.now }
    ensures { result.items ≡ chunks_from schema.now.dimensions low.now.items at.now.items }
{
    let dims = schema.dimensions.as_slice();
    let mut number = ChunkAt::new();
    push_chunks_from(&mut number, dims, low.as_slice(), at.as_slice());
    number
}

/// Adds a number, if its chunk has a core.
pub fn push_core(found: &mut List<ChunkAt>, schema: &Schema, number: &ChunkAt) -> Result<(), Memory>
    ensures { OnOk result (AddsPicks schema.now.dimensions number.now.items [] [] found.old found.new) }
{
    if !has_core(schema, number) {
        return Ok(());
    }
    found.push(copy_numbers(number))
}

fn longer(front: &ChunkAt, number: u64) -> ChunkAt
    requires { length front.now.items < 6 }
    ensures { result.items ≡ front.now.items ++ number ∷ [] }
{
    let mut longer = copy_numbers(front);
    longer.push(number);
    longer
}

/// Adds the numbers that begin so and go on with picks of the low and the high ones, where their chunks have a core.
fn push_picks(
    found: &mut List<ChunkAt>,
    schema: &Schema,
    front: &ChunkAt,
    low: &[u64],
    high: &[u64],
) -> Result<(), Memory>
    requires { length front.now.items + length low.now ≤ 6 }
    ensures { OnOk result (AddsPicks schema.now.dimensions front.now.items low.now high.now found.old found.new) }
{
    match low {
        [] => push_core(found, schema, front),
        [l, low @ ..] => match high {
            [] => Ok(()),
            [h, high @ ..] => {
                push_picks(found, schema, &longer(front, *l), low, high)?;
                if *h == *l {
                    return Ok(());
                }
                push_picks(found, schema, &longer(front, *h), low, high)
            }
        },
    }
}

/// Adds the numbers of the chunks into which what a core has in a box comes, where the box is moved to 0 and cut into chunks as the
/// array was. It is as long as a chunk at most, so that each cell comes into the chunk of a corner.
pub(crate) fn push_corners(
    found: &mut List<ChunkAt>,
    source: &Schema,
    target: &Schema,
    area: &Bounds,
    number: &ChunkAt,
) -> Result<(), Memory>
    requires valid { IsValid source.now }
    requires core { IsTrue (has_core source.now.dimensions number.now.items) }
    ensures { OnOk result (AddsReached target.now.dimensions (is_inside area.now) (chunks_from source.now.dimensions area.now.lo.items)
        (core source.now.dimensions number.now.items) found.old found.new) }
{
    let shared = core_box(source, number).meet(area);
    if !shared.holds(&shared.lo) {
        return Ok(());
    }
    let low = chunks_from(source, &area.lo, &shared.lo);
    let high = chunks_from(source, &area.lo, &shared.hi);
    push_picks(
        found,
        target,
        &ChunkAt::new(),
        low.as_slice(),
        high.as_slice(),
    )
}

/// The same numbers in rising order, each of them once.
pub fn in_order(found: List<ChunkAt>) -> Result<List<ChunkAt>, Memory>
    ensures in_order { IfOk result (λ listed. NumbersRise (numbers_in listed)) }
    ensures listed { IfOk result (λ listed. (k : ChunkNumber) → is_listed k (numbers_in listed) ≡ is_listed k (numbers_in found)) }
{
    let mut numbers = found.into_vec();
    numbers.sort()?;
    numbers.dedup();
    Ok(List::from_vec(numbers))
}
