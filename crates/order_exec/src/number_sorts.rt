//! Arrays sorted by one key whose values are numbers: of each cell its key and its place alone are taken, and these are sorted.
ghost use Rattle.std.specs.Prelude.{◌≡◌, ◌+◌, ◌≤◌, ◌++◌, ◌∷◌, [], true, None, length, IsTrue, IfOk, IfSome};
ghost use Rattle.cell_values.specs.Schemas.{IsValid};
ghost use Rattle.array_rows.specs.Boxes.{by_pairs, is_inside};
ghost use Rattle.array_rows.specs.Rows.{Coordinate};
ghost use Rattle.array_geom.specs.Geometry.{overlaps};
ghost use Rattle.array_geom.specs.Inner.Ranges.{IsGrid, is_in_grid};
ghost use Rattle.array_geom.specs.Link.{Is};
ghost use Rattle.array_parts.specs.Cores.{HaveCells, meant_by_cores};
ghost use Rattle.logical_plan.specs.PlanSchema.{sort_schema};
ghost use Rattle.order_exec.specs.Inner.Spans.{HaveSpans, span};
ghost use Rattle.order_exec.specs.Meant.{sort_meant};

use crate::core_hulls::box_of_cores;
use crate::number_keys::{in_number_order, keyed_cells};
use crate::numbered_chunks::numbered_chunks;
use area_cells::{array_of_parts, found_in};
use array_geom::{ChunkedArray, Grid, Lengths, margins_of};
use cell_values::{Bounds, List, Memory, Schema, copy_coord};
use std::thread::Threads;

/// Adds how long a box is in each dimension, if it has at most so many places.
fn push_spans(out: &mut Lengths, lo: &[i64], hi: &[i64], limit: u64) -> bool
    requires room { length out.old.items + length lo.now ≤ 6 }
    requires some { 1 ≤ limit }
    ensures lengths { IsTrue result → out.new.items ≡ out.old.items ++ by_pairs span lo.now hi.now }
    ensures spans { IsTrue result → HaveSpans lo.now hi.now limit }
{
    match lo {
        [] => hi.is_empty(),
        [l, lo @ ..] => match hi {
            [] => false,
            [h, hi @ ..] => {
                if *h < *l || *l < -4611686018427387904 || 4611686018427387904 < *h {
                    return false;
                }
                let wide = (*h).abs_diff(*l);
                if limit <= wide {
                    return false;
                }
                out.push(wide + 1);
                push_spans(out, lo, hi, limit / (wide + 1))
            }
        },
    }
}

/// A box as a grid, if it has few places enough.
pub fn grid_between(area: &Bounds) -> Option<Grid>
    ensures grid { IfSome result IsGrid }
    ensures held { IfSome result (λ grid. (c : Coordinate) → is_inside area.now c ≡ true → is_in_grid grid.low.items grid.lengths.items c ≡ true) }
{
    let mut lengths = Lengths::new();
    if push_spans(
        &mut lengths,
        area.lo.as_slice(),
        area.hi.as_slice(),
        281474976710656,
    ) {
        Some(Grid {
            low: copy_coord(&area.lo),
            lengths,
        })
    } else {
        None
    }
}

/// The array sorted by one key, where the values of the key are numbers and the box of its chunks has few places enough.
#[tactic(auto, using(array_geom::proofs::MarginLaws::overlap_each, array_geom::proofs::MarginLaws::overlap_places))]
pub(crate) fn sorted_by_number(
    rt: &(impl Threads + Sync),
    array: &ChunkedArray,
    key: u32,
    target: &Schema,
) -> Result<Option<ChunkedArray>, Memory>
    requires whole { array.now.broken ≡ None }
    requires cells { HaveCells array.now.schema array.now.margins.items array.now.chunks }
    requires target { target.now ≡ sort_schema array.now.schema }
    requires valid { IsValid target.now }
    ensures array { IfOk result (λ made. IfSome made (λ sorted. Is sorted (sort_meant (key ∷ []) target.now (meant_by_cores array.now)))) }
    ensures margins { IfOk result (λ made. IfSome made (λ sorted. sorted.margins.items ≡ overlaps target.now.dimensions)) }
{
    let chunks = array.chunks.as_slice();
    let Some(area) = box_of_cores(&array.schema, chunks) else {
        return Ok(None);
    };
    let Some(grid) = grid_between(&area) else {
        return Ok(None);
    };
    let found = found_in(&array.schema, &array.margins, chunks, &area, &grid)?;
    let Some(keyed) = keyed_cells(found.allocator(), found.as_slice(), key, &grid)? else {
        return Ok(None);
    };
    if keyed.len() >= 1 << 62 {
        return Err(Memory);
    }
    let sorted = in_number_order(rt, keyed)?;
    let margins = margins_of(target);
    let parts = numbered_chunks(
        target,
        &margins,
        found.as_slice(),
        sorted.as_slice(),
        array.schema.attributes.len() == 1,
        &grid,
    )?;
    let made = array_of_parts(target, &margins, parts)?;
    Ok(Some(made))
}
