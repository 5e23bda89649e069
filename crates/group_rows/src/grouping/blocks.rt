//! The blocks of cells.
ghost use Rattle.std.specs.Prelude.{◌≡◌, ◌+◌, ◌≤◌, ◌++◌, ◌≤ℤ◌, map, length, IsTrue};
ghost use Rattle.std.specs.Int.{w64, saturate_signed};
ghost use Rattle.array_geom.specs.Inner.Ranges.{IsNear, AreNear};
ghost use Rattle.array_rows.specs.Boxes.{is_between, is_inside, bounds_of};
ghost use Rattle.logical_plan.specs.Groups.{block};
ghost use Rattle.group_rows.specs.Inner.Keys.{block_at};

use cell_values::{Coord, Dimension};

/// The block of a number along a dimension, as far as 64 bits go.
fn clamped_block(low: i64, size: u64, number: i64) -> i64
    ensures { result ≡ saturate_signed w64 (block low size number) }
{
    low.saturating_add_unsigned(number.abs_diff(low).checked_div(size).unwrap_or(0))
}

/// The block of a number along a dimension.
#[tactic(auto, using(crate::proofs::KeyLaws::exact_block))]
fn block_of(dimension: &Dimension, size: u64, number: i64) -> i64
    requires near { IsNear dimension.now }
    requires low { dimension.now.lo ≤ℤ number }
    requires high { number ≤ℤ dimension.now.hi }
    ensures { result ≡ block dimension.now.lo size number }
{
    clamped_block(dimension.lo, size, number)
}

fn push_blocks(out: &mut Coord, dims: &[Dimension], sizes: &[u64], at: &[i64])
    requires room { length out.old.items + length dims.now ≤ 6 }
    requires near { AreNear dims.now }
    requires inside { IsTrue (is_between (map (λ d. d.lo) dims.now) (map (λ d. d.hi) dims.now) at.now) }
    ensures { out.new.items ≡ out.old.items ++ block_at dims.now sizes.now at.now }
{
    match dims {
        [] => {}
        [dimension, dims @ ..] => match sizes {
            [] => {}
            [size, sizes @ ..] => match at {
                [] => {}
                [number, at @ ..] => {
                    out.push(block_of(dimension, *size, *number));
                    push_blocks(out, dims, sizes, at);
                }
            },
        },
    }
}

pub(crate) fn block_key(dims: &[Dimension], sizes: &[u64], at: &Coord) -> Coord
    requires few { length dims.now ≤ 6 }
    requires near { AreNear dims.now }
    requires inside { IsTrue (is_inside (bounds_of dims.now) at.now.items) }
    ensures { result.items ≡ block_at dims.now sizes.now at.now.items }
{
    let mut key = Coord::new();
    push_blocks(&mut key, dims, sizes, at.as_slice());
    key
}
