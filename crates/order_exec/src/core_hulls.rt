//! The least box with the cores of chunks.
ghost use Rattle.std.specs.Prelude.{◌≡◌, ◌+◌, ◌≤◌, ◌++◌, length, IsTrue, IfSome};
ghost use Rattle.std.specs.Int.{int_max, int_min};
ghost use Rattle.std.specs.List.{AllByRecursion};
ghost use Rattle.cell_values.specs.Schemas.{IsValid};
ghost use Rattle.array_rows.specs.Boxes.{by_pairs};
ghost use Rattle.array_geom.specs.Geometry.{core, has_core};
ghost use Rattle.order_exec.specs.Inner.Hulls.{Covers, hull};

use array_geom::{Chunk, core_box};
use cell_values::{Bounds, Coord, Schema};

fn push_lesser(out: &mut Coord, a: &[i64], b: &[i64])
    requires { length out.old.items + length a.now ≤ 6 }
    ensures { out.new.items ≡ out.old.items ++ by_pairs int_min a.now b.now }
{
    match a {
        [] => {}
        [x, a @ ..] => match b {
            [] => {}
            [y, b @ ..] => {
                out.push((*x).min(*y));
                push_lesser(out, a, b);
            }
        },
    }
}

fn push_greater(out: &mut Coord, a: &[i64], b: &[i64])
    requires { length out.old.items + length a.now ≤ 6 }
    ensures { out.new.items ≡ out.old.items ++ by_pairs int_max a.now b.now }
{
    match a {
        [] => {}
        [x, a @ ..] => match b {
            [] => {}
            [y, b @ ..] => {
                out.push((*x).max(*y));
                push_greater(out, a, b);
            }
        },
    }
}

/// The least box with two boxes.
fn hull(a: &Bounds, b: &Bounds) -> Bounds
    ensures { result ≡ hull a.now b.now }
{
    let mut lo = Coord::new();
    let mut hi = Coord::new();
    push_lesser(&mut lo, a.lo.as_slice(), b.lo.as_slice());
    push_greater(&mut hi, a.hi.as_slice(), b.hi.as_slice());
    Bounds { lo, hi }
}

/// The least box with the cores of chunks, if there are any.
pub fn box_of_cores(schema: &Schema, chunks: &[Chunk]) -> Option<Bounds>
    requires valid { IsValid schema.now }
    requires cores { AllByRecursion (λ chunk. IsTrue (has_core schema.now.dimensions chunk.at.items)) chunks.now }
    ensures { IfSome result (λ area. AllByRecursion (λ chunk. Covers area (core schema.now.dimensions chunk.at.items)) chunks.now) }
{
    if chunks.is_empty() {
        return None;
    }
    let mut area = core_box(schema, &chunks[0].at);
    for chunk in chunks {
        let core = core_box(schema, &chunk.at);
        area = hull(&area, &core);
    }
    Some(area)
}
