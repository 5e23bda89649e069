//! The bounds of arrays.
ghost use Rattle.std.specs.Prelude.{◌≡◌, ◌≤◌, length};
ghost use Rattle.cell_values.specs.Schemas.{IsValid};
ghost use Rattle.array_rows.specs.Boxes.{bounds_of};

use cell_values::{Bounds, Coord, Dimension, Schema};

fn bounds_within(dims: &[Dimension]) -> Bounds
    requires { length dims.now ≤ 6 }
    ensures { result ≡ bounds_of dims.now }
{
    let mut lo = Coord::new();
    let mut hi = Coord::new();
    for d in dims {
        lo.push(d.lo);
        hi.push(d.hi);
    }
    Bounds { lo, hi }
}

/// All places of an array.
#[tactic(auto, using(array_geom::proofs::MarginLaws::few_dimensions))]
pub(crate) fn bounds(schema: &Schema) -> Bounds
    requires { IsValid schema.now }
    ensures { result ≡ bounds_of schema.now.dimensions }
{
    bounds_within(schema.dimensions.as_slice())
}
