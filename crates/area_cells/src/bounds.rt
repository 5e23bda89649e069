//! The places of a target.
ghost use Rattle.std.specs.Prelude.{◌≡◌, ◌≤◌, length};
ghost use Rattle.array_rows.specs.Boxes.{bounds_of};

use cell_values::{Bounds, Coord, Dimension};

/// All places of an array with these dimensions.
pub fn bounds_of(dimensions: &[Dimension]) -> Bounds
    requires { length dimensions.now ≤ 6 }
    ensures { result ≡ bounds_of dimensions.now }
{
    let mut lo = Coord::new();
    let mut hi = Coord::new();
    for dimension in dimensions {
        lo.push(dimension.lo);
        hi.push(dimension.hi);
    }
    Bounds { lo, hi }
}
