//! The groups of cells that agree in some dimensions.
ghost use Rattle.std.specs.Prelude.{◌≡◌, ◌≤◌, ◌∷◌, [], pos, length, slice_index_or};
ghost use Rattle.logical_plan.specs.BoxOps.{numbers_at};

use cell_values::{Coord, coord_of, number_at};

/// The coordinate of the one group of all cells.
pub fn zero() -> Coord
    ensures { result.items ≡ pos 0 ∷ [] }
{
    coord_of(&[0])
}

/// The numbers of a coordinate in these dimensions.
pub(crate) fn named_key(dims: &[u32], at: &Coord) -> Coord
    requires { length dims.now ≤ 6 }
    ensures { result.items ≡ numbers_at dims.now at.now.items }
{
    let mut key = Coord::new();
    for place in dims {
        key.push(number_at(at, *place as usize));
    }
    key
}
