//! Aggregates of the numbers of a window.
ghost use Rattle.std.specs.Prelude.{◌≡◌, ◌+◌, ◌<◌, ◌≤◌, ◌^◌, ℕ, List as Items, length, slice_index_or};
ghost use Rattle.cell_values.specs.declared.datum.Row.{Row};
ghost use Rattle.array_rows.specs.Rows.{Coordinate};
ghost use Rattle.array_geom.specs.declared.grid.Grid.{Grid as Raster};
ghost use Rattle.array_geom.specs.Geometry.{volume};
ghost use Rattle.array_geom.specs.Inner.Ranges.{IsGrid};
ghost use Rattle.logical_plan.specs.declared.parts.Aggregate.{Aggregate as Wanted};
ghost use Rattle.window_overlap.specs.Inner.Dense.{AreNumbers, HasSeen, place_of, spot};

use agg_states::AggState;
use array_geom::Grid;
use logical_plan::AggFunction;

/// Takes the number at a place, if there is a cell.
fn take_at(state: &mut AggState, present: &[bool], numbers: &[i64], place: usize)
    requires present { place < length present.now }
    requires numbers { place < length numbers.now }
    requires room { state.old.cells + 1 < 2 ^ 63 }
    ensures seen { (g : Wanted) (grid window : Raster) (corner : Coordinate) (rows : Items Row) (k : ℕ)
        → AreNumbers grid rows g.attribute present.now numbers.now → IsGrid window → place_of grid place ≡ spot window corner k
        → k < volume window.lengths.items → length window.low.items ≡ length corner
        → place < volume grid.lengths.items
        → HasSeen g window corner rows k state.old → HasSeen g window corner rows (k + 1) state.new }
    ensures cells { state.new.cells ≤ state.old.cells + 1 }
{
    if present[place] {
        state.take_number(numbers[place]);
    }
}

/// The state of the cells of a window whose low corner has this place in a grid.
pub(crate) fn state_of(
    function: AggFunction,
    present: &[bool],
    numbers: &[i64],
    base: u64,
    offsets: &[u64],
    grid: &Grid,
    window: &Grid,
) -> AggState
    requires window { IsGrid window.now }
    requires present { length present.now ≡ volume grid.now.lengths.items }
    requires numbers { length numbers.now ≡ volume grid.now.lengths.items }
    requires small { volume grid.now.lengths.items ≤ 2 ^ 48 }
    requires long { length offsets.now ≡ volume window.now.lengths.items }
    requires inside { (k : ℕ) → k < length offsets.now → base + slice_index_or offsets.now k 0 < volume grid.now.lengths.items }
    ensures seen { (g : Wanted) (corner : Coordinate) (rows : Items Row) → g.function ≡ function
        → AreNumbers grid.now rows g.attribute present.now numbers.now → length window.now.low.items ≡ length corner
        → ((k : ℕ) → k < length offsets.now → place_of grid.now (base + slice_index_or offsets.now k 0) ≡ spot window.now corner k)
        → HasSeen g window.now corner rows (length offsets.now) result }
{
    let _ = grid;
    let _ = window;
    let mut state = AggState::empty(function);
    for k in 0..offsets.len() {
        take_at(&mut state, present, numbers, (base + offsets[k]) as usize);
    }
    state
}
