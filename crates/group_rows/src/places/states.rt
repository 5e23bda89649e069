//! The states of aggregates for the cells at places of a grid.
ghost use Rattle.std.specs.Prelude.{◌≡◌, ◌+◌, ◌^◌, ◌<◌, ◌≤◌, ◌++◌, [], List as Items, length, take, drop, slice_index_or, None, IfOk, OnOk};
ghost use Rattle.cell_values.specs.declared.datum.Cell.TheVariants.{Full};
ghost use Rattle.cell_values.specs.declared.datum.Row.{Row};
ghost use Rattle.array_rows.specs.Rows.{IsRising, cell_at, placed, put_row};
ghost use Rattle.array_geom.specs.Geometry.{volume};
ghost use Rattle.array_geom.specs.Inner.Ranges.{IsGrid};
ghost use Rattle.logical_plan.specs.declared.parts.Aggregate.{Aggregate};
ghost use Rattle.logical_plan.specs.Groups.{cells_of as cells_in_rows};
ghost use Rattle.agg_states.specs.Stands.{StandsFor};
ghost use Rattle.group_rows.specs.Inner.Columns.{HaveNumbers};
ghost use Rattle.group_rows.specs.Inner.Places.{ArePlaces, place_of, rows_at};

use agg_states::AggState;
use array_geom::Grid;
use array_rows::Cells;
use cell_values::Memory;
use logical_plan::Aggregate;

/// The state with further numbers.
fn with_numbers(state: AggState, numbers: &[i64]) -> AggState
    requires room { state.cells + length numbers.now < 2 ^ 63 }
    ensures stands { (g : Aggregate) (before rows : Items Row) → StandsFor g before state → HaveNumbers g.attribute numbers.now (cells_in_rows rows)
        → IsRising (before ++ rows) → StandsFor g (before ++ rows) result }
    ensures cells { result.cells ≡ state.cells + length numbers.now }
{
    let mut state = state;
    for place in 0..numbers.len() {
        state.take_number(numbers[place]);
    }
    state
}

/// Takes the cell with a number, which stands at a place.
fn take_at(
    state: &mut AggState,
    attribute: u32,
    grid: &Grid,
    position: u64,
    cells: &Cells,
    number: usize,
) -> Result<(), Memory>
    requires grid { IsGrid grid.now }
    requires inside { position < volume grid.now.lengths.items }
    requires some { number < length cells.now }
    requires room { state.old.cells + 1 < 2 ^ 63 }
    ensures stands { OnOk result ((g : Aggregate) (rows : Items Row) → StandsFor g rows state.old → g.attribute ≡ attribute
        → cell_at rows (place_of grid.now position) ≡ None
        → StandsFor g (put_row (placed (place_of grid.now position) (slice_index_or cells.now number (Full []))) rows) state.new) }
    ensures cells { OnOk result (state.new.cells ≡ state.old.cells + 1) }
{
    let cell = cells.cell(number)?;
    let at = grid.place(position);
    state.take(&at, &cell, attribute)
}

/// The state with further cells, one by one.
fn with_each(
    state: AggState,
    aggregate: &Aggregate,
    grid: &Grid,
    positions: &[u64],
    cells: &Cells,
    from: usize,
) -> Result<AggState, Memory>
    requires grid { IsGrid grid.now }
    requires inside { ArePlaces grid.now positions.now }
    requires each { from + length positions.now ≤ length cells.now }
    requires few { length cells.now < 2 ^ 63 }
    requires room { state.cells + length positions.now < 2 ^ 63 }
    ensures stands { IfOk result (λ more. (before : Items Row) → StandsFor aggregate.now before state
        → IsRising (before ++ rows_at grid.now positions.now cells.now from)
        → StandsFor aggregate.now (before ++ rows_at grid.now positions.now cells.now from) more) }
    ensures cells { IfOk result (λ more. more.cells ≡ state.cells + length positions.now) }
{
    let mut state = state;
    for place in 0..positions.len() {
        take_at(
            &mut state,
            aggregate.attribute,
            grid,
            positions[place],
            cells,
            from + place,
        )?;
    }
    Ok(state)
}

/// As many numbers as there are places, from one on.
fn run_of<'a>(numbers: &'a [i64], from: usize, count: usize) -> &'a [i64]
    requires { from + count ≤ length numbers.now }
    ensures { result.now ≡ take count (drop from numbers.now) }
{
    let (_, behind) = numbers.split_at(from);
    let (run, _) = behind.split_at(count);
    run
}

/// The state with further cells, from the numbers of their column where it is one of numbers.
pub(crate) fn with_column(
    state: AggState,
    aggregate: &Aggregate,
    grid: &Grid,
    positions: &[u64],
    cells: &Cells,
    from: usize,
) -> Result<AggState, Memory>
    requires grid { IsGrid grid.now }
    requires inside { ArePlaces grid.now positions.now }
    requires each { from + length positions.now ≤ length cells.now }
    requires few { length cells.now < 2 ^ 63 }
    requires room { state.cells + length positions.now < 2 ^ 63 }
    ensures stands { IfOk result (λ more. (before : Items Row) → StandsFor aggregate.now before state
        → IsRising (before ++ rows_at grid.now positions.now cells.now from)
        → StandsFor aggregate.now (before ++ rows_at grid.now positions.now cells.now from) more) }
    ensures cells { IfOk result (λ more. more.cells ≡ state.cells + length positions.now) }
{
    match cells.numbers(aggregate.attribute as usize) {
        Some(numbers) => Ok(with_numbers(state, run_of(numbers, from, positions.len()))),
        None => with_each(state, aggregate, grid, positions, cells, from),
    }
}
