//! Operators whose result has at each place the cell that its source has at another one.
ghost use Rattle.std.specs.Prelude.{◌≡◌, List as Items, IsTrue, true, IfOk, OnOk};
ghost use Rattle.std.specs.List.{AllByRecursion};
ghost use Rattle.cell_values.specs.declared.schema.Dimension.{Dimension as Along};
ghost use Rattle.array_rows.specs.Boxes.{bounds_of, is_inside};
ghost use Rattle.array_rows.specs.Rows.{Coordinate};
ghost use Rattle.shape_rows.specs.Pulls.{ComesFrom, IsPulledIn};
ghost use Rattle.shape_exec.specs.Inner.Added.{AddsPlaces};

use cell_values::{Bounds, ChunkAt, Coord, List, Memory, Row};

/// An operator by the places from which the cells of its result come.
pub(crate) trait CellMap {
    /// What it asks of its schemas.
    ghost sound: { Self → Type 0 };

    /// The dimensions of its source.
    ghost source: { Self → Items Along };

    /// The dimensions of its result.
    ghost target: { Self → Items Along };

    /// Where the cell at a place of the result comes from.
    ghost back: { Self → Coordinate → Coordinate };

    /// Adds the numbers of the chunks of all places that come from a coordinate.
    fn push_numbers(&self, found: &mut List<ChunkAt>, at: &Coord) -> Result<(), Memory>
        requires sound { sound self.now }
        requires inside { IsTrue (is_inside (bounds_of (source self.now)) at.now.items) }
        ensures { OnOk result (AddsPlaces (target self.now) (back self.now) at.now.items found.old found.new) };

    /// A box of the source from which the cells of a box of the result come.
    fn preimage(&self, area: &Bounds) -> Bounds
        requires { sound self.now }
        ensures { ComesFrom (bounds_of (target self.now)) (bounds_of (source self.now)) (back self.now) area.now result };

    /// The rows of the result in a box, of the source's rows.
    fn rows_from(&self, rows: List<Row>, area: &Bounds) -> Result<List<Row>, Memory>
        requires sound { sound self.now }
        requires inside { AllByRecursion (λ row. is_inside (bounds_of (source self.now)) row.at.items ≡ true) rows }
        ensures { IfOk result (IsPulledIn (bounds_of (target self.now)) area.now (back self.now) rows) };
}
