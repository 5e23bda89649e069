//! Changes of cells.
ghost use Rattle.std.specs.Prelude.{◌≡◌, ◌<◌, [], length, slice_index_or, Option as Perhaps, IfOk};
ghost use Rattle.cell_values.specs.declared.datum.Cell.{Cell as OneCell};
ghost use Rattle.cell_values.specs.declared.datum.Cell.TheVariants.{Full};
ghost use Rattle.array_geom.specs.Rows.{Coordinate};
ghost use Rattle.array_parts.specs.Inner.Quickly.{IsQuickly};

use array_geom::Rows;
use cell_values::{Cell, Coord, Memory};

/// What is known of a cell's change without its coordinate and without a list of its values.
#[derive(Clone, Copy)]
pub enum Quick {
    /// It stays as it is.
    Stays,
    /// It is left out.
    Goes,
    Unknown,
}

/// A change of cells, by their coordinates and what they hold.
pub trait CellChange {
    ghost changed: { Self → Coordinate → OneCell → Perhaps OneCell };

    /// What becomes of a cell. None leaves it out.
    fn change(&self, at: &Coord, cell: Cell) -> Result<Option<Cell>, Memory>
        ensures { IfOk result (λ made. made ≡ changed self.now at.now.items cell) };

    /// What is known of the change of a cell that stands in columns.
    fn quick(&self, rows: &Rows, k: usize) -> Quick
        requires { k < length rows.now }
        ensures { (at : Coordinate) → IsQuickly result (Full (slice_index_or rows.now k [])) (changed self.now at (Full (slice_index_or rows.now k []))) };
}
