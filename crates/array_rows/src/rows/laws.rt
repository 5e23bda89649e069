//! Laws of rows.
ghost use Rattle.array_rows.specs.Laws.{SameCellsAreSameRows, CellWiseRises, PartsRise, PutRowRises, PutAllRises};
ghost use Rattle.array_rows.specs.Laws.{InOrderRises, CellWiseCells, PartCells, PutRowCells, PutAllCells, InOrderCells};

/// Two arrays with the same cell at each coordinate have the same rows.
pub fn same_cells_are_same_rows()
    ensures { SameCellsAreSameRows }
{}

/// Changes cell by cell, parts, and unions of rows in row-major order are in row-major order.
pub fn rows_rise()
    ensures cell_wise { CellWiseRises }
    ensures part { PartsRise }
    ensures put_row { PutRowRises }
    ensures put_all { PutAllRises }
    ensures in_order { InOrderRises }
{}

/// Which cell changes cell by cell, parts, and unions of rows have at a coordinate.
pub fn cells_at_coordinates()
    ensures cell_wise { CellWiseCells }
    ensures part { PartCells }
    ensures put_row { PutRowCells }
    ensures put_all { PutAllCells }
    ensures in_order { InOrderCells }
{}
