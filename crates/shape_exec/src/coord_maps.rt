//! Maps of coordinates that can be undone, and the rows at the coordinates to which they lead.
ghost use Rattle.std.specs.Prelude.{◌≡◌, ◌++◌, List as Items, map, true, IsTrue, IfOk};
ghost use Rattle.std.specs.List.{AllByRecursion};
ghost use Rattle.cell_values.specs.Schemas.{IsValid};
ghost use Rattle.cell_values.specs.declared.schema.Dimension.{Dimension as Along};
ghost use Rattle.array_rows.specs.Boxes.{bounds_of, is_inside, moved};
ghost use Rattle.array_rows.specs.Rows.{Coordinate};
ghost use Rattle.shape_rows.specs.Pulls.{ComesFrom};
ghost use Rattle.shape_exec.specs.Inner.Added.{IsMove};

use crate::cell_maps::CellMap;
use crate::chunk_numbers::push_number;
use crate::row_order::in_order;
use cell_values::{Bounds, ChunkAt, Coord, List, Memory, Row, Schema};

/// A map of the coordinates within bounds that can be undone.
pub(crate) trait CoordMap {
    /// What it asks of its schemas.
    ghost able: { Self → Type 0 };

    /// The dimensions of the coordinates that it maps.
    ghost domain: { Self → Items Along };

    /// The coordinate to which one leads.
    ghost forth: { Self → Coordinate → Coordinate };

    /// The coordinate that leads to one.
    ghost back: { Self → Coordinate → Coordinate };

    /// The dimensions of the coordinates to which it leads.
    ghost range: { Self → Items Along };

    fn image(&self, at: &Coord) -> Coord
        requires able { able self.now }
        requires inside { IsTrue (is_inside (bounds_of (domain self.now)) at.now.items) }
        ensures { result.items ≡ forth self.now at.now.items };

    /// A box with all coordinates that lead into a box.
    fn preimage(&self, area: &Bounds) -> Bounds
        requires { able self.now }
        ensures { ComesFrom (bounds_of (range self.now)) (bounds_of (domain self.now)) (back self.now) area.now result };
}

fn map_row<M: CoordMap>(row: Row, by: &M) -> Row
    requires able { M.able by.now }
    requires inside { IsTrue (is_inside (bounds_of (M.domain by.now)) row.at.items) }
    ensures { result ≡ moved (M.forth by.now) row }
{
    let Row { at, cell } = row;
    Row {
        at: by.image(&at),
        cell,
    }
}

/// Each row at the coordinate to which its own leads.
pub(crate) fn map_rows<M: CoordMap>(rows: List<Row>, by: &M) -> Result<List<Row>, Memory>
    requires able { M.able by.now }
    requires inside { AllByRecursion (λ row. is_inside (bounds_of (M.domain by.now)) row.at.items ≡ true) rows }
    ensures { IfOk result (λ made. made ≡ map (moved (M.forth by.now)) rows) }
{
    let mut made = List::with_capacity(rows.allocator(), rows.len())?;
    for row in rows.into_vec() {
        made.push(map_row(row, by))?;
    }
    Ok(made)
}

/// A map of coordinates, and the schema of the array at these.
#[derive(Drop)]
pub(crate) struct ByCoords<'a, M> {
    pub by: &'a M,
    pub schema: &'a Schema,
}

impl<M: CoordMap> CellMap for ByCoords<'_, M> {
    ghost sound = { λ by_coords. M.able by_coords.by.now × IsValid by_coords.schema.now × (by_coords.schema.now.dimensions ≡ M.range by_coords.by.now)
        × IsMove (M.domain by_coords.by.now) (M.range by_coords.by.now) (M.forth by_coords.by.now) (M.back by_coords.by.now) };

    ghost source = { λ by_coords. M.domain by_coords.by.now };

    ghost target = { λ by_coords. M.range by_coords.by.now };

    ghost back = { λ by_coords. M.back by_coords.by.now };

    fn push_numbers(&self, found: &mut List<ChunkAt>, at: &Coord) -> Result<(), Memory> {
        push_number(found, self.schema, &self.by.image(at))
    }

    fn preimage(&self, area: &Bounds) -> Bounds {
        self.by.preimage(area)
    }

    fn rows_from(&self, rows: List<Row>, area: &Bounds) -> Result<List<Row>, Memory> {
        let _ = area;
        let made = map_rows(rows, self.by)?;
        in_order(made)
    }
}
