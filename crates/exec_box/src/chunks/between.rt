//! The cells of a chunk in a box.
ghost use Rattle.std.specs.Prelude.{◌≡◌, List as Items, IfOk};
ghost use Rattle.cell_values.specs.declared.datum.Row.{Row};
ghost use Rattle.array_rows.specs.Boxes.{within};
ghost use Rattle.array_geom.specs.Geometry.{HasFrame};
ghost use Rattle.array_geom.specs.Link.{IsPart};
ghost use Rattle.array_parts.specs.Made.{IsPlaced, IsMadeBy};
ghost use Rattle.exec_box.specs.Cut.{cut_cell};

use array_geom::Chunk;
use array_parts::{CellChange, Quick, change_chunk};
use array_rows::{Rows, is_in_box};
use cell_values::{Bounds, Cell, Coord, Margins, Memory, Schema};

/// A cut with its box.
#[derive(Drop)]
struct Cut<'a> {
    area: &'a Bounds,
}

impl CellChange for Cut<'_> {
    ghost changed = { λ cut. cut_cell cut.area.now };

    fn change(&self, at: &Coord, cell: Cell) -> Result<Option<Cell>, Memory> {
        if is_in_box(self.area, at) {
            Ok(Some(cell))
        } else {
            Ok(None)
        }
    }

    fn quick(&self, _rows: &Rows, _k: usize) -> Quick {
        Quick::Unknown
    }
}

/// The cells of a chunk, and of its margins, that lie in a box. No cell is copied.
pub fn between_chunk(
    schema: &Schema,
    margins: &Margins,
    chunk: Chunk,
    area: &Bounds,
) -> Result<Chunk, Memory>
    requires framed { HasFrame schema.now margins.now.items chunk.at.items }
    requires placed { IsPlaced schema.now.dimensions margins.now.items chunk }
    ensures made { IfOk result (IsMadeBy (within area.now) schema.now.dimensions margins.now.items chunk) }
    ensures part { (rows : Items Row) → IsPart schema.now.dimensions margins.now.items rows chunk
        → IfOk result (IsPart schema.now.dimensions margins.now.items (within area.now rows)) }
{
    change_chunk(schema, margins, chunk, &Cut { area })
}
