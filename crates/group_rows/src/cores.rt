//! The rows of cores.
ghost use Rattle.std.specs.Prelude.{◌≡◌, ◌^◌, ◌<◌, length, IfOk};
ghost use Rattle.array_parts.specs.Cores.{HaveCells, cores_of};

use area_cells::into_core_rows;
use array_geom::ChunkedArray;
use cell_values::{List, Memory, Row};

/// More rows than can be counted are as good as no memory.
fn counted(rows: List<Row>) -> Result<List<Row>, Memory>
    ensures same { IfOk result (λ same. same ≡ rows) }
    ensures few { IfOk result (λ same. length same < 2 ^ 63) }
{
    if rows.len() < 1 << 63 {
        Ok(rows)
    } else {
        Err(Memory)
    }
}

/// The rows of an array's cores, whose cells are moved.
pub fn rows_of_cores(array: ChunkedArray) -> Result<List<Row>, Memory>
    requires { HaveCells array.schema array.margins.items array.chunks }
    ensures rows { IfOk result (λ rows. rows ≡ cores_of array) }
    ensures few { IfOk result (λ rows. length rows < 2 ^ 63) }
{
    let rows = into_core_rows(array)?;
    counted(rows)
}
