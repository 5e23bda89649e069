//! Arrays with other margins.
ghost use Rattle.std.specs.Prelude.{◌≡◌, ◌≤◌, ◌^◌, length, IfOk};
ghost use Rattle.array_rows.specs.Arrays.{Meant};
ghost use Rattle.array_geom.specs.Geometry.{frame_lengths, volume};
ghost use Rattle.array_geom.specs.Link.{Is};
ghost use Rattle.chunk_cells.specs.Whole.{IsArray};

use array_geom::ChunkedArray;
use cell_values::{Margins, Memory, compare_numbers};
use chunk_cells::with_halo;

/// The same array with these margins, as it is where it has them.
pub(crate) fn with_margins(array: ChunkedArray, margins: &Margins) -> Result<ChunkedArray, Memory>
    requires array { IsArray array }
    requires margins { length margins.now.items ≡ length array.schema.dimensions }
    requires places { volume (frame_lengths array.schema.dimensions margins.now.items) ≤ 2 ^ 48 }
    ensures array { (meant : Meant) → Is array meant → IfOk result (λ made. Is made meant) }
    ensures margins { IfOk result (λ made. made.margins.items ≡ margins.now.items) }
{
    if compare_numbers(&array.margins, margins).is_eq() {
        Ok(array)
    } else {
        with_halo(&array, margins)
    }
}
