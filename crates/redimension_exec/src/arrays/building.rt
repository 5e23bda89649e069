//! The array of a target that has these rows.
ghost use Rattle.std.specs.Prelude.{◌≡◌, Ok as Good, Err as Bad, IfOk};
ghost use Rattle.cell_values.specs.Schemas.{IsValid};
ghost use Rattle.array_rows.specs.Arrays.{AreRowsOf};
ghost use Rattle.array_geom.specs.Geometry.{overlaps};
ghost use Rattle.array_geom.specs.Link.{Is};
ghost use Rattle.logical_plan.specs.CellOps.{fit_rows};

use array_geom::{ChunkedArray, margins_of};
use cell_values::{Broken, List, Memory, Row, Schema};
use chunk_cells::{assemble, broken_array, fit_rows};

/// The rows as an array of the target, with a fault for each null that is not to be there.
#[tactic(auto, using(array_geom::proofs::MarginLaws::overlap_each, array_geom::proofs::MarginLaws::overlap_places))]
pub(crate) fn fitted_array(target: &Schema, rows: List<Row>) -> Result<ChunkedArray, Memory>
    requires { AreRowsOf target.now rows }
    ensures array { IfOk result (λ made. Is made (record { schema = target.now; rows = Good (fit_rows target.now.attributes rows) })) }
    ensures margins { IfOk result (λ made. made.margins.items ≡ overlaps target.now.dimensions) }
{
    let fitted = fit_rows(target.attributes.as_slice(), rows)?;
    assemble(target, &margins_of(target), fitted.as_slice())
}

/// An array of the target that could not be computed.
#[tactic(auto, using(array_geom::proofs::MarginLaws::overlap_each))]
pub(crate) fn broken_target(target: &Schema, broken: &Broken) -> Result<ChunkedArray, Memory>
    requires { IsValid target.now }
    ensures array { IfOk result (λ made. Is made (record { schema = target.now; rows = Bad broken.now })) }
    ensures margins { IfOk result (λ made. made.margins.items ≡ overlaps target.now.dimensions) }
{
    broken_array(target, &margins_of(target), broken)
}
