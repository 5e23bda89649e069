//! Rows in row-major order.
ghost use Rattle.std.specs.Prelude.{◌≡◌, IfOk};
ghost use Rattle.array_rows.specs.Rows.{in_order};
ghost use Rattle.redimension_exec.specs.Inner.Sorting.{AreDifferent};

use cell_values::{List, Memory, Row};

/// The rows in row-major order.
pub(crate) fn in_order(rows: List<Row>) -> Result<List<Row>, Memory>
    requires { AreDifferent rows }
    ensures { IfOk result (λ sorted. sorted ≡ in_order rows) }
{
    let mut rows = rows.into_vec();
    rows.sort_by(|a, b| a.at.as_slice().cmp(b.at.as_slice()))?;
    Ok(List::from_vec(rows))
}
