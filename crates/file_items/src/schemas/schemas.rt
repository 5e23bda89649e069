//! Reading schemas.
ghost use Rattle.std.specs.Prelude.{◌≡◌};
ghost use Rattle.file_items.specs.Items.{IsRead};
ghost use Rattle.file_items.specs.Table.{schema_at};

use crate::bytes::Stop;
use crate::schemas::attributes::attributes;
use crate::schemas::dimensions::dimensions;
use cell_values::Schema;
use std::alloc::Global;

/// A valid schema. It stops at the first item that the rules do not allow, or that the end cuts.
#[tactic(auto, unfolding(crate::specs::Table::schema_at))]
pub fn schema(alloc: Global, bytes: &[u8]) -> Result<(Schema, &[u8]), Stop>
    ensures { IsRead (λ x. (x.0, x.1.now)) result (schema_at bytes.now) }
{
    let (attributes, rest) = attributes(alloc, bytes)?;
    let (dimensions, rest) = dimensions(alloc, &attributes, rest)?;
    Ok((
        Schema {
            attributes,
            dimensions,
        },
        rest,
    ))
}
