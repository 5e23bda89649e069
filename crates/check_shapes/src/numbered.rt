//! Schemas of cells that are numbered from 0.
ghost use Rattle.std.specs.Prelude.{◌≡◌, IfOk};
ghost use Rattle.logical_plan.specs.ShapeSchemas.{counting};
ghost use Rattle.check_shapes.specs.Numbered.{numbered_schema};

use crate::bounds::GREATEST_BOUND;
use cell_values::{Attribute, Dimension, List, Memory, Name, Schema};
use std::alloc::Global;

/// How many places a chunk of numbered cells has.
const NUMBERED_CHUNK: u64 = 1000;

/// A dimension from 0 on without an end.
fn counting(name: Name) -> Dimension
    ensures { result ≡ counting name }
{
    Dimension {
        name,
        lo: 0,
        hi: GREATEST_BOUND,
        chunk: NUMBERED_CHUNK,
        overlap: 0,
    }
}

/// These attributes at numbers from 0 on, along a dimension of this name.
pub(crate) fn numbered_schema(
    alloc: Global,
    attributes: List<Attribute>,
    name: Name,
) -> Result<Schema, Memory>
    ensures { IfOk result (λ schema. schema ≡ numbered_schema attributes name) }
{
    let mut dimensions = List::with_capacity(alloc, 1)?;
    dimensions.push(counting(name))?;
    Ok(Schema {
        attributes,
        dimensions,
    })
}
