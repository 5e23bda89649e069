//! Operators that work chunk by chunk.
ghost use Rattle.std.specs.Prelude.{List as Items, IfOk};
ghost use Rattle.cell_values.specs.declared.datum.Row.{Row};
ghost use Rattle.array_parts.specs.Made.{IsMadeBy};
ghost use Rattle.array_parts.specs.Placed.{HasPlaces};

use array_geom::Chunk;
use cell_values::{Margins, Memory, Schema};

/// An operator that makes a chunk of a chunk, of core and margins alike.
pub trait ChunkOperator {
    ghost operator: { Self → Items Row → Items Row };

    /// What becomes of a chunk of an array of this schema.
    fn apply(&self, schema: &Schema, margins: &Margins, chunk: Chunk) -> Result<Chunk, Memory>
        requires { HasPlaces schema.now margins.now.items chunk }
        ensures { IfOk result (IsMadeBy (operator self.now) schema.now.dimensions margins.now.items chunk) };
}
