//! The operators, chunk by chunk.
ghost use Rattle.std.specs.Prelude.{◌≡◌, IfOk};
ghost use Rattle.array_parts.specs.Made.{IsMadeBy};
ghost use Rattle.logical_plan.specs.CellOps.{filter_rows, apply_rows, project_rows};

use crate::chunks::{apply_chunk, filter_chunk, project_chunk};
use array_geom::Chunk;
use array_parts::ChunkOperator;
use cell_values::{Margins, Memory, Schema};
use expr_nulls::TypedExpr;
use logical_plan::Applied;

/// A filter with its test.
#[derive(Drop)]
pub(crate) struct Filter<'a> {
    pub test: &'a TypedExpr,
}

/// Further attributes with their values.
#[derive(Drop)]
pub(crate) struct Apply<'a> {
    pub values: &'a [Applied],
}

/// The places of the attributes that stay.
#[derive(Drop)]
pub(crate) struct Project<'a> {
    pub places: &'a [u32],
}

impl ChunkOperator for Filter<'_> {
    ghost operator = { λ filter. filter_rows filter.test.now };

    fn apply(&self, schema: &Schema, margins: &Margins, chunk: Chunk) -> Result<Chunk, Memory> {
        filter_chunk(schema, margins, chunk, self.test)
    }
}

impl ChunkOperator for Apply<'_> {
    ghost operator = { λ apply. apply_rows apply.values.now };

    fn apply(&self, schema: &Schema, margins: &Margins, chunk: Chunk) -> Result<Chunk, Memory> {
        apply_chunk(schema, margins, chunk, self.values)
    }
}

impl ChunkOperator for Project<'_> {
    ghost operator = { λ project. project_rows project.places.now };

    fn apply(&self, _schema: &Schema, _margins: &Margins, chunk: Chunk) -> Result<Chunk, Memory> {
        project_chunk(&chunk, self.places)
    }
}
