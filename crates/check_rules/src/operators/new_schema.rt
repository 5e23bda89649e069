//! The rules of the schema that an operator makes.
ghost use Rattle.std.specs.Prelude.{◌≡◌, ◌^◌, ◌-◌, min, nat_le, length, Ok, IfOk};
ghost use Rattle.cell_values.specs.Schemas.{frame_fits, frame_length, frame_size};
ghost use Rattle.plan_schemas.specs.PlanSchema.{schema_of};
ghost use Rattle.check_rules.specs.Checked.{Answers};
ghost use Rattle.check_rules.specs.NewSchema.{by_new_schema, of_new_schema};

use crate::rules::{TypeFault, broken};
use afl_trees::TypeKind;
use cell_values::{Attribute, Dimension, Memory, Schema, Span};
use plan_schemas::{Plan, let_go, schema_of};
use std::alloc::Global;

const MAX_DIMENSIONS: usize = 6;

const MAX_ATTRIBUTES: usize = 64;

/// The most places of a chunk with its overlaps.
const MAX_FRAME: u64 = 281474976710656;

/// How many places a chunk has along a dimension with its overlap, or 2^64 - 1 where they are more.
fn frame_length(dimension: &Dimension) -> u64
    ensures { result ≡ min (frame_length dimension.now) (2 ^ 64 - 1) }
{
    let overlaps = dimension.overlap.saturating_mul(2);
    dimension.chunk.saturating_add(overlaps)
}

/// How many places a chunk has with its overlap, or 2^64 - 1 where they are more.
#[tactic(auto, using(crate::proofs::Frames::frame_on))]
fn frame_size(dimensions: &[Dimension]) -> u64
    ensures { result ≡ min (frame_size dimensions.now) (2 ^ 64 - 1) }
{
    let mut size: u64 = 1;
    for dimension in dimensions {
        size = size.saturating_mul(frame_length(dimension));
    }
    size
}

fn are_few_dimensions(dimensions: &[Dimension]) -> bool
    ensures { result ≡ nat_le (length dimensions.now) 6 }
{
    dimensions.len() <= MAX_DIMENSIONS
}

fn are_few_attributes(attributes: &[Attribute]) -> bool
    ensures { result ≡ nat_le (length attributes.now) 64 }
{
    attributes.len() <= MAX_ATTRIBUTES
}

fn frame_fits(dimensions: &[Dimension]) -> bool
    ensures { result ≡ frame_fits dimensions.now }
{
    frame_size(dimensions) <= MAX_FRAME
}

/// The plan, where a schema is within the limits.
fn by_new_schema(span: Span, schema: &Schema, plan: Plan) -> Result<Plan, TypeFault>
    ensures { Answers result (by_new_schema span schema.now (Ok plan)) }
{
    if !are_few_dimensions(schema.dimensions.as_slice()) {
        let_go(plan);
        return Err(broken(span, TypeKind::TooManyDimensions));
    }
    if !are_few_attributes(schema.attributes.as_slice()) {
        let_go(plan);
        return Err(broken(span, TypeKind::TooManyAttributes));
    }
    if !frame_fits(schema.dimensions.as_slice()) {
        let_go(plan);
        return Err(broken(span, TypeKind::ChunkTooLarge));
    }
    Ok(plan)
}

/// The schema of a plan.
pub fn shape_of(alloc: Global, plan: &Plan) -> Result<Schema, Memory>
    ensures { IfOk result (λ schema. schema ≡ schema_of plan.now) }
{
    schema_of(alloc, plan)
}

/// The plan, where its schema is within the limits.
pub fn of_new_schema(alloc: Global, span: Span, plan: Plan) -> Result<Plan, TypeFault>
    ensures { Answers result (of_new_schema span plan) }
{
    match shape_of(alloc, &plan) {
        Ok(schema) => by_new_schema(span, &schema, plan),
        Err(Memory) => {
            let_go(plan);
            Err(TypeFault::Memory)
        }
    }
}
