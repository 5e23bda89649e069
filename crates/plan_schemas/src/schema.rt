//! The schema of a plan.
ghost use Rattle.std.specs.Prelude.{◌≡◌, IfOk};
ghost use Rattle.logical_plan.specs.Meaning.{Database, meaning};
ghost use Rattle.logical_plan.specs.PlanSchema.{apply_schema, project_schema, subarray_schema, slice_schema};
ghost use Rattle.logical_plan.specs.PlanSchema.{regrid_schema, window_schema, aggregate_schema, schema_of as query_schema};
ghost use Rattle.logical_plan.specs.PlanSchema.{rank_schema};
ghost use Rattle.logical_plan.specs.ShapeSchemas.{concat_schema, merge_schema, transpose_schema, xgrid_schema};
ghost use Rattle.plan_schemas.specs.Inner.Origins.{HasOrigin, schema_over};

use crate::attributes::{
    attributes_of_aggregates, derived_attribute, either_attributes, with_rank,
};
use crate::dimensions::{dimensions_of_groups, free_dimensions, push_blocks, push_parts};
use crate::extents::{lengthened, push_backwards, push_enlarged};
use crate::places::at_places;
use cell_values::{Bounds, List, Memory, Schema};
use logical_plan::{Aggregate, Applied, Fixed, Plan, PlanNode};
use std::alloc::Global;

fn with_applied(source: Schema, values: &List<Applied>) -> Result<Schema, Memory>
    ensures { IfOk result (λ schema. schema ≡ apply_schema values.now source) }
{
    let (mut attributes, dimensions) = source.into_parts();
    for value in values.as_slice() {
        attributes.push(derived_attribute(&value.name, value.kind)?)?;
    }
    Ok(Schema {
        attributes,
        dimensions,
    })
}

fn projection(source: Schema, places: &List<u32>) -> Result<Schema, Memory>
    ensures { IfOk result (λ schema. schema ≡ project_schema places.now source) }
{
    let attributes = at_places(&source.attributes, places)?;
    let (_, dimensions) = source.into_parts();
    Ok(Schema {
        attributes,
        dimensions,
    })
}

/// The schema of the part of an array in a box.
pub fn schema_of_part(source: Schema, area: &Bounds) -> Result<Schema, Memory>
    ensures { IfOk result (λ schema. schema ≡ subarray_schema area.now source) }
{
    let mut parts = source.dimensions.another();
    push_parts(
        &mut parts,
        source.dimensions.as_slice(),
        area.lo.as_slice(),
        area.hi.as_slice(),
    )?;
    let (attributes, _) = source.into_parts();
    Ok(Schema {
        attributes,
        dimensions: parts,
    })
}

/// The schema of a slice of an array.
pub fn schema_of_slice(source: Schema, fixed: &List<Fixed>) -> Result<Schema, Memory>
    ensures { IfOk result (λ schema. schema ≡ slice_schema fixed.now source) }
{
    let dimensions = free_dimensions(&source.dimensions, fixed)?;
    let (attributes, _) = source.into_parts();
    Ok(Schema {
        attributes,
        dimensions,
    })
}

fn regrid(source: Schema, sizes: &List<u64>, aggregates: &List<Aggregate>) -> Result<Schema, Memory>
    ensures { IfOk result (λ schema. schema ≡ regrid_schema sizes.now aggregates.now source) }
{
    let mut blocks = source.dimensions.another();
    push_blocks(&mut blocks, source.dimensions.as_slice(), sizes.as_slice())?;
    Ok(Schema {
        attributes: attributes_of_aggregates(&source.attributes, aggregates)?,
        dimensions: blocks,
    })
}

fn window(source: Schema, aggregates: &List<Aggregate>) -> Result<Schema, Memory>
    ensures { IfOk result (λ schema. schema ≡ window_schema aggregates.now source) }
{
    let attributes = attributes_of_aggregates(&source.attributes, aggregates)?;
    let (_, dimensions) = source.into_parts();
    Ok(Schema {
        attributes,
        dimensions,
    })
}

fn groups(
    alloc: Global,
    source: Schema,
    aggregates: &List<Aggregate>,
    places: &List<u32>,
) -> Result<Schema, Memory>
    ensures { IfOk result (λ schema. schema ≡ aggregate_schema aggregates.now places.now source) }
{
    Ok(Schema {
        attributes: attributes_of_aggregates(&source.attributes, aggregates)?,
        dimensions: dimensions_of_groups(alloc, &source.dimensions, places)?,
    })
}

fn ranked(source: Schema, place: u32) -> Result<Schema, Memory>
    ensures { IfOk result (λ schema. schema ≡ rank_schema place source) }
{
    let attributes = with_rank(&source.attributes, place)?;
    let (_, dimensions) = source.into_parts();
    Ok(Schema {
        attributes,
        dimensions,
    })
}

fn transposed(source: Schema) -> Result<Schema, Memory>
    ensures { IfOk result (λ schema. schema ≡ transpose_schema source) }
{
    let mut dimensions = source.dimensions.another();
    push_backwards(&mut dimensions, source.dimensions.as_slice())?;
    let (attributes, _) = source.into_parts();
    Ok(Schema {
        attributes,
        dimensions,
    })
}

fn xgridded(source: Schema, sizes: &List<u64>) -> Result<Schema, Memory>
    ensures { IfOk result (λ schema. schema ≡ xgrid_schema sizes.now source) }
{
    let mut dimensions = source.dimensions.another();
    push_enlarged(
        &mut dimensions,
        source.dimensions.as_slice(),
        sizes.as_slice(),
    )?;
    let (attributes, _) = source.into_parts();
    Ok(Schema {
        attributes,
        dimensions,
    })
}

fn merged(left: Schema, right: &Schema) -> Result<Schema, Memory>
    ensures { IfOk result (λ schema. schema ≡ merge_schema left right.now) }
{
    let attributes = either_attributes(&left.attributes, &right.attributes)?;
    let (_, dimensions) = left.into_parts();
    Ok(Schema {
        attributes,
        dimensions,
    })
}

fn concatenated(left: &Schema, right: &Schema) -> Result<Schema, Memory>
    ensures { IfOk result (λ schema. schema ≡ concat_schema left.now right.now) }
{
    Ok(Schema {
        attributes: either_attributes(&left.attributes, &right.attributes)?,
        dimensions: lengthened(&left.dimensions, &right.dimensions)?,
    })
}

/// Where the schema of a plan comes from.
enum Origin<'a> {
    /// It stands in the plan.
    Own(&'a Schema),
    /// Its last operator makes it of the schema of this source.
    Source(&'a Plan),
    /// These two are merged.
    Merged(&'a Plan, &'a Plan),
    /// The second of these two follows the first.
    Concatenated(&'a Plan, &'a Plan),
}

fn origin_of(plan: &Plan) -> Origin<'_>
    ensures { HasOrigin plan.now result }
{
    match &plan.node {
        PlanNode::Build(schema, _) => Origin::Own(schema),
        PlanNode::Literal(schema, _) => Origin::Own(schema),
        PlanNode::Scan(leaf) => Origin::Own(&leaf.schema),
        PlanNode::Filter(source, _) => Origin::Source(source),
        PlanNode::Apply(source, _) => Origin::Source(source),
        PlanNode::Project(source, _) => Origin::Source(source),
        PlanNode::Between(source, _) => Origin::Source(source),
        PlanNode::Subarray(source, _) => Origin::Source(source),
        PlanNode::Slice(source, _) => Origin::Source(source),
        PlanNode::Join(_, _, schema) => Origin::Own(schema),
        PlanNode::CrossJoin(_, _, _, schema) => Origin::Own(schema),
        PlanNode::Redimension(_, schema, _) => Origin::Own(schema),
        PlanNode::Regrid(source, _, _) => Origin::Source(source),
        PlanNode::Window(source, _, _) => Origin::Source(source),
        PlanNode::Aggregate(source, _, _) => Origin::Source(source),
        PlanNode::Sort(_, _, schema) => Origin::Own(schema),
        PlanNode::Rank(source, _, _) => Origin::Source(source),
        PlanNode::Cumulate(source, _, _) => Origin::Source(source),
        PlanNode::Transpose(source) => Origin::Source(source),
        PlanNode::Reverse(source) => Origin::Source(source),
        PlanNode::Unpack(_, schema) => Origin::Own(schema),
        PlanNode::Xgrid(source, _) => Origin::Source(source),
        PlanNode::Merge(left, right) => Origin::Merged(left, right),
        PlanNode::Concat(left, right) => Origin::Concatenated(left, right),
    }
}

/// What the last operator of a plan makes of the schema of its source.
fn schema_over(alloc: Global, plan: &Plan, source: Schema) -> Result<Schema, Memory>
    ensures { IfOk result (λ schema. schema ≡ schema_over plan.now source) }
{
    match &plan.node {
        PlanNode::Apply(_, values) => with_applied(source, values),
        PlanNode::Project(_, places) => projection(source, places),
        PlanNode::Subarray(_, area) => schema_of_part(source, area),
        PlanNode::Slice(_, fixed) => schema_of_slice(source, fixed),
        PlanNode::Regrid(_, sizes, aggregates) => regrid(source, sizes, aggregates),
        PlanNode::Window(_, _, aggregates) => window(source, aggregates),
        PlanNode::Aggregate(_, aggregates, places) => groups(alloc, source, aggregates, places),
        PlanNode::Rank(_, place, _) => ranked(source, *place),
        PlanNode::Cumulate(_, aggregates, _) => window(source, aggregates),
        PlanNode::Transpose(_) => transposed(source),
        PlanNode::Xgrid(_, sizes) => xgridded(source, sizes),
        PlanNode::Build(..)
        | PlanNode::Literal(..)
        | PlanNode::Scan(_)
        | PlanNode::Filter(..)
        | PlanNode::Between(..)
        | PlanNode::Join(..)
        | PlanNode::CrossJoin(..)
        | PlanNode::Redimension(..)
        | PlanNode::Sort(..)
        | PlanNode::Reverse(_)
        | PlanNode::Unpack(..)
        | PlanNode::Merge(..)
        | PlanNode::Concat(..) => Ok(source),
    }
}

fn schema_within(alloc: Global, plan: &Plan) -> Result<Schema, Memory>
    ensures { IfOk result (λ schema. schema ≡ query_schema plan.now) }
{
    match origin_of(plan) {
        Origin::Own(schema) => schema.copy(),
        Origin::Source(source) => match schema_within(alloc, source) {
            Ok(schema) => schema_over(alloc, plan, schema),
            Err(Memory) => Err(Memory),
        },
        Origin::Merged(left, right) => {
            let left = schema_within(alloc, left)?;
            merged(left, &schema_within(alloc, right)?)
        }
        Origin::Concatenated(left, right) => {
            let left = schema_within(alloc, left)?;
            concatenated(&left, &schema_within(alloc, right)?)
        }
    }
}

/// The schema of the array that the plan means. Joins, redimension, sort and unpack carry theirs.
pub fn schema_of(alloc: Global, plan: &Plan) -> Result<Schema, Memory>
    ensures value { IfOk result (λ schema. schema ≡ query_schema plan.now) }
    ensures meaning { IfOk result (λ schema. (db : Database) → (meaning db plan.now).schema ≡ schema) }
{
    schema_within(alloc, plan)
}
