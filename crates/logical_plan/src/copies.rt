//! Copies of plans.
ghost use Rattle.std.specs.Prelude.{◌≡◌, IfOk, Ok};
ghost use Rattle.logical_plan.specs.Query.{Query, built, listed, scanned, filtered, applied, projected, between, subarray};
ghost use Rattle.logical_plan.specs.Query.{sliced, joined, crossed, redimensioned, regridded, windowed, aggregated};
ghost use Rattle.logical_plan.specs.Query.{sorted, ranked, cumulated, transposed, reversed, unpacked, xgridded, merged, concatenated};

use crate::{Aggregate, Applied, Fixed, Leaf, Pair, Plan, PlanNode, Reach};
use cell_values::{Bounds, Copies, List, Memory, Row, Schema};
use expr_nulls::TypedExpr;
use std::alloc::Global;

/// Two values, if both were made.
fn both<A: Drop, B: Drop>(a: Result<A, Memory>, b: Result<B, Memory>) -> Result<(A, B), Memory>
    ensures { IfOk result (λ made. (a ≡ Ok made.0) × (b ≡ Ok made.1)) }
{
    match (a, b) {
        (Ok(a), Ok(b)) => Ok((a, b)),
        (Ok(_), Err(Memory)) | (Err(Memory), Ok(_)) | (Err(Memory), Err(Memory)) => Err(Memory),
    }
}

/// Copies of two parts of a plan.
fn both_copies<A: Copies + Drop, B: Copies + Drop>(a: &A, b: &B) -> Result<(A, B), Memory>
    ensures { IfOk result (λ both. (both.0 ≡ a.now) × (both.1 ≡ b.now)) }
{
    both(a.copy(), b.copy())
}

/// A plan in a box, if it was made.
fn boxed(alloc: Global, made: Result<Plan, Memory>) -> Result<Box<Plan>, Memory>
    ensures { (q : Query) → IfOk made (λ p. p ≡ q) → IfOk result (λ b. b.value ≡ q) }
{
    match made {
        Ok(plan) => Ok(Box::new(alloc, plan)?),
        Err(Memory) => Err(Memory),
    }
}

fn copy_build(schema: &Schema, value: &TypedExpr) -> Result<Plan, Memory>
    ensures { IfOk result (λ p. p ≡ built schema.now value.now) }
{
    match both_copies(schema, value) {
        Ok((schema, value)) => Ok(Plan::build(schema, value)),
        Err(Memory) => Err(Memory),
    }
}

fn copy_literal(schema: &Schema, rows: &List<Row>) -> Result<Plan, Memory>
    ensures { IfOk result (λ p. p ≡ listed schema.now rows.now) }
{
    match both_copies(schema, rows) {
        Ok((schema, rows)) => Ok(Plan::literal(schema, rows)),
        Err(Memory) => Err(Memory),
    }
}

fn copy_scan(leaf: &Leaf) -> Result<Plan, Memory>
    ensures { IfOk result (λ p. p ≡ scanned leaf.now) }
{
    Ok(Plan::scan(leaf.copy()?))
}

pub(crate) fn filter_of(source: Result<Box<Plan>, Memory>, test: &TypedExpr) -> Result<Plan, Memory>
    ensures { (q : Query) → IfOk source (λ b. b.value ≡ q) → IfOk result (λ p. p ≡ filtered q test.now) }
{
    match both(source, test.copy()) {
        Ok((source, test)) => Ok(Plan {
            node: PlanNode::Filter(source, test),
        }),
        Err(Memory) => Err(Memory),
    }
}

pub(crate) fn apply_of(
    source: Result<Box<Plan>, Memory>,
    values: &List<Applied>,
) -> Result<Plan, Memory>
    ensures { (q : Query) → IfOk source (λ b. b.value ≡ q) → IfOk result (λ p. p ≡ applied q values.now) }
{
    match both(source, values.copy()) {
        Ok((source, values)) => Ok(Plan {
            node: PlanNode::Apply(source, values),
        }),
        Err(Memory) => Err(Memory),
    }
}

pub(crate) fn project_of(
    source: Result<Box<Plan>, Memory>,
    places: &List<u32>,
) -> Result<Plan, Memory>
    ensures { (q : Query) → IfOk source (λ b. b.value ≡ q) → IfOk result (λ p. p ≡ projected q places.now) }
{
    match both(source, places.copy()) {
        Ok((source, places)) => Ok(Plan {
            node: PlanNode::Project(source, places),
        }),
        Err(Memory) => Err(Memory),
    }
}

pub(crate) fn between_of(source: Result<Box<Plan>, Memory>, area: &Bounds) -> Result<Plan, Memory>
    ensures { (q : Query) → IfOk source (λ b. b.value ≡ q) → IfOk result (λ p. p ≡ between q area.now) }
{
    match both(source, area.copy()) {
        Ok((source, area)) => Ok(Plan {
            node: PlanNode::Between(source, area),
        }),
        Err(Memory) => Err(Memory),
    }
}

pub(crate) fn subarray_of(source: Result<Box<Plan>, Memory>, area: &Bounds) -> Result<Plan, Memory>
    ensures { (q : Query) → IfOk source (λ b. b.value ≡ q) → IfOk result (λ p. p ≡ subarray q area.now) }
{
    match both(source, area.copy()) {
        Ok((source, area)) => Ok(Plan {
            node: PlanNode::Subarray(source, area),
        }),
        Err(Memory) => Err(Memory),
    }
}

pub(crate) fn slice_of(
    source: Result<Box<Plan>, Memory>,
    fixed: &List<Fixed>,
) -> Result<Plan, Memory>
    ensures { (q : Query) → IfOk source (λ b. b.value ≡ q) → IfOk result (λ p. p ≡ sliced q fixed.now) }
{
    match both(source, fixed.copy()) {
        Ok((source, fixed)) => Ok(Plan {
            node: PlanNode::Slice(source, fixed),
        }),
        Err(Memory) => Err(Memory),
    }
}

pub(crate) fn join_of(
    left: Result<Box<Plan>, Memory>,
    right: Result<Box<Plan>, Memory>,
    schema: &Schema,
) -> Result<Plan, Memory>
    ensures { (l r : Query) → IfOk left (λ b. b.value ≡ l) → IfOk right (λ b. b.value ≡ r) → IfOk result (λ p. p ≡ joined l r schema.now) }
{
    match both(both(left, right), schema.copy()) {
        Ok(((left, right), schema)) => Ok(Plan {
            node: PlanNode::Join(left, right, schema),
        }),
        Err(Memory) => Err(Memory),
    }
}

pub(crate) fn cross_join_of(
    left: Result<Box<Plan>, Memory>,
    right: Result<Box<Plan>, Memory>,
    pairs: &List<Pair>,
    schema: &Schema,
) -> Result<Plan, Memory>
    ensures { (l r : Query) → IfOk left (λ b. b.value ≡ l) → IfOk right (λ b. b.value ≡ r) → IfOk result (λ p. p ≡ crossed l r pairs.now schema.now) }
{
    match both(both(left, right), both_copies(pairs, schema)) {
        Ok(((left, right), (pairs, schema))) => Ok(Plan {
            node: PlanNode::CrossJoin(left, right, pairs, schema),
        }),
        Err(Memory) => Err(Memory),
    }
}

pub(crate) fn redimension_of(
    source: Result<Box<Plan>, Memory>,
    schema: &Schema,
    aggregates: &List<Aggregate>,
) -> Result<Plan, Memory>
    ensures { (q : Query) → IfOk source (λ b. b.value ≡ q) → IfOk result (λ p. p ≡ redimensioned q schema.now aggregates.now) }
{
    match both(source, both_copies(schema, aggregates)) {
        Ok((source, (schema, aggregates))) => Ok(Plan {
            node: PlanNode::Redimension(source, schema, aggregates),
        }),
        Err(Memory) => Err(Memory),
    }
}

pub(crate) fn regrid_of(
    source: Result<Box<Plan>, Memory>,
    sizes: &List<u64>,
    aggregates: &List<Aggregate>,
) -> Result<Plan, Memory>
    ensures { (q : Query) → IfOk source (λ b. b.value ≡ q) → IfOk result (λ p. p ≡ regridded q sizes.now aggregates.now) }
{
    match both(source, both_copies(sizes, aggregates)) {
        Ok((source, (sizes, aggregates))) => Ok(Plan {
            node: PlanNode::Regrid(source, sizes, aggregates),
        }),
        Err(Memory) => Err(Memory),
    }
}

pub(crate) fn window_of(
    source: Result<Box<Plan>, Memory>,
    reach: &List<Reach>,
    aggregates: &List<Aggregate>,
) -> Result<Plan, Memory>
    ensures { (q : Query) → IfOk source (λ b. b.value ≡ q) → IfOk result (λ p. p ≡ windowed q reach.now aggregates.now) }
{
    match both(source, both_copies(reach, aggregates)) {
        Ok((source, (reach, aggregates))) => Ok(Plan {
            node: PlanNode::Window(source, reach, aggregates),
        }),
        Err(Memory) => Err(Memory),
    }
}

pub(crate) fn aggregate_of(
    source: Result<Box<Plan>, Memory>,
    aggregates: &List<Aggregate>,
    dimensions: &List<u32>,
) -> Result<Plan, Memory>
    ensures { (q : Query) → IfOk source (λ b. b.value ≡ q) → IfOk result (λ p. p ≡ aggregated q aggregates.now dimensions.now) }
{
    match both(source, both_copies(aggregates, dimensions)) {
        Ok((source, (aggregates, dimensions))) => Ok(Plan {
            node: PlanNode::Aggregate(source, aggregates, dimensions),
        }),
        Err(Memory) => Err(Memory),
    }
}

pub(crate) fn sort_of(
    source: Result<Box<Plan>, Memory>,
    keys: &List<u32>,
    schema: &Schema,
) -> Result<Plan, Memory>
    ensures { (q : Query) → IfOk source (λ b. b.value ≡ q) → IfOk result (λ p. p ≡ sorted q keys.now schema.now) }
{
    match both(source, both_copies(keys, schema)) {
        Ok((source, (keys, schema))) => Ok(Plan {
            node: PlanNode::Sort(source, keys, schema),
        }),
        Err(Memory) => Err(Memory),
    }
}

pub(crate) fn rank_of(
    source: Result<Box<Plan>, Memory>,
    attribute: u32,
    dimensions: &List<u32>,
) -> Result<Plan, Memory>
    ensures { (q : Query) → IfOk source (λ b. b.value ≡ q) → IfOk result (λ p. p ≡ ranked q attribute dimensions.now) }
{
    match both(source, dimensions.copy()) {
        Ok((source, dimensions)) => Ok(Plan {
            node: PlanNode::Rank(source, attribute, dimensions),
        }),
        Err(Memory) => Err(Memory),
    }
}

pub(crate) fn cumulate_of(
    source: Result<Box<Plan>, Memory>,
    aggregates: &List<Aggregate>,
    dimension: u32,
) -> Result<Plan, Memory>
    ensures { (q : Query) → IfOk source (λ b. b.value ≡ q) → IfOk result (λ p. p ≡ cumulated q aggregates.now dimension) }
{
    match both(source, aggregates.copy()) {
        Ok((source, aggregates)) => Ok(Plan {
            node: PlanNode::Cumulate(source, aggregates, dimension),
        }),
        Err(Memory) => Err(Memory),
    }
}

pub(crate) fn transpose_of(source: Result<Box<Plan>, Memory>) -> Result<Plan, Memory>
    ensures { (q : Query) → IfOk source (λ b. b.value ≡ q) → IfOk result (λ p. p ≡ transposed q) }
{
    match source {
        Ok(source) => Ok(Plan {
            node: PlanNode::Transpose(source),
        }),
        Err(Memory) => Err(Memory),
    }
}

pub(crate) fn reverse_of(source: Result<Box<Plan>, Memory>) -> Result<Plan, Memory>
    ensures { (q : Query) → IfOk source (λ b. b.value ≡ q) → IfOk result (λ p. p ≡ reversed q) }
{
    match source {
        Ok(source) => Ok(Plan {
            node: PlanNode::Reverse(source),
        }),
        Err(Memory) => Err(Memory),
    }
}

pub(crate) fn unpack_of(source: Result<Box<Plan>, Memory>, schema: &Schema) -> Result<Plan, Memory>
    ensures { (q : Query) → IfOk source (λ b. b.value ≡ q) → IfOk result (λ p. p ≡ unpacked q schema.now) }
{
    match both(source, schema.copy()) {
        Ok((source, schema)) => Ok(Plan {
            node: PlanNode::Unpack(source, schema),
        }),
        Err(Memory) => Err(Memory),
    }
}

pub(crate) fn xgrid_of(source: Result<Box<Plan>, Memory>, sizes: &List<u64>) -> Result<Plan, Memory>
    ensures { (q : Query) → IfOk source (λ b. b.value ≡ q) → IfOk result (λ p. p ≡ xgridded q sizes.now) }
{
    match both(source, sizes.copy()) {
        Ok((source, sizes)) => Ok(Plan {
            node: PlanNode::Xgrid(source, sizes),
        }),
        Err(Memory) => Err(Memory),
    }
}

pub(crate) fn merge_of(
    left: Result<Box<Plan>, Memory>,
    right: Result<Box<Plan>, Memory>,
) -> Result<Plan, Memory>
    ensures { (l r : Query) → IfOk left (λ b. b.value ≡ l) → IfOk right (λ b. b.value ≡ r) → IfOk result (λ p. p ≡ merged l r) }
{
    match both(left, right) {
        Ok((left, right)) => Ok(Plan {
            node: PlanNode::Merge(left, right),
        }),
        Err(Memory) => Err(Memory),
    }
}

pub(crate) fn concat_of(
    left: Result<Box<Plan>, Memory>,
    right: Result<Box<Plan>, Memory>,
) -> Result<Plan, Memory>
    ensures { (l r : Query) → IfOk left (λ b. b.value ≡ l) → IfOk right (λ b. b.value ≡ r) → IfOk result (λ p. p ≡ concatenated l r) }
{
    match both(left, right) {
        Ok((left, right)) => Ok(Plan {
            node: PlanNode::Concat(left, right),
        }),
        Err(Memory) => Err(Memory),
    }
}

#[cycle(copy_plan)]
fn copy_source(source: &Box<Plan>) -> Result<Box<Plan>, Memory>
    ensures { IfOk result (λ copy. copy.value ≡ source.now.value) }
{
    boxed(*Box::allocator(source), copy_plan(source))
}

#[cycle(copy_plan)]
fn copy_plan(plan: &Plan) -> Result<Plan, Memory>
    ensures { IfOk result (λ copy. copy ≡ plan.now) }
{
    match &plan.node {
        PlanNode::Build(schema, value) => copy_build(schema, value),
        PlanNode::Literal(schema, rows) => copy_literal(schema, rows),
        PlanNode::Scan(leaf) => copy_scan(leaf),
        PlanNode::Filter(source, test) => filter_of(copy_source(source), test),
        PlanNode::Apply(source, values) => apply_of(copy_source(source), values),
        PlanNode::Project(source, places) => project_of(copy_source(source), places),
        PlanNode::Between(source, area) => between_of(copy_source(source), area),
        PlanNode::Subarray(source, area) => subarray_of(copy_source(source), area),
        PlanNode::Slice(source, fixed) => slice_of(copy_source(source), fixed),
        PlanNode::Join(left, right, schema) => {
            join_of(copy_source(left), copy_source(right), schema)
        }
        PlanNode::CrossJoin(left, right, pairs, schema) => {
            cross_join_of(copy_source(left), copy_source(right), pairs, schema)
        }
        PlanNode::Redimension(source, schema, aggregates) => {
            redimension_of(copy_source(source), schema, aggregates)
        }
        PlanNode::Regrid(source, sizes, aggregates) => {
            regrid_of(copy_source(source), sizes, aggregates)
        }
        PlanNode::Window(source, reach, aggregates) => {
            window_of(copy_source(source), reach, aggregates)
        }
        PlanNode::Aggregate(source, aggregates, dimensions) => {
            aggregate_of(copy_source(source), aggregates, dimensions)
        }
        PlanNode::Sort(source, keys, schema) => sort_of(copy_source(source), keys, schema),
        PlanNode::Rank(source, attribute, dimensions) => {
            rank_of(copy_source(source), *attribute, dimensions)
        }
        PlanNode::Cumulate(source, aggregates, dimension) => {
            cumulate_of(copy_source(source), aggregates, *dimension)
        }
        PlanNode::Transpose(source) => transpose_of(copy_source(source)),
        PlanNode::Reverse(source) => reverse_of(copy_source(source)),
        PlanNode::Unpack(source, schema) => unpack_of(copy_source(source), schema),
        PlanNode::Xgrid(source, sizes) => xgrid_of(copy_source(source), sizes),
        PlanNode::Merge(left, right) => merge_of(copy_source(left), copy_source(right)),
        PlanNode::Concat(left, right) => concat_of(copy_source(left), copy_source(right)),
    }
}

impl Plan {
    /// An equal plan, with the same allocator.
    pub fn copy(&self) -> Result<Plan, Memory>
        ensures { IfOk result (λ copy. copy ≡ self.now) }
    {
        copy_plan(self)
    }
}

impl Copies for Plan {
    fn copy(&self) -> Result<Plan, Memory> {
        self.copy()
    }
}
