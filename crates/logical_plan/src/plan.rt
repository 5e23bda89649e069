//! The plan of a query.
ghost use Rattle.std.specs.Prelude.{◌≡◌, IfOk};
ghost use Rattle.logical_plan.specs.Query.{built, listed, scanned, filtered, applied, projected, between, subarray};
ghost use Rattle.logical_plan.specs.Query.{sliced, joined, crossed, redimensioned, regridded, windowed, aggregated};
ghost use Rattle.logical_plan.specs.Query.{sorted, ranked, cumulated, transposed, reversed, unpacked, xgridded, merged, concatenated};

use crate::{Aggregate, Applied, Fixed, Leaf, Pair, Reach};
use cell_values::{Bounds, List, Memory, Row, Schema};
use expr_nulls::TypedExpr;
use std::alloc::Global;
use std::marker::Model;

/// A plan. Contracts see it as a `Query`, without its boxes. Attributes and dimensions of a source are named by their
/// places, from 0.
#[cycle(plan)]
pub struct Plan {
    pub node: PlanNode,
}

impl Drop for Plan {
    fn drop(self) {
        let Plan { node: _ } = self;
    }
}

#[cycle(plan)]
#[derive(Drop)]
pub enum PlanNode {
    /// The value of an expression at each place of a schema.
    Build(Schema, TypedExpr),
    Literal(Schema, List<Row>),
    Scan(Leaf),
    /// The cells where an expression is true.
    Filter(Box<Plan>, TypedExpr),
    /// Further attributes after those of the source.
    Apply(Box<Plan>, List<Applied>),
    /// The attributes at these places.
    Project(Box<Plan>, List<u32>),
    Between(Box<Plan>, Bounds),
    /// The cells in a box, which begins at 0 in each dimension of the result.
    Subarray(Box<Plan>, Bounds),
    Slice(Box<Plan>, List<Fixed>),
    /// Two arrays cell by cell, and the schema of the result.
    Join(Box<Plan>, Box<Plan>, Schema),
    /// Each two cells that agree in the paired dimensions, and the schema of the result.
    CrossJoin(Box<Plan>, Box<Plan>, List<Pair>, Schema),
    /// The cells at the places of another schema that their values give.
    Redimension(Box<Plan>, Schema, List<Aggregate>),
    /// Aggregates of blocks, whose lengths are given for each dimension.
    Regrid(Box<Plan>, List<u64>, List<Aggregate>),
    /// Aggregates of the window round each cell.
    Window(Box<Plan>, List<Reach>, List<Aggregate>),
    /// Aggregates of the cells that agree in the dimensions at these places.
    Aggregate(Box<Plan>, List<Aggregate>, List<u32>),
    /// The cells by the order of the attributes at these places, and the schema of the result.
    Sort(Box<Plan>, List<u32>, Schema),
    /// The attribute at a place and its rank among the cells that agree in the dimensions at these places.
    Rank(Box<Plan>, u32, List<u32>),
    /// Aggregates of the cells up to each cell along the dimension at a place.
    Cumulate(Box<Plan>, List<Aggregate>, u32),
    /// The cells with their coordinates backwards.
    Transpose(Box<Plan>),
    /// The cells at the places opposite, in each dimension as far from the high bound as they were from the low one.
    Reverse(Box<Plan>),
    /// The cells numbered in row-major order, with their coordinates as attributes, and the schema of the result.
    Unpack(Box<Plan>, Schema),
    /// Each cell at all places of a block, whose lengths are given for each dimension.
    Xgrid(Box<Plan>, List<u64>),
    /// The cells of two arrays of the same bounds; where both have one, the left's.
    Merge(Box<Plan>, Box<Plan>),
    /// Two arrays, the right one behind the left one along the first dimension.
    Concat(Box<Plan>, Box<Plan>),
}

impl Model for Plan {
    ghost use Rattle.logical_plan.specs.Query.{Query, query_size};
    ghost use Rattle.logical_plan.specs.Lemmas.QueryCode.{query_code};

    ghost Value = { Query };

    ghost coded = { query_code };

    ghost use Rattle.logical_plan.specs.Inner.QueryView.{query_of};

    ghost view = { λ p. query_of p.node };

    ghost size = { query_size };

    ghost use Rattle.logical_plan.specs.Lemmas.QueryFalls.{depth_le-size};

    ghost size_decreases = { λ p h. depth_le-size p.node };
}

/// Lets a plan go. That its boxes can be let go is proved here once, and not again in each crate that calls this.
pub fn let_go(plan: Plan) {
    drop(plan)
}

/// A value in a box, and a part beside it.
fn boxed_with<A: Drop, P: Drop>(alloc: Global, value: A, part: P) -> Result<(Box<A>, P), Memory>
    ensures { IfOk result (λ both. (both.0.value ≡ value) × (both.1 ≡ part)) }
{
    match Box::new(alloc, value) {
        Ok(value) => Ok((value, part)),
        Err(_) => {
            drop(part);
            Err(Memory)
        }
    }
}

/// Two values in boxes, and a part beside them.
fn both_boxed_with<A: Drop, P: Drop>(
    alloc: Global,
    left: A,
    right: A,
    part: P,
) -> Result<(Box<A>, Box<A>, P), Memory>
    ensures { IfOk result (λ all. (all.0.value ≡ left) × (all.1.value ≡ right) × (all.2 ≡ part)) }
{
    match boxed_with(alloc, left, (right, part)) {
        Ok((left, (right, part))) => boxed_beside(alloc, left, right, part),
        Err(Memory) => Err(Memory),
    }
}

/// A box, a second value in a box, and a part beside them.
fn boxed_beside<A: Drop, P: Drop>(
    alloc: Global,
    left: Box<A>,
    right: A,
    part: P,
) -> Result<(Box<A>, Box<A>, P), Memory>
    ensures { IfOk result (λ all. (all.0.value ≡ left.value) × (all.1.value ≡ right) × (all.2 ≡ part)) }
{
    match boxed_with(alloc, right, (left, part)) {
        Ok((right, (left, part))) => Ok((left, right, part)),
        Err(Memory) => Err(Memory),
    }
}

impl Plan {
    pub fn build(schema: Schema, value: TypedExpr) -> Plan
        ensures { result ≡ built schema value }
    {
        Plan {
            node: PlanNode::Build(schema, value),
        }
    }

    pub fn literal(schema: Schema, rows: List<Row>) -> Plan
        ensures { result ≡ listed schema rows }
    {
        Plan {
            node: PlanNode::Literal(schema, rows),
        }
    }

    pub fn scan(leaf: Leaf) -> Plan
        ensures { result ≡ scanned leaf }
    {
        Plan {
            node: PlanNode::Scan(leaf),
        }
    }

    pub fn filter(alloc: Global, source: Plan, test: TypedExpr) -> Result<Plan, Memory>
        ensures { IfOk result (λ p. p ≡ filtered source test) }
    {
        match boxed_with(alloc, source, test) {
            Ok((source, test)) => Ok(Plan {
                node: PlanNode::Filter(source, test),
            }),
            Err(Memory) => Err(Memory),
        }
    }

    pub fn apply(alloc: Global, source: Plan, values: List<Applied>) -> Result<Plan, Memory>
        ensures { IfOk result (λ p. p ≡ applied source values) }
    {
        match boxed_with(alloc, source, values) {
            Ok((source, values)) => Ok(Plan {
                node: PlanNode::Apply(source, values),
            }),
            Err(Memory) => Err(Memory),
        }
    }

    pub fn project(alloc: Global, source: Plan, places: List<u32>) -> Result<Plan, Memory>
        ensures { IfOk result (λ p. p ≡ projected source places) }
    {
        match boxed_with(alloc, source, places) {
            Ok((source, places)) => Ok(Plan {
                node: PlanNode::Project(source, places),
            }),
            Err(Memory) => Err(Memory),
        }
    }

    pub fn between(alloc: Global, source: Plan, area: Bounds) -> Result<Plan, Memory>
        ensures { IfOk result (λ p. p ≡ between source area) }
    {
        match boxed_with(alloc, source, area) {
            Ok((source, area)) => Ok(Plan {
                node: PlanNode::Between(source, area),
            }),
            Err(Memory) => Err(Memory),
        }
    }

    pub fn subarray(alloc: Global, source: Plan, area: Bounds) -> Result<Plan, Memory>
        ensures { IfOk result (λ p. p ≡ subarray source area) }
    {
        match boxed_with(alloc, source, area) {
            Ok((source, area)) => Ok(Plan {
                node: PlanNode::Subarray(source, area),
            }),
            Err(Memory) => Err(Memory),
        }
    }

    pub fn slice(alloc: Global, source: Plan, fixed: List<Fixed>) -> Result<Plan, Memory>
        ensures { IfOk result (λ p. p ≡ sliced source fixed) }
    {
        match boxed_with(alloc, source, fixed) {
            Ok((source, fixed)) => Ok(Plan {
                node: PlanNode::Slice(source, fixed),
            }),
            Err(Memory) => Err(Memory),
        }
    }

    pub fn join(alloc: Global, left: Plan, right: Plan, schema: Schema) -> Result<Plan, Memory>
        ensures { IfOk result (λ p. p ≡ joined left right schema) }
    {
        match both_boxed_with(alloc, left, right, schema) {
            Ok((left, right, schema)) => Ok(Plan {
                node: PlanNode::Join(left, right, schema),
            }),
            Err(Memory) => Err(Memory),
        }
    }

    pub fn cross_join(
        alloc: Global,
        left: Plan,
        right: Plan,
        pairs: List<Pair>,
        schema: Schema,
    ) -> Result<Plan, Memory>
        ensures { IfOk result (λ p. p ≡ crossed left right pairs schema) }
    {
        match both_boxed_with(alloc, left, right, (pairs, schema)) {
            Ok((left, right, (pairs, schema))) => Ok(Plan {
                node: PlanNode::CrossJoin(left, right, pairs, schema),
            }),
            Err(Memory) => Err(Memory),
        }
    }

    pub fn redimension(
        alloc: Global,
        source: Plan,
        schema: Schema,
        aggregates: List<Aggregate>,
    ) -> Result<Plan, Memory>
        ensures { IfOk result (λ p. p ≡ redimensioned source schema aggregates) }
    {
        match boxed_with(alloc, source, (schema, aggregates)) {
            Ok((source, (schema, aggregates))) => Ok(Plan {
                node: PlanNode::Redimension(source, schema, aggregates),
            }),
            Err(Memory) => Err(Memory),
        }
    }

    pub fn regrid(
        alloc: Global,
        source: Plan,
        sizes: List<u64>,
        aggregates: List<Aggregate>,
    ) -> Result<Plan, Memory>
        ensures { IfOk result (λ p. p ≡ regridded source sizes aggregates) }
    {
        match boxed_with(alloc, source, (sizes, aggregates)) {
            Ok((source, (sizes, aggregates))) => Ok(Plan {
                node: PlanNode::Regrid(source, sizes, aggregates),
            }),
            Err(Memory) => Err(Memory),
        }
    }

    pub fn window(
        alloc: Global,
        source: Plan,
        reach: List<Reach>,
        aggregates: List<Aggregate>,
    ) -> Result<Plan, Memory>
        ensures { IfOk result (λ p. p ≡ windowed source reach aggregates) }
    {
        match boxed_with(alloc, source, (reach, aggregates)) {
            Ok((source, (reach, aggregates))) => Ok(Plan {
                node: PlanNode::Window(source, reach, aggregates),
            }),
            Err(Memory) => Err(Memory),
        }
    }

    pub fn aggregate(
        alloc: Global,
        source: Plan,
        aggregates: List<Aggregate>,
        dimensions: List<u32>,
    ) -> Result<Plan, Memory>
        ensures { IfOk result (λ p. p ≡ aggregated source aggregates dimensions) }
    {
        match boxed_with(alloc, source, (aggregates, dimensions)) {
            Ok((source, (aggregates, dimensions))) => Ok(Plan {
                node: PlanNode::Aggregate(source, aggregates, dimensions),
            }),
            Err(Memory) => Err(Memory),
        }
    }

    pub fn sort(
        alloc: Global,
        source: Plan,
        keys: List<u32>,
        schema: Schema,
    ) -> Result<Plan, Memory>
        ensures { IfOk result (λ p. p ≡ sorted source keys schema) }
    {
        match boxed_with(alloc, source, (keys, schema)) {
            Ok((source, (keys, schema))) => Ok(Plan {
                node: PlanNode::Sort(source, keys, schema),
            }),
            Err(Memory) => Err(Memory),
        }
    }

    pub fn rank(
        alloc: Global,
        source: Plan,
        attribute: u32,
        dimensions: List<u32>,
    ) -> Result<Plan, Memory>
        ensures { IfOk result (λ p. p ≡ ranked source attribute dimensions) }
    {
        match boxed_with(alloc, source, dimensions) {
            Ok((source, dimensions)) => Ok(Plan {
                node: PlanNode::Rank(source, attribute, dimensions),
            }),
            Err(Memory) => Err(Memory),
        }
    }

    pub fn cumulate(
        alloc: Global,
        source: Plan,
        aggregates: List<Aggregate>,
        dimension: u32,
    ) -> Result<Plan, Memory>
        ensures { IfOk result (λ p. p ≡ cumulated source aggregates dimension) }
    {
        match boxed_with(alloc, source, aggregates) {
            Ok((source, aggregates)) => Ok(Plan {
                node: PlanNode::Cumulate(source, aggregates, dimension),
            }),
            Err(Memory) => Err(Memory),
        }
    }

    pub fn transpose(alloc: Global, source: Plan) -> Result<Plan, Memory>
        ensures { IfOk result (λ p. p ≡ transposed source) }
    {
        match Box::new(alloc, source) {
            Ok(source) => Ok(Plan {
                node: PlanNode::Transpose(source),
            }),
            Err(_) => Err(Memory),
        }
    }

    pub fn reverse(alloc: Global, source: Plan) -> Result<Plan, Memory>
        ensures { IfOk result (λ p. p ≡ reversed source) }
    {
        match Box::new(alloc, source) {
            Ok(source) => Ok(Plan {
                node: PlanNode::Reverse(source),
            }),
            Err(_) => Err(Memory),
        }
    }

    pub fn unpack(alloc: Global, source: Plan, schema: Schema) -> Result<Plan, Memory>
        ensures { IfOk result (λ p. p ≡ unpacked source schema) }
    {
        match boxed_with(alloc, source, schema) {
            Ok((source, schema)) => Ok(Plan {
                node: PlanNode::Unpack(source, schema),
            }),
            Err(Memory) => Err(Memory),
        }
    }

    pub fn xgrid(alloc: Global, source: Plan, sizes: List<u64>) -> Result<Plan, Memory>
        ensures { IfOk result (λ p. p ≡ xgridded source sizes) }
    {
        match boxed_with(alloc, source, sizes) {
            Ok((source, sizes)) => Ok(Plan {
                node: PlanNode::Xgrid(source, sizes),
            }),
            Err(Memory) => Err(Memory),
        }
    }

    pub fn merge(alloc: Global, left: Plan, right: Plan) -> Result<Plan, Memory>
        ensures { IfOk result (λ p. p ≡ merged left right) }
    {
        match both_boxed_with(alloc, left, right, ()) {
            Ok((left, right, ())) => Ok(Plan {
                node: PlanNode::Merge(left, right),
            }),
            Err(Memory) => Err(Memory),
        }
    }

    pub fn concat(alloc: Global, left: Plan, right: Plan) -> Result<Plan, Memory>
        ensures { IfOk result (λ p. p ≡ concatenated left right) }
    {
        match both_boxed_with(alloc, left, right, ()) {
            Ok((left, right, ())) => Ok(Plan {
                node: PlanNode::Concat(left, right),
            }),
            Err(Memory) => Err(Memory),
        }
    }
}
