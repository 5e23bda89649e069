//! Plans by the number of their sources.
ghost use Rattle.std.specs.Prelude.{◌≡◌, IfOk};
ghost use Rattle.logical_plan.specs.Arity.{binary_query, shape_query, unary_query};

use crate::copies::{
    aggregate_of, apply_of, between_of, concat_of, cross_join_of, cumulate_of, filter_of, join_of,
    merge_of, project_of, rank_of, redimension_of, regrid_of, reverse_of, slice_of, sort_of,
    subarray_of, transpose_of, unpack_of, window_of, xgrid_of,
};
use crate::{Aggregate, Applied, Fixed, Leaf, Pair, Plan, PlanNode, Reach};
use cell_values::{Bounds, List, Memory, Row, Schema};
use expr_nulls::TypedExpr;
use std::alloc::Global;

/// What has no source.
#[derive(Clone, Copy)]
pub enum LeafNode<'a> {
    Build(&'a Schema, &'a TypedExpr),
    Literal(&'a Schema, &'a List<Row>),
    Scan(&'a Leaf),
}

/// An operator over one source, with its other parts in the order of `PlanNode`.
#[derive(Clone, Copy)]
pub enum UnaryNode<'a> {
    Filter(&'a TypedExpr),
    Apply(&'a List<Applied>),
    Project(&'a List<u32>),
    Between(&'a Bounds),
    Subarray(&'a Bounds),
    Slice(&'a List<Fixed>),
    Redimension(&'a Schema, &'a List<Aggregate>),
    Regrid(&'a List<u64>, &'a List<Aggregate>),
    Window(&'a List<Reach>, &'a List<Aggregate>),
    Aggregate(&'a List<Aggregate>, &'a List<u32>),
    Sort(&'a List<u32>, &'a Schema),
    Rank(u32, &'a List<u32>),
    Cumulate(&'a List<Aggregate>, u32),
    Transpose,
    Reverse,
    Unpack(&'a Schema),
    Xgrid(&'a List<u64>),
}

/// An operator over two sources, with its other parts.
#[derive(Clone, Copy)]
pub enum BinaryNode<'a> {
    Join(&'a Schema),
    CrossJoin(&'a List<Pair>, &'a Schema),
    Merge,
    Concat,
}

/// A plan by the number of its sources.
#[derive(Clone, Copy)]
pub enum PlanShape<'a> {
    Leaf(LeafNode<'a>),
    Unary(&'a Plan, UnaryNode<'a>),
    /// The left source, the right one, and what is done with them.
    Binary(&'a Plan, &'a Plan, BinaryNode<'a>),
}

impl Plan {
    /// The last operator of the plan and its sources.
    pub fn shape(&self) -> PlanShape<'_>
        ensures { shape_query result ≡ self.now }
    {
        match &self.node {
            PlanNode::Build(schema, value) => PlanShape::Leaf(LeafNode::Build(schema, value)),
            PlanNode::Literal(schema, rows) => PlanShape::Leaf(LeafNode::Literal(schema, rows)),
            PlanNode::Scan(leaf) => PlanShape::Leaf(LeafNode::Scan(leaf)),
            PlanNode::Filter(source, test) => PlanShape::Unary(source, UnaryNode::Filter(test)),
            PlanNode::Apply(source, values) => PlanShape::Unary(source, UnaryNode::Apply(values)),
            PlanNode::Project(source, places) => PlanShape::Unary(
                source,
                UnaryNode::Project(places),
            ),
            PlanNode::Between(source, area) => PlanShape::Unary(source, UnaryNode::Between(area)),
            PlanNode::Subarray(source, area) => PlanShape::Unary(source, UnaryNode::Subarray(area)),
            PlanNode::Slice(source, fixed) => PlanShape::Unary(source, UnaryNode::Slice(fixed)),
            PlanNode::Join(left, right, schema) => PlanShape::Binary(
                left,
                right,
                BinaryNode::Join(schema),
            ),
            PlanNode::CrossJoin(left, right, pairs, schema) => {
                PlanShape::Binary(left, right, BinaryNode::CrossJoin(pairs, schema))
            }
            PlanNode::Redimension(source, schema, aggregates) => {
                PlanShape::Unary(source, UnaryNode::Redimension(schema, aggregates))
            }
            PlanNode::Regrid(source, sizes, aggregates) => {
                PlanShape::Unary(source, UnaryNode::Regrid(sizes, aggregates))
            }
            PlanNode::Window(source, reach, aggregates) => {
                PlanShape::Unary(source, UnaryNode::Window(reach, aggregates))
            }
            PlanNode::Aggregate(source, aggregates, dimensions) => {
                PlanShape::Unary(source, UnaryNode::Aggregate(aggregates, dimensions))
            }
            PlanNode::Sort(source, keys, schema) => PlanShape::Unary(
                source,
                UnaryNode::Sort(keys, schema),
            ),
            PlanNode::Rank(source, attribute, dimensions) => {
                PlanShape::Unary(source, UnaryNode::Rank(*attribute, dimensions))
            }
            PlanNode::Cumulate(source, aggregates, dimension) => {
                PlanShape::Unary(source, UnaryNode::Cumulate(aggregates, *dimension))
            }
            PlanNode::Transpose(source) => PlanShape::Unary(source, UnaryNode::Transpose),
            PlanNode::Reverse(source) => PlanShape::Unary(source, UnaryNode::Reverse),
            PlanNode::Unpack(source, schema) => PlanShape::Unary(source, UnaryNode::Unpack(schema)),
            PlanNode::Xgrid(source, sizes) => PlanShape::Unary(source, UnaryNode::Xgrid(sizes)),
            PlanNode::Merge(left, right) => PlanShape::Binary(left, right, BinaryNode::Merge),
            PlanNode::Concat(left, right) => PlanShape::Binary(left, right, BinaryNode::Concat),
        }
    }
}

fn in_box(alloc: Global, plan: Plan) -> Result<Box<Plan>, Memory>
    ensures { IfOk result (λ b. b.value ≡ plan) }
{
    match Box::new(alloc, plan) {
        Ok(boxed) => Ok(boxed),
        Err(_) => Err(Memory),
    }
}

impl UnaryNode<'_> {
    /// The operator over another source, with copies of its other parts.
    pub fn over(self, alloc: Global, source: Plan) -> Result<Plan, Memory>
        ensures { IfOk result (λ p. p ≡ unary_query self.entry source) }
    {
        let source = in_box(alloc, source);
        match self {
            UnaryNode::Filter(test) => filter_of(source, test),
            UnaryNode::Apply(values) => apply_of(source, values),
            UnaryNode::Project(places) => project_of(source, places),
            UnaryNode::Between(area) => between_of(source, area),
            UnaryNode::Subarray(area) => subarray_of(source, area),
            UnaryNode::Slice(fixed) => slice_of(source, fixed),
            UnaryNode::Redimension(schema, aggregates) => {
                redimension_of(source, schema, aggregates)
            }
            UnaryNode::Regrid(sizes, aggregates) => regrid_of(source, sizes, aggregates),
            UnaryNode::Window(reach, aggregates) => window_of(source, reach, aggregates),
            UnaryNode::Aggregate(aggregates, dimensions) => {
                aggregate_of(source, aggregates, dimensions)
            }
            UnaryNode::Sort(keys, schema) => sort_of(source, keys, schema),
            UnaryNode::Rank(attribute, dimensions) => rank_of(source, attribute, dimensions),
            UnaryNode::Cumulate(aggregates, dimension) => {
                cumulate_of(source, aggregates, dimension)
            }
            UnaryNode::Transpose => transpose_of(source),
            UnaryNode::Reverse => reverse_of(source),
            UnaryNode::Unpack(schema) => unpack_of(source, schema),
            UnaryNode::Xgrid(sizes) => xgrid_of(source, sizes),
        }
    }
}

impl BinaryNode<'_> {
    /// The operator over two other sources, with copies of its other parts.
    pub fn over(self, alloc: Global, left: Plan, right: Plan) -> Result<Plan, Memory>
        ensures { IfOk result (λ p. p ≡ binary_query self.entry left right) }
    {
        let left = in_box(alloc, left);
        let right = in_box(alloc, right);
        match self {
            BinaryNode::Join(schema) => join_of(left, right, schema),
            BinaryNode::CrossJoin(pairs, schema) => cross_join_of(left, right, pairs, schema),
            BinaryNode::Merge => merge_of(left, right),
            BinaryNode::Concat => concat_of(left, right),
        }
    }
}
