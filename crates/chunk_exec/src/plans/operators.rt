//! What the last operator of a plan makes of the arrays of its sources, none of which is broken.
ghost use Rattle.std.specs.Prelude.{◌≡◌, [], ◌∷◌, None, IfOk};
ghost use Rattle.logical_plan.specs.Arity.{binary_query, unary_query};
ghost use Rattle.logical_plan.specs.PlanSchema.{schema_of};
ghost use Rattle.chunk_exec.specs.Inner.Operated.{CanOperate, IsResultOf};

use afl_outside::Gate;
use array_geom::ChunkedArray;
use cell_values::{Memory, Schema};
use chunk_workers::Crew;
use exec_box::{between, slice_owned, subarray_owned};
use exec_cellwise::{apply, filter, project};
use exec_group::{aggregate, regrid};
use exec_join::{cross_join, join};
use logical_plan::{BinaryNode, Plan, UnaryNode};
use order_exec::{cumulate, rank, sort};
use redimension_exec::redimension;
use shape_exec::{concat, merge, reverse, transpose, unpack, xgrid};
use std::thread::Threads;
use window_overlap::window;

/// The array of a plan of one source. The target is the plan's schema.
pub(crate) fn of_one<R: Threads + Sync, G: Gate>(
    crew: &mut Crew<'_, R, G>,
    plan: &Plan,
    from: &Plan,
    node: UnaryNode<'_>,
    array: ChunkedArray,
    target: Schema,
) -> Result<ChunkedArray, Memory>
    requires can { CanOperate plan.now (array ∷ []) }
    requires node { plan.now ≡ unary_query node from.now }
    requires target { target ≡ schema_of plan.now }
    requires whole { array.broken ≡ None }
    ensures { IfOk result (IsResultOf plan.now (array ∷ [])) }
{
    match node {
        UnaryNode::Filter(test) => filter(crew, array, target, test),
        UnaryNode::Apply(values) => apply(crew, array, target, values.as_slice()),
        UnaryNode::Project(places) => project(crew, array, target, places.as_slice()),
        UnaryNode::Between(area) => between(crew, array, target, area),
        UnaryNode::Subarray(area) => subarray_owned(array, area),
        UnaryNode::Slice(fixed) => slice_owned(array, fixed.as_slice()),
        UnaryNode::Redimension(schema, aggs) => redimension(array, schema, aggs.as_slice()),
        UnaryNode::Regrid(sizes, aggs) => {
            regrid(crew, array, sizes.as_slice(), aggs.as_slice(), &target)
        }
        UnaryNode::Window(reach, aggs) => {
            window(crew, array, reach.as_slice(), aggs.as_slice(), &target)
        }
        UnaryNode::Aggregate(aggs, places) => {
            aggregate(crew, array, aggs.as_slice(), places.as_slice(), &target)
        }
        UnaryNode::Sort(keys, schema) => sort(crew.rt, array, keys.as_slice(), schema),
        UnaryNode::Rank(place, dims) => rank(array, place, dims.as_slice(), &target),
        UnaryNode::Cumulate(aggs, dim) => cumulate(array, aggs.as_slice(), dim, &target),
        UnaryNode::Transpose => transpose(crew, array, &target),
        UnaryNode::Reverse => reverse(crew, array, &target),
        UnaryNode::Unpack(schema) => unpack(array, schema),
        UnaryNode::Xgrid(sizes) => xgrid(crew, array, sizes.as_slice(), &target),
    }
}

/// The array of a plan of two sources. The target is the plan's schema.
pub(crate) fn of_two<R: Threads + Sync, G: Gate>(
    crew: &mut Crew<'_, R, G>,
    plan: &Plan,
    left: &Plan,
    right: &Plan,
    node: BinaryNode<'_>,
    a: ChunkedArray,
    b: ChunkedArray,
    target: &Schema,
) -> Result<ChunkedArray, Memory>
    requires can { CanOperate plan.now (a ∷ b ∷ []) }
    requires node { plan.now ≡ binary_query node left.now right.now }
    requires target { target.now ≡ schema_of plan.now }
    requires left_whole { a.broken ≡ None }
    requires right_whole { b.broken ≡ None }
    ensures { IfOk result (IsResultOf plan.now (a ∷ b ∷ [])) }
{
    match node {
        BinaryNode::Join(schema) => join(crew, a, b, schema),
        BinaryNode::CrossJoin(pairs, schema) => cross_join(a, b, pairs.as_slice(), schema),
        BinaryNode::Merge => merge(crew, a, b, target),
        BinaryNode::Concat => concat(crew, a, b, target),
    }
}
