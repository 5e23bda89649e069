//! The operators that are built: what a call is by its operator, and the rules of an operator on one source or two.
ghost use Rattle.std.specs.Prelude.{◌≡◌, ◌≤◌, length};
ghost use Rattle.logical_plan.specs.PlanSchema.{schema_of};
ghost use Rattle.check_rules.specs.Checked.{Answers};
ghost use Rattle.afl_types.specs.Calls.{are_pairs, call_of, fits_count, fits_two, ruled, ruled_two};

use crate::queries::join_calls::{cross_call, join_call};
use crate::queries::shape_calls::{concat_call, merge_call, reverse_call, transpose_call};
use crate::queries::shaped_calls::OverSchema;
use afl_trees::Tree;
use cell_values::Span;
use check_cellwise::{
    apply_call, between_call, filter_call, project_call, slice_call, subarray_call,
};
use check_rules::{Operator, TypeFault};
use logical_plan::Plan;
use std::alloc::Global;

/// A call of an operator that is built.
#[derive(Clone, Copy)]
pub enum Call {
    Build,
    Scan,
    /// The first argument is the source.
    Over(OverSource),
    /// The first two arguments are the sources.
    Two(OverTwo),
}

/// An operator on a source.
#[derive(Clone, Copy)]
pub enum OverSource {
    Filter,
    Apply,
    Project,
    Between,
    Subarray,
    Slice,
    Redimension,
    Regrid,
    Window,
    Aggregate,
    Sort,
    Rank,
    Cumulate,
    Transpose,
    Reverse,
    Unpack,
    Xgrid,
}

/// An operator on two sources.
#[derive(Clone, Copy)]
pub enum OverTwo {
    Join,
    CrossJoin,
    Merge,
    Concat,
}

pub(crate) fn call_of(operator: Option<Operator>) -> Option<Call>
    ensures { result ≡ call_of operator }
{
    match operator {
        Some(Operator::Build) => Some(Call::Build),
        Some(Operator::Scan) => Some(Call::Scan),
        Some(Operator::Filter) => Some(Call::Over(OverSource::Filter)),
        Some(Operator::Apply) => Some(Call::Over(OverSource::Apply)),
        Some(Operator::Project) => Some(Call::Over(OverSource::Project)),
        Some(Operator::Between) => Some(Call::Over(OverSource::Between)),
        Some(Operator::Subarray) => Some(Call::Over(OverSource::Subarray)),
        Some(Operator::Slice) => Some(Call::Over(OverSource::Slice)),
        Some(Operator::Redimension) => Some(Call::Over(OverSource::Redimension)),
        Some(Operator::Regrid) => Some(Call::Over(OverSource::Regrid)),
        Some(Operator::Window) => Some(Call::Over(OverSource::Window)),
        Some(Operator::Aggregate) => Some(Call::Over(OverSource::Aggregate)),
        Some(Operator::Sort) => Some(Call::Over(OverSource::Sort)),
        Some(Operator::Rank) => Some(Call::Over(OverSource::Rank)),
        Some(Operator::Cumulate) => Some(Call::Over(OverSource::Cumulate)),
        Some(Operator::Transpose) => Some(Call::Over(OverSource::Transpose)),
        Some(Operator::Reverse) => Some(Call::Over(OverSource::Reverse)),
        Some(Operator::Unpack) => Some(Call::Over(OverSource::Unpack)),
        Some(Operator::Xgrid) => Some(Call::Over(OverSource::Xgrid)),
        Some(Operator::Join) => Some(Call::Two(OverTwo::Join)),
        Some(Operator::CrossJoin) => Some(Call::Two(OverTwo::CrossJoin)),
        Some(Operator::Merge) => Some(Call::Two(OverTwo::Merge)),
        Some(Operator::Concat) => Some(Call::Two(OverTwo::Concat)),
        _ => None,
    }
}

fn are_pairs(count: usize) -> bool
    ensures { result ≡ are_pairs count }
{
    1 <= count && count % 2 == 0
}

impl OverSource {
    /// Whether so many arguments may stand behind the source.
    pub(crate) fn fits_count(self, count: usize) -> bool
        ensures { result ≡ fits_count self count }
    {
        match self {
            OverSource::Transpose | OverSource::Reverse => count == 0,
            OverSource::Filter | OverSource::Unpack => count == 1,
            OverSource::Apply | OverSource::Slice => are_pairs(count),
            OverSource::Project | OverSource::Redimension | OverSource::Sort | OverSource::Rank => 1
                <= count,
            OverSource::Between
            | OverSource::Subarray
            | OverSource::Regrid
            | OverSource::Window
            | OverSource::Aggregate
            | OverSource::Cumulate
            | OverSource::Xgrid => true,
        }
    }

    /// The plan over a source, whose content stands at a place, with the arguments behind it in `text`.
    pub(crate) fn ruled(
        self,
        alloc: Global,
        text: &[u8],
        span: Span,
        at: Span,
        source: Plan,
        arguments: &[Tree],
    ) -> Result<Plan, TypeFault>
        requires attributes { length (schema_of source).attributes ≤ 64 }
        requires dimensions { length (schema_of source).dimensions ≤ 6 }
        ensures { Answers result (ruled span self at source arguments.now) }
    {
        match self {
            OverSource::Filter => filter_call(alloc, span, source, arguments),
            OverSource::Apply => apply_call(alloc, span, source, arguments),
            OverSource::Project => project_call(alloc, span, source, arguments),
            OverSource::Between => between_call(alloc, span, source, arguments),
            OverSource::Subarray => subarray_call(alloc, span, source, arguments),
            OverSource::Slice => slice_call(alloc, span, source, arguments),
            OverSource::Redimension => OverSchema::Redimension.ruled(
                alloc, text, span, source, arguments,
            ),
            OverSource::Regrid => OverSchema::Regrid.ruled(alloc, text, span, source, arguments),
            OverSource::Window => OverSchema::Window.ruled(alloc, text, span, source, arguments),
            OverSource::Aggregate => OverSchema::Aggregate.ruled(
                alloc, text, span, source, arguments,
            ),
            OverSource::Sort => OverSchema::Sort.ruled(alloc, text, span, source, arguments),
            OverSource::Rank => OverSchema::Rank.ruled(alloc, text, span, source, arguments),
            OverSource::Cumulate => OverSchema::Cumulate.ruled(
                alloc, text, span, source, arguments,
            ),
            OverSource::Transpose => transpose_call(alloc, span, source),
            OverSource::Reverse => reverse_call(alloc, at, source),
            OverSource::Unpack => OverSchema::Unpack.ruled(alloc, text, span, source, arguments),
            OverSource::Xgrid => OverSchema::Xgrid.ruled(alloc, text, span, source, arguments),
        }
    }
}

impl OverTwo {
    /// Whether so many arguments may stand behind the sources.
    pub(crate) fn fits_count(self, count: usize) -> bool
        ensures { result ≡ fits_two self count }
    {
        match self {
            OverTwo::Join | OverTwo::Merge | OverTwo::Concat => count == 0,
            OverTwo::CrossJoin => are_pairs(count),
        }
    }

    /// The plan over two sources, the left one's content at a place, with the arguments behind them.
    pub(crate) fn ruled(
        self,
        alloc: Global,
        span: Span,
        at: Span,
        left: Plan,
        right: Plan,
        arguments: &[Tree],
    ) -> Result<Plan, TypeFault>
        requires left { length (schema_of left).dimensions ≤ 6 }
        requires right { length (schema_of right).dimensions ≤ 6 }
        ensures { Answers result (ruled_two span self at left right arguments.now) }
    {
        match self {
            OverTwo::Join => join_call(alloc, span, left, right),
            OverTwo::CrossJoin => cross_call(alloc, span, left, right, arguments),
            OverTwo::Merge => merge_call(alloc, span, left, right),
            OverTwo::Concat => concat_call(alloc, span, at, left, right),
        }
    }
}
