//! The operators whose arguments are read by the schema of their source.
ghost use Rattle.std.specs.Prelude.{◌≤◌, length};
ghost use Rattle.logical_plan.specs.PlanSchema.{schema_of};
ghost use Rattle.check_rules.specs.Checked.{Answers};
ghost use Rattle.afl_types.specs.Inner.BySchema.{by_schema};

use crate::queries::group_calls::{aggregate_call, regrid_call, window_call};
use crate::queries::moved_calls::redimension_call;
use crate::queries::order_calls::{cumulate_call, rank_call, sort_call};
use crate::queries::shape_calls::{unpack_call, xgrid_call};
use afl_trees::Tree;
use cell_values::{Memory, Schema, Span};
use check_rules::{TypeFault, shape_of};
use logical_plan::{Plan, let_go};
use std::alloc::Global;

/// An operator whose arguments are read by the schema of its source.
#[derive(Clone, Copy)]
pub(crate) enum OverSchema {
    Redimension,
    Regrid,
    Window,
    Aggregate,
    Sort,
    Rank,
    Cumulate,
    Unpack,
    Xgrid,
}

impl OverSchema {
    /// The plan over a source of this schema, with the arguments behind it in `text`.
    fn by_schema(
        self,
        alloc: Global,
        text: &[u8],
        span: Span,
        shape: &Schema,
        source: Plan,
        arguments: &[Tree],
    ) -> Result<Plan, TypeFault>
        requires attributes { length shape.now.attributes ≤ 64 }
        requires dimensions { length shape.now.dimensions ≤ 6 }
        ensures { Answers result (by_schema self span shape.now source arguments.now) }
    {
        match self {
            OverSchema::Redimension => {
                redimension_call(alloc, text, span, shape, source, arguments)
            }
            OverSchema::Regrid => regrid_call(alloc, span, shape, source, arguments),
            OverSchema::Window => window_call(alloc, span, shape, source, arguments),
            OverSchema::Aggregate => aggregate_call(alloc, span, shape, source, arguments),
            OverSchema::Sort => sort_call(alloc, span, shape, source, arguments),
            OverSchema::Rank => rank_call(alloc, span, shape, source, arguments),
            OverSchema::Cumulate => cumulate_call(alloc, span, shape, source, arguments),
            OverSchema::Unpack => unpack_call(alloc, span, shape, source, arguments),
            OverSchema::Xgrid => xgrid_call(alloc, span, shape, source, arguments),
        }
    }

    /// The plan over a source, with the arguments behind it in `text`.
    pub(crate) fn ruled(
        self,
        alloc: Global,
        text: &[u8],
        span: Span,
        source: Plan,
        arguments: &[Tree],
    ) -> Result<Plan, TypeFault>
        requires attributes { length (schema_of source).attributes ≤ 64 }
        requires dimensions { length (schema_of source).dimensions ≤ 6 }
        ensures { Answers result (by_schema self span (schema_of source) source arguments.now) }
    {
        match shape_of(alloc, &source) {
            Ok(shape) => self.by_schema(alloc, text, span, &shape, source, arguments),
            Err(Memory) => {
                let_go(source);
                Err(TypeFault::Memory)
            }
        }
    }
}
