//! The plans of `regrid`, `window` and `aggregate`.
ghost use Rattle.std.specs.Prelude.{◌≤◌, length};
ghost use Rattle.check_rules.specs.Checked.{Answers};
ghost use Rattle.afl_types.specs.Inner.BySchema.{by_schema};
ghost use Rattle.afl_types.specs.declared.queries.shaped_calls.OverSchema.TheVariants.{Regrid, Window, Aggregate};

use crate::queries::made::of_made;
use afl_trees::Tree;
use cell_values::{Schema, Span};
use check_joins::{aggregate_parts, regrid_parts, window_parts};
use check_rules::TypeFault;
use logical_plan::{Plan, let_go};
use std::alloc::Global;

/// `regrid` of a source of this schema, with what stands behind it.
#[tactic(auto, using(crate::proofs::Made::made_then, check_rules::proofs::Steps::err_then))]
pub(crate) fn regrid_call(
    alloc: Global,
    span: Span,
    shape: &Schema,
    source: Plan,
    arguments: &[Tree],
) -> Result<Plan, TypeFault>
    requires { length shape.now.attributes ≤ 64 }
    ensures { Answers result (by_schema Regrid span shape.now source arguments.now) }
{
    match regrid_parts(alloc, span, shape, arguments) {
        Ok(parts) => of_made(
            alloc,
            span,
            Plan::regrid(alloc, source, parts.sizes, parts.aggregates),
        ),
        Err(fault) => {
            let_go(source);
            Err(fault)
        }
    }
}

/// `window` of a source of this schema, with what stands behind it.
#[tactic(auto, using(crate::proofs::Made::made_then, check_rules::proofs::Steps::err_then))]
pub(crate) fn window_call(
    alloc: Global,
    span: Span,
    shape: &Schema,
    source: Plan,
    arguments: &[Tree],
) -> Result<Plan, TypeFault>
    requires attributes { length shape.now.attributes ≤ 64 }
    requires dimensions { length shape.now.dimensions ≤ 6 }
    ensures { Answers result (by_schema Window span shape.now source arguments.now) }
{
    match window_parts(alloc, span, shape, arguments) {
        Ok(parts) => of_made(
            alloc,
            span,
            Plan::window(alloc, source, parts.reach, parts.aggregates),
        ),
        Err(fault) => {
            let_go(source);
            Err(fault)
        }
    }
}

/// `aggregate` of a source of this schema, with what stands behind it.
#[tactic(auto, using(crate::proofs::Made::made_then, check_rules::proofs::Steps::err_then))]
pub(crate) fn aggregate_call(
    alloc: Global,
    span: Span,
    shape: &Schema,
    source: Plan,
    arguments: &[Tree],
) -> Result<Plan, TypeFault>
    requires attributes { length shape.now.attributes ≤ 64 }
    requires dimensions { length shape.now.dimensions ≤ 6 }
    ensures { Answers result (by_schema Aggregate span shape.now source arguments.now) }
{
    match aggregate_parts(alloc, span, shape, arguments) {
        Ok(parts) => of_made(
            alloc,
            span,
            Plan::aggregate(alloc, source, parts.aggregates, parts.places),
        ),
        Err(fault) => {
            let_go(source);
            Err(fault)
        }
    }
}
