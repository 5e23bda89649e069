//! The plans of `sort`, `rank` and `cumulate`.
ghost use Rattle.std.specs.Prelude.{◌≤◌, length};
ghost use Rattle.check_rules.specs.Checked.{Answers};
ghost use Rattle.afl_types.specs.Inner.BySchema.{by_schema};
ghost use Rattle.afl_types.specs.declared.queries.shaped_calls.OverSchema.TheVariants.{Sort, Rank, Cumulate};

use crate::queries::made::of_made;
use afl_trees::Tree;
use cell_values::{Schema, Span};
use check_groups::cumulate_parts;
use check_rules::TypeFault;
use check_shapes::{rank_parts, sort_parts};
use logical_plan::{Plan, let_go};
use std::alloc::Global;

/// `sort` of a source of this schema, with the names behind it.
#[tactic(auto, using(crate::proofs::Made::made_then, check_rules::proofs::Steps::err_then))]
pub(crate) fn sort_call(
    alloc: Global,
    span: Span,
    shape: &Schema,
    source: Plan,
    arguments: &[Tree],
) -> Result<Plan, TypeFault>
    requires { length shape.now.attributes ≤ 64 }
    ensures { Answers result (by_schema Sort span shape.now source arguments.now) }
{
    match sort_parts(alloc, span, shape, arguments) {
        Ok(parts) => of_made(
            alloc,
            span,
            Plan::sort(alloc, source, parts.keys, parts.schema),
        ),
        Err(fault) => {
            let_go(source);
            Err(fault)
        }
    }
}

/// `rank` of a source of this schema, with the names behind it.
#[tactic(auto, using(crate::proofs::Made::made_then, check_rules::proofs::Steps::err_then))]
pub(crate) fn rank_call(
    alloc: Global,
    span: Span,
    shape: &Schema,
    source: Plan,
    arguments: &[Tree],
) -> Result<Plan, TypeFault>
    requires attributes { length shape.now.attributes ≤ 64 }
    requires dimensions { length shape.now.dimensions ≤ 6 }
    ensures { Answers result (by_schema Rank span shape.now source arguments.now) }
{
    match rank_parts(alloc, span, shape, arguments) {
        Ok(parts) => of_made(
            alloc,
            span,
            Plan::rank(alloc, source, parts.attribute, parts.dimensions),
        ),
        Err(fault) => {
            let_go(source);
            Err(fault)
        }
    }
}

/// `cumulate` of a source of this schema, with what stands behind it.
#[tactic(auto, using(crate::proofs::Made::made_then, check_rules::proofs::Steps::err_then))]
pub(crate) fn cumulate_call(
    alloc: Global,
    span: Span,
    shape: &Schema,
    source: Plan,
    arguments: &[Tree],
) -> Result<Plan, TypeFault>
    requires attributes { length shape.now.attributes ≤ 64 }
    requires dimensions { length shape.now.dimensions ≤ 6 }
    ensures { Answers result (by_schema Cumulate span shape.now source arguments.now) }
{
    match cumulate_parts(alloc, span, shape, arguments) {
        Ok(parts) => of_made(
            alloc,
            span,
            Plan::cumulate(alloc, source, parts.aggregates, parts.dimension),
        ),
        Err(fault) => {
            let_go(source);
            Err(fault)
        }
    }
}
