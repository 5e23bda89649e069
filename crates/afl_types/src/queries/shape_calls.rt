//! The plans of `transpose`, `reverse`, `unpack`, `xgrid`, `merge` and `concat`.
ghost use Rattle.logical_plan.specs.PlanSchema.{schema_of};
ghost use Rattle.check_rules.specs.Checked.{Answers};
ghost use Rattle.check_shapes.specs.Pairs.{concat_rules, merge_rules};
ghost use Rattle.check_shapes.specs.Reverse.{reverse_rules};
ghost use Rattle.check_shapes.specs.Tables.{all_hold};
ghost use Rattle.afl_types.specs.Inner.BySchema.{by_schema};
ghost use Rattle.afl_types.specs.ShapeCalls.{concat_call, merge_call, reverse_call, transpose_call};
ghost use Rattle.afl_types.specs.declared.queries.shaped_calls.OverSchema.TheVariants.{Unpack, Xgrid};

use crate::queries::made::{of_made, plan_made};
use afl_trees::Tree;
use cell_values::{Schema, Span};
use check_rules::{TypeFault, shape_of};
use check_shapes::{check_concat, check_merge, check_reverse, unpack_parts, xgrid_parts};
use logical_plan::{Plan, let_go};
use std::alloc::Global;

/// `transpose` of a source.
pub(crate) fn transpose_call(alloc: Global, span: Span, source: Plan) -> Result<Plan, TypeFault>
    ensures { Answers result (transpose_call span source) }
{
    of_made(alloc, span, Plan::transpose(alloc, source))
}

fn check_reverse_of(alloc: Global, at: Span, source: &Plan) -> Result<(), TypeFault>
    ensures { Answers result (all_hold (reverse_rules at (schema_of source.now))) }
{
    let schema = shape_of(alloc, source)?;
    check_reverse(at, &schema)
}

/// `reverse` of a source, whose content stands at a place.
#[tactic(auto, using(crate::proofs::Made::planned_then, check_rules::proofs::Steps::err_then))]
pub(crate) fn reverse_call(alloc: Global, at: Span, source: Plan) -> Result<Plan, TypeFault>
    ensures { Answers result (reverse_call at source) }
{
    match check_reverse_of(alloc, at, &source) {
        Ok(()) => plan_made(Plan::reverse(alloc, source)),
        Err(fault) => {
            let_go(source);
            Err(fault)
        }
    }
}

/// `unpack` of a source of this schema, with the name behind it.
#[tactic(auto, using(crate::proofs::Made::made_then, check_rules::proofs::Steps::err_then))]
pub(crate) fn unpack_call(
    alloc: Global,
    span: Span,
    shape: &Schema,
    source: Plan,
    arguments: &[Tree],
) -> Result<Plan, TypeFault>
    ensures { Answers result (by_schema Unpack span shape.now source arguments.now) }
{
    match unpack_parts(alloc, span, shape, arguments) {
        Ok(schema) => of_made(alloc, span, Plan::unpack(alloc, source, schema)),
        Err(fault) => {
            let_go(source);
            Err(fault)
        }
    }
}

/// `xgrid` of a source of this schema, with the numbers behind it.
#[tactic(auto, using(crate::proofs::Made::made_then, check_rules::proofs::Steps::err_then))]
pub(crate) fn xgrid_call(
    alloc: Global,
    span: Span,
    shape: &Schema,
    source: Plan,
    arguments: &[Tree],
) -> Result<Plan, TypeFault>
    ensures { Answers result (by_schema Xgrid span shape.now source arguments.now) }
{
    match xgrid_parts(alloc, span, shape, arguments) {
        Ok(sizes) => of_made(alloc, span, Plan::xgrid(alloc, source, sizes)),
        Err(fault) => {
            let_go(source);
            Err(fault)
        }
    }
}

fn check_merge_of(alloc: Global, span: Span, left: &Plan, right: &Plan) -> Result<(), TypeFault>
    ensures { Answers result (all_hold (merge_rules span (schema_of left.now) (schema_of right.now))) }
{
    let left_schema = shape_of(alloc, left)?;
    let right_schema = shape_of(alloc, right)?;
    check_merge(span, &left_schema, &right_schema)
}

/// `merge` of two sources.
#[tactic(auto, using(crate::proofs::Made::made_then, check_rules::proofs::Steps::err_then))]
pub(crate) fn merge_call(
    alloc: Global,
    span: Span,
    left: Plan,
    right: Plan,
) -> Result<Plan, TypeFault>
    ensures { Answers result (merge_call span left right) }
{
    match check_merge_of(alloc, span, &left, &right) {
        Ok(()) => of_made(alloc, span, Plan::merge(alloc, left, right)),
        Err(fault) => {
            let_go(left);
            let_go(right);
            Err(fault)
        }
    }
}

fn check_concat_of(
    alloc: Global,
    span: Span,
    at: Span,
    left: &Plan,
    right: &Plan,
) -> Result<(), TypeFault>
    ensures { Answers result (all_hold (concat_rules span at (schema_of left.now) (schema_of right.now))) }
{
    let left_schema = shape_of(alloc, left)?;
    let right_schema = shape_of(alloc, right)?;
    check_concat(span, at, &left_schema, &right_schema)
}

/// `concat` of two sources, the left one's content at a place.
#[tactic(auto, using(crate::proofs::Made::made_then, check_rules::proofs::Steps::err_then))]
pub(crate) fn concat_call(
    alloc: Global,
    span: Span,
    at: Span,
    left: Plan,
    right: Plan,
) -> Result<Plan, TypeFault>
    ensures { Answers result (concat_call span at left right) }
{
    match check_concat_of(alloc, span, at, &left, &right) {
        Ok(()) => of_made(alloc, span, Plan::concat(alloc, left, right)),
        Err(fault) => {
            let_go(left);
            let_go(right);
            Err(fault)
        }
    }
}
