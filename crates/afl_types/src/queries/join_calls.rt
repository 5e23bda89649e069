//! The plans of `join` and `cross_join`.
ghost use Rattle.std.specs.Prelude.{◌≤◌, length};
ghost use Rattle.logical_plan.specs.PlanSchema.{schema_of};
ghost use Rattle.check_rules.specs.Checked.{Answers};
ghost use Rattle.check_joins.specs.Crosses.{cross_parts};
ghost use Rattle.check_joins.specs.JoinSchemas.{joined_schema};
ghost use Rattle.afl_types.specs.JoinCalls.{cross_call, join_call};

use crate::queries::made::of_made;
use afl_trees::Tree;
use cell_values::{Schema, Span};
use check_joins::{Crossed, cross_parts, join_schema};
use check_rules::{TypeFault, shape_of};
use logical_plan::{Plan, let_go};
use std::alloc::Global;

fn joined_over(alloc: Global, span: Span, left: &Plan, right: &Plan) -> Result<Schema, TypeFault>
    ensures { Answers result (joined_schema span (schema_of left.now) (schema_of right.now)) }
{
    let left_schema = shape_of(alloc, left)?;
    let right_schema = shape_of(alloc, right)?;
    join_schema(alloc, span, &left_schema, &right_schema)
}

/// `join` of two sources.
#[tactic(auto, using(crate::proofs::Made::made_then, check_rules::proofs::Steps::err_then))]
pub(crate) fn join_call(
    alloc: Global,
    span: Span,
    left: Plan,
    right: Plan,
) -> Result<Plan, TypeFault>
    ensures { Answers result (join_call span left right) }
{
    match joined_over(alloc, span, &left, &right) {
        Ok(schema) => of_made(alloc, span, Plan::join(alloc, left, right, schema)),
        Err(fault) => {
            let_go(left);
            let_go(right);
            Err(fault)
        }
    }
}

fn crossed_over(
    alloc: Global,
    span: Span,
    left: &Plan,
    right: &Plan,
    arguments: &[Tree],
) -> Result<Crossed, TypeFault>
    requires left { length (schema_of left.now).dimensions ≤ 6 }
    requires right { length (schema_of right.now).dimensions ≤ 6 }
    ensures { Answers result (cross_parts span (schema_of left.now) (schema_of right.now) arguments.now) }
{
    let left_schema = shape_of(alloc, left)?;
    let right_schema = shape_of(alloc, right)?;
    cross_parts(alloc, span, &left_schema, &right_schema, arguments)
}

/// `cross_join` of two sources, with the names behind them.
#[tactic(auto, using(crate::proofs::Made::made_then, check_rules::proofs::Steps::err_then))]
pub(crate) fn cross_call(
    alloc: Global,
    span: Span,
    left: Plan,
    right: Plan,
    arguments: &[Tree],
) -> Result<Plan, TypeFault>
    requires left { length (schema_of left).dimensions ≤ 6 }
    requires right { length (schema_of right).dimensions ≤ 6 }
    ensures { Answers result (cross_call span left right arguments.now) }
{
    match crossed_over(alloc, span, &left, &right, arguments) {
        Ok(parts) => of_made(
            alloc,
            span,
            Plan::cross_join(alloc, left, right, parts.pairs, parts.schema),
        ),
        Err(fault) => {
            let_go(left);
            let_go(right);
            Err(fault)
        }
    }
}
