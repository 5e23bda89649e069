//! `filter`.
ghost use Rattle.std.specs.Prelude.{◌≤◌, length};
ghost use Rattle.logical_plan.specs.PlanSchema.{schema_of};
ghost use Rattle.check_rules.specs.Checked.{Answers, then};
ghost use Rattle.check_exprs.specs.Expressions.{typed};
ghost use Rattle.check_cellwise.specs.Filter.{filter_by, filter_call, filter_of};

use crate::cells::source::typed_over;
use afl_trees::Tree;
use cell_values::{Kind, Memory, Schema, Span};
use check_exprs::{Operand, fits};
use check_rules::{TypeFault, broken, is_expression, shape_of, wrong_type};
use expr_nulls::let_go_expr;
use logical_plan::{Plan, let_go};
use schema_grammar::TypeKind;
use std::alloc::Global;

/// The cells where an operand is true.
fn filter_by(alloc: Global, source: Plan, test: Operand) -> Result<Plan, TypeFault>
    ensures { Answers result (filter_by source test) }
{
    if !fits(Kind::Bool, test.kind) {
        let span = test.span;
        let_go(source);
        let_go_expr(test.expr);
        return Err(broken(span, TypeKind::WrongType));
    }
    Ok(Plan::filter(alloc, source, test.expr)?)
}

/// The cells of a source of this schema where an expression is true.
#[tactic(auto, using(check_rules::proofs::Steps::ok_then, check_rules::proofs::Steps::err_then))]
fn filter_typed(
    alloc: Global,
    source: Plan,
    schema: &Schema,
    test: &Tree,
) -> Result<Plan, TypeFault>
    requires attributes { length schema.now.attributes ≤ 64 }
    requires dimensions { length schema.now.dimensions ≤ 6 }
    ensures { Answers result (then (typed schema.now.attributes schema.now.dimensions test.now) (filter_by source)) }
{
    match typed_over(alloc, schema, test) {
        Ok(test) => filter_by(alloc, source, test),
        Err(fault) => {
            let_go(source);
            Err(fault)
        }
    }
}

/// The cells of a source of this schema where a tree, an expression, is true.
fn filter_of(alloc: Global, source: Plan, schema: &Schema, test: &Tree) -> Result<Plan, TypeFault>
    requires attributes { length schema.now.attributes ≤ 64 }
    requires dimensions { length schema.now.dimensions ≤ 6 }
    ensures { Answers result (filter_of source schema.now test.now) }
{
    if !is_expression(test) {
        let_go(source);
        return Err(wrong_type(test));
    }
    filter_typed(alloc, source, schema, test)
}

/// The cells of a source where an expression is true.
fn filter_over(alloc: Global, source: Plan, test: &Tree) -> Result<Plan, TypeFault>
    requires attributes { length (schema_of source).attributes ≤ 64 }
    requires dimensions { length (schema_of source).dimensions ≤ 6 }
    ensures { Answers result (filter_of source (schema_of source) test.now) }
{
    match shape_of(alloc, &source) {
        Ok(schema) => filter_of(alloc, source, &schema, test),
        Err(Memory) => {
            let_go(source);
            Err(TypeFault::Memory)
        }
    }
}

/// `filter` of a source, with what stands behind it.
#[tactic(auto, using(crate::proofs::Arguments::few_for_filter, crate::proofs::Arguments::many_for_filter))]
pub fn filter_call(
    alloc: Global,
    span: Span,
    source: Plan,
    arguments: &[Tree],
) -> Result<Plan, TypeFault>
    requires attributes { length (schema_of source).attributes ≤ 64 }
    requires dimensions { length (schema_of source).dimensions ≤ 6 }
    ensures { Answers result (filter_call span source arguments.now) }
{
    match arguments {
        [test] => filter_over(alloc, source, test),
        _ => {
            let_go(source);
            Err(broken(span, TypeKind::WrongCount))
        }
    }
}
