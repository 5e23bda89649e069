//! Operators on sources that were checked before.
ghost use Rattle.std.specs.Prelude.{IfOk};
ghost use Rattle.logical_plan.specs.Query.{Query};
ghost use Rattle.check_rules.specs.Checked.{Answers, Checked, then};
ghost use Rattle.afl_types.specs.Calls.{ruled, ruled_two};
ghost use Rattle.afl_types.specs.Inner.Limits.{HasSmallSchema};

use crate::queries::call::{OverSource, OverTwo};
use afl_trees::Tree;
use cell_values::Span;
use check_rules::TypeFault;
use logical_plan::{Plan, let_go};
use std::alloc::Global;

/// An operator on a source that was checked.
pub(crate) fn one_checked(
    alloc: Global,
    text: &[u8],
    span: Span,
    operator: OverSource,
    at: Span,
    source: Result<Plan, TypeFault>,
    arguments: &[Tree],
) -> Result<Plan, TypeFault>
    requires { IfOk source HasSmallSchema }
    ensures { (checked : Checked Query) → Answers source checked → Answers result (then checked (λ plan. ruled span operator at plan arguments.now)) }
{
    match source {
        Ok(source) => operator.ruled(alloc, text, span, at, source, arguments),
        Err(fault) => Err(fault),
    }
}

/// An operator on two sources, the right one of which was checked.
fn right_checked(
    alloc: Global,
    span: Span,
    operator: OverTwo,
    at: Span,
    left: Plan,
    right: Result<Plan, TypeFault>,
    arguments: &[Tree],
) -> Result<Plan, TypeFault>
    requires left { HasSmallSchema left }
    requires right { IfOk right HasSmallSchema }
    ensures { (checked : Checked Query) → Answers right checked → Answers result (then checked (λ r. ruled_two span operator at left r arguments.now)) }
{
    match right {
        Ok(right) => operator.ruled(alloc, span, at, left, right, arguments),
        Err(fault) => {
            let_go(left);
            Err(fault)
        }
    }
}

fn let_go_checked(checked: Result<Plan, TypeFault>) {
    match checked {
        Ok(plan) => let_go(plan),
        Err(_) => {}
    }
}

/// An operator on two sources that were checked, of which the left one's fault comes first.
pub(crate) fn two_checked(
    alloc: Global,
    span: Span,
    operator: OverTwo,
    at: Span,
    left: Result<Plan, TypeFault>,
    right: Result<Plan, TypeFault>,
    arguments: &[Tree],
) -> Result<Plan, TypeFault>
    requires left { IfOk left HasSmallSchema }
    requires right { IfOk right HasSmallSchema }
    ensures { (a b : Checked Query) → Answers left a → Answers right b → Answers result (then a (λ l. then b (λ r. ruled_two span operator at l r arguments.now))) }
{
    match left {
        Ok(left) => right_checked(alloc, span, operator, at, left, right, arguments),
        Err(fault) => {
            let_go_checked(right);
            Err(fault)
        }
    }
}
