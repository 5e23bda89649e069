//! Plans that are made before their schemas are looked at.
ghost use Rattle.std.specs.Prelude.{◌≡◌, IfOk, Ok};
ghost use Rattle.logical_plan.specs.Query.{Query};
ghost use Rattle.check_rules.specs.Checked.{Answers};
ghost use Rattle.check_rules.specs.NewSchema.{of_new_schema};

use cell_values::{Memory, Span};
use check_rules::{TypeFault, of_new_schema};
use logical_plan::Plan;
use std::alloc::Global;

/// The plan that is made, where its schema is within the limits.
pub(crate) fn of_made(
    alloc: Global,
    span: Span,
    made: Result<Plan, Memory>,
) -> Result<Plan, TypeFault>
    ensures { (query : Query) → IfOk made (λ plan. plan ≡ query) → Answers result (of_new_schema span query) }
{
    match made {
        Ok(plan) => of_new_schema(alloc, span, plan),
        Err(Memory) => Err(TypeFault::Memory),
    }
}

/// The plan that is made.
pub(crate) fn plan_made(made: Result<Plan, Memory>) -> Result<Plan, TypeFault>
    ensures { (query : Query) → IfOk made (λ plan. plan ≡ query) → Answers result (Ok query) }
{
    match made {
        Ok(plan) => Ok(plan),
        Err(Memory) => Err(TypeFault::Memory),
    }
}
