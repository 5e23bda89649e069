//! The plan of `redimension`.
ghost use Rattle.std.specs.Prelude.{◌≤◌, length};
ghost use Rattle.check_rules.specs.Checked.{Answers};
ghost use Rattle.afl_types.specs.Inner.BySchema.{by_schema};
ghost use Rattle.afl_types.specs.declared.queries.shaped_calls.OverSchema.TheVariants.{Redimension};

use crate::queries::made::plan_made;
use afl_trees::Tree;
use cell_values::{Schema, Span};
use check_rules::TypeFault;
use check_sources::redimension_parts;
use logical_plan::{Plan, let_go};
use std::alloc::Global;

/// `redimension` of a source of this schema, with what stands behind it in `text`.
#[tactic(auto, using(crate::proofs::Made::planned_then, check_rules::proofs::Steps::err_then))]
pub(crate) fn redimension_call(
    alloc: Global,
    text: &[u8],
    span: Span,
    shape: &Schema,
    source: Plan,
    arguments: &[Tree],
) -> Result<Plan, TypeFault>
    requires { length shape.now.attributes ≤ 64 }
    ensures { Answers result (by_schema Redimension span shape.now source arguments.now) }
{
    match redimension_parts(alloc, text, span, shape, arguments) {
        Ok(parts) => plan_made(Plan::redimension(alloc, source, parts.schema, parts.aggregates)),
        Err(fault) => {
            let_go(source);
            Err(fault)
        }
    }
}
