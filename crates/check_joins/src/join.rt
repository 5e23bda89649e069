//! `join`.
ghost use Rattle.std.specs.Prelude.{◌≡◌, ◌&&◌, ◌++◌, IfOk};
ghost use Rattle.std.specs.Ordering.{int_eq};
ghost use Rattle.logical_plan.specs.PlanSchema.{join_schema};
ghost use Rattle.logical_plan.specs.Typing.{same_bounds};
ghost use Rattle.check_rules.specs.Checked.{Answers};
ghost use Rattle.check_joins.specs.JoinSchemas.{beside, joined_schema};

use crate::beside::{attributes_of_both, beside};
use cell_values::{Dimension, Schema, Span};
use check_rules::{TypeFault, broken};
use schema_grammar::TypeKind;
use std::alloc::Global;

fn has_bounds_of(left: &Dimension, right: &Dimension) -> bool
    ensures { result ≡ (int_eq left.now.lo right.now.lo && int_eq left.now.hi right.now.hi) }
{
    left.lo == right.lo && left.hi == right.hi
}

/// Whether the dimensions are as many and have the same bounds.
pub fn same_bounds(left: &[Dimension], right: &[Dimension]) -> bool
    ensures { result ≡ same_bounds left.now right.now }
{
    match left {
        [] => right.is_empty(),
        [a, left @ ..] => match right {
            [] => false,
            [b, right @ ..] => has_bounds_of(a, b) && same_bounds(left, right),
        },
    }
}

/// The schema of the left's dimensions and the attributes of both.
fn both_sides(alloc: Global, span: Span, left: &Schema, right: &Schema) -> Result<Schema, TypeFault>
    ensures { Answers result (beside span left.now.dimensions (left.now.attributes ++ right.now.attributes)) }
{
    let attributes = attributes_of_both(&left.attributes, &right.attributes)?;
    beside(
        alloc,
        span,
        left.dimensions.as_slice(),
        attributes.as_slice(),
    )
}

/// The schema of `join` over sources of these schemas.
///
/// `span` is that of the whole call. Fails where their numbers of dimensions or a bound differ, and where a name is too long.
pub fn join_schema(
    alloc: Global,
    span: Span,
    left: &Schema,
    right: &Schema,
) -> Result<Schema, TypeFault>
    ensures answer { Answers result (joined_schema span left.now right.now) }
    ensures schema { IfOk result (λ schema. schema ≡ join_schema left.now right.now) }
{
    if !same_bounds(left.dimensions.as_slice(), right.dimensions.as_slice()) {
        return Err(broken(span, TypeKind::BoundsDiffer));
    }
    both_sides(alloc, span, left, right)
}
