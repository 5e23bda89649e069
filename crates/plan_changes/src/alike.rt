//! Schemas that are alike.
ghost use Rattle.std.specs.Prelude.{◌≡◌};
ghost use Rattle.expr_nulls.specs.Typing.{same_kind};
ghost use Rattle.logical_plan.specs.Typing.{same_bounds};
ghost use Rattle.plan_changes.specs.Typed.{same_kinds, are_alike};

use expr_nulls::{Attribute, Dimension, Kind, Schema};

fn same_kind(a: Kind, b: Kind) -> bool
    ensures { result ≡ same_kind a b }
{
    matches!(
        (a, b),
        (Kind::Int64, Kind::Int64) | (Kind::Str, Kind::Str) | (Kind::Bool, Kind::Bool)
    )
}

/// Whether attributes have the same kinds in order.
fn same_kinds(a: &[Attribute], b: &[Attribute]) -> bool
    ensures { result ≡ same_kinds a.now b.now }
{
    match a {
        [] => b.is_empty(),
        [first, left @ ..] => match b {
            [] => false,
            [other, right @ ..] => same_kind(first.kind, other.kind) && same_kinds(left, right),
        },
    }
}

/// Whether dimensions have the same bounds in order.
fn same_bounds(a: &[Dimension], b: &[Dimension]) -> bool
    ensures { result ≡ same_bounds a.now b.now }
{
    match a {
        [] => b.is_empty(),
        [first, left @ ..] => match b {
            [] => false,
            [other, right @ ..] => {
                first.lo == other.lo && first.hi == other.hi && same_bounds(left, right)
            }
        },
    }
}

/// Whether two schemas have the same kinds of attributes and the same bounds of dimensions, in order. Names, nulls, chunks and
/// overlaps may differ.
pub fn are_alike(a: &Schema, b: &Schema) -> bool
    ensures { result ≡ are_alike a.now b.now }
{
    same_kinds(a.attributes.as_slice(), b.attributes.as_slice())
        && same_bounds(a.dimensions.as_slice(), b.dimensions.as_slice())
}
