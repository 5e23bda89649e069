//! `merge` and `concat`.
ghost use Rattle.std.specs.Prelude.{◌≡◌};
ghost use Rattle.logical_plan.specs.Typing.{same_kinds};
ghost use Rattle.check_rules.specs.Checked.{Answers};
ghost use Rattle.check_shapes.specs.Pairs.{concat_rules, ends_first, has_room_behind, merge_rules, same_rest};
ghost use Rattle.check_shapes.specs.Tables.{all_hold};

use crate::bounds::{fits_behind, is_bounded};
use crate::rules::all_hold;
use cell_values::{Attribute, Dimension, Schema, Span};
use check_joins::same_bounds;
use check_rules::TypeFault;
use schema_grammar::TypeKind;
use schema_grammar::rules::Rule;

/// Whether the attributes are as many and of the same types.
fn same_kinds(left: &[Attribute], right: &[Attribute]) -> bool
    ensures { result ≡ same_kinds left.now right.now }
{
    match left {
        [] => right.is_empty(),
        [a, left @ ..] => match right {
            [] => false,
            [b, right @ ..] => a.kind == b.kind && same_kinds(left, right),
        },
    }
}

/// Checks the rules of `merge` over sources of these schemas. `span` is that of the whole call.
pub fn check_merge(span: Span, left: &Schema, right: &Schema) -> Result<(), TypeFault>
    ensures { Answers result (all_hold (merge_rules span left.now right.now)) }
{
    all_hold(&[
        Rule {
            holds: same_bounds(left.dimensions.as_slice(), right.dimensions.as_slice()),
            span,
            kind: TypeKind::BoundsDiffer,
        },
        Rule {
            holds: same_kinds(left.attributes.as_slice(), right.attributes.as_slice()),
            span,
            kind: TypeKind::SchemaDiffers,
        },
    ])
}

/// Whether the first dimension has an end.
fn ends_first(dimensions: &[Dimension]) -> bool
    ensures { result ≡ ends_first dimensions.now }
{
    match dimensions {
        [] => false,
        [first, ..] => is_bounded(first),
    }
}

/// Whether the dimensions but the first have the same bounds.
fn same_rest(left: &[Dimension], right: &[Dimension]) -> bool
    ensures { result ≡ same_rest left.now right.now }
{
    match left {
        [] => false,
        [_, left @ ..] => match right {
            [] => false,
            [_, right @ ..] => same_bounds(left, right),
        },
    }
}

/// Whether the right's first dimension has room behind the left's.
fn has_room_behind(left: &[Dimension], right: &[Dimension]) -> bool
    ensures { result ≡ has_room_behind left.now right.now }
{
    match left {
        [] => false,
        [l, ..] => match right {
            [] => false,
            [r, ..] => fits_behind(l, r),
        },
    }
}

/// Checks the rules of `concat` over sources of these schemas, the left one's content at a place. `span` is that of the whole call.
pub fn check_concat(span: Span, at: Span, left: &Schema, right: &Schema) -> Result<(), TypeFault>
    ensures { Answers result (all_hold (concat_rules span at left.now right.now)) }
{
    all_hold(&[
        Rule {
            holds: ends_first(left.dimensions.as_slice()),
            span: at,
            kind: TypeKind::NotBounded,
        },
        Rule {
            holds: same_rest(left.dimensions.as_slice(), right.dimensions.as_slice()),
            span,
            kind: TypeKind::BoundsDiffer,
        },
        Rule {
            holds: same_kinds(left.attributes.as_slice(), right.attributes.as_slice()),
            span,
            kind: TypeKind::SchemaDiffers,
        },
        Rule {
            holds: has_room_behind(left.dimensions.as_slice(), right.dimensions.as_slice()),
            span,
            kind: TypeKind::BoundsRange,
        },
    ])
}
