//! `reverse`.
ghost use Rattle.std.specs.Prelude.{◌≡◌};
ghost use Rattle.logical_plan.specs.Typing.{are_bounded};
ghost use Rattle.check_rules.specs.Checked.{Answers};
ghost use Rattle.check_shapes.specs.Reverse.{reverse_rules};
ghost use Rattle.check_shapes.specs.Tables.{all_hold};

use crate::bounds::is_bounded;
use crate::rules::all_hold;
use cell_values::{Dimension, Schema, Span};
use check_rules::TypeFault;
use schema_grammar::TypeKind;
use schema_grammar::rules::Rule;

fn are_bounded(dimensions: &[Dimension]) -> bool
    ensures { result ≡ are_bounded dimensions.now }
{
    dimensions.iter().all(is_bounded)
}

/// Checks the rules of `reverse` over a source of this schema, whose content stands at a place.
pub fn check_reverse(at: Span, source: &Schema) -> Result<(), TypeFault>
    ensures { Answers result (all_hold (reverse_rules at source.now)) }
{
    all_hold(&[Rule {
        holds: are_bounded(source.dimensions.as_slice()),
        span: at,
        kind: TypeKind::NotBounded,
    }])
}
