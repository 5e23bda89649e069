//! Calls that are no query.
ghost use Rattle.std.specs.Prelude.{◌≡◌, Err};
ghost use Rattle.logical_plan.specs.Query.{Query};
ghost use Rattle.check_rules.specs.Checked.{Answers};
ghost use Rattle.check_rules.specs.Operators.{operator_named};
ghost use Rattle.afl_types.specs.Nested.{nested, stands_alone};

use cell_values::Span;
use check_rules::{Operator, TypeFault, broken, name_span, operator_named};
use schema_grammar::TypeKind;

/// Whether a call of an operator changes arrays or lists something.
fn stands_alone(operator: Option<Operator>) -> bool
    ensures { result ≡ stands_alone operator }
{
    matches!(
        operator,
        Some(
            Operator::Store
                | Operator::Insert
                | Operator::Remove
                | Operator::RemoveVersions
                | Operator::Versions
                | Operator::Show
                | Operator::ListNames
        )
    )
}

/// Why a call of an operator that gives no array is no query.
pub(crate) fn no_query(span: Span, name: &[u8]) -> TypeFault
    ensures { Answers {A = Query} (Err result) (nested span name.now (operator_named name.now)) }
{
    if stands_alone(operator_named(name)) {
        broken(span, TypeKind::WrongType)
    } else {
        broken(name_span(span, name), TypeKind::UnknownName)
    }
}
