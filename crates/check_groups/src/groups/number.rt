//! Numbers among the arguments.
ghost use Rattle.check_rules.specs.Checked.{Answers};
ghost use Rattle.check_groups.specs.Numbers.{at_least, number_from};

use afl_trees::Tree;
use cell_values::Span;
use check_rules::{TypeFault, broken, number_in};
use schema_grammar::TypeKind;

fn at_least(least: i64, span: Span, number: Option<i64>) -> Result<u64, TypeFault>
    ensures { Answers result (at_least least span number) }
{
    match number {
        Some(number) => {
            if number < least {
                return Err(broken(span, TypeKind::OutOfRange));
            }
            Ok(number.unsigned_abs())
        }
        None => Err(broken(span, TypeKind::WrongType)),
    }
}

/// The number that an argument is, where it isn't below the least.
pub(crate) fn number_from(least: i64, tree: &Tree) -> Result<u64, TypeFault>
    ensures { Answers result (number_from least tree.now) }
{
    at_least(least, tree.span, number_in(tree))
}
