//! Arguments that are checked in turn.
ghost use Rattle.std.specs.Prelude.{◌≡◌, ◌==◌, ◌<◌, ◌^◌, IfSome};
ghost use Rattle.std.specs.List.{list_any};
ghost use Rattle.check_rules.specs.Checked.{Answers};
ghost use Rattle.check_rules.specs.InTurn.{new_place};

use crate::rules::{TypeFault, broken};
use afl_trees::TypeKind;
use cell_values::Span;

/// Whether a place is among those before.
fn is_among(done: &[u32], place: u32) -> bool
    ensures { result ≡ list_any (λ other. other == place) done.now }
{
    done.iter().any(|other| *other == place)
}

/// The place of a name that there is, if it is not among those before.
pub fn new_place(span: Span, done: &[u32], place: Option<usize>) -> Result<u32, TypeFault>
    requires { IfSome place (λ at. at < 2 ^ 32) }
    ensures { Answers result (new_place span done.now place) }
{
    match place {
        Some(place) => {
            let place = place as u32;
            if is_among(done, place) {
                return Err(broken(span, TypeKind::RepeatedName));
            }
            Ok(place)
        }
        None => Err(broken(span, TypeKind::UnknownName)),
    }
}
