//! Why a call of a shelf failed.
ghost use Rattle.std.specs.Prelude.{◌≡◌, ◌⊎◌, ◌≤◌};
ghost use Rattle.afl_outside.specs.Counts.{Rose};

use crate::reports::Notice;
use afl_outside::has_risen;

/// A call of the shelf found no memory, or else it failed, which this notice tells.
pub(crate) fn unopened_notice(before: u64, now: u64, fault: Notice) -> Notice
    requires { before ≤ now }
    ensures { ((result ≡ Notice.Memory) × Rose before now) ⊎ ((result ≡ fault) × (Rose before now → ⊥)) }
{
    if has_risen(before, now) {
        Notice::Memory
    } else {
        fault
    }
}
