//! Reaps.
ghost use Rattle.std.specs.Prelude.{◌≡◌, [], ◌∷◌, if◌then◌else◌, IfOk, OnErr};
ghost use Rattle.event_core.specs.declared.entry.Entry.TheVariants.{Reap};
ghost use Rattle.store_ledger.specs.Ledger.{reap_comes};
ghost use Rattle.store_state.specs.At.{AreParts, keeping, standing};
ghost use Rattle.store_state.specs.Standings.{with_entries};

use crate::state::StoreParts;
use afl_outside::Disk;
use cell_values::Memory;

/// All pages that nobody can name become free, if that frees one and the history has room for it. The answer tells whether.
pub fn reap<D: Disk>(parts: &mut StoreParts<D>) -> Result<bool, Memory>
    requires { AreParts D.moment parts.old }
    ensures at { AreParts D.moment parts.new }
    ensures comes { IfOk result (λ comes. comes ≡ reap_comes parts.old.ledger) }
    ensures ok { IfOk result (λ comes. standing D.moment parts.new ≡
        (if comes then with_entries (Reap ∷ []) (standing D.moment parts.old) else standing D.moment parts.old)) }
    ensures kept { keeping parts.new ≡ keeping parts.old }
    ensures err { OnErr result (standing D.moment parts.new ≡ standing D.moment parts.old) }
{
    match parts.ledger.reap() {
        Ok(comes) => Ok(comes),
        Err(want) => Err(want),
    }
}
