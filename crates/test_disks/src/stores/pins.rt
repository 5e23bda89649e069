//! Pins of sessions.
ghost use Rattle.std.specs.Prelude.{◌≡◌, ℕ, IfSome};
ghost use Rattle.store_ledger.specs.Ledger.{LedgerState};
ghost use Rattle.test_disks.specs.Holds.{IsHold, IsPinOf, LeavesAll, LeavesOthers};
ghost use Rattle.test_disks.specs.Inner.Pins.{pin_in};

use afl_outside::Disk;
use array_store::Store;
use cell_values::Memory;
use store_ledger::{PinFault, Pinned};
use test_quiet::{Answer, Hold};

/// The pin of what a session has, if it has one.
pub(crate) fn pin_of(held: &Hold) -> Option<&Pinned>
    ensures { (ledger : LedgerState) (session : ℕ) → IsHold ledger session held.now → IfSome result (λ pinned. IsPinOf ledger session pinned.now) }
{
    match held {
        Hold::Free => None,
        Hold::Pinned(pinned) => Some(pinned),
        Hold::Tried(pinned) => Some(pinned),
    }
}

/// A session that has no pin begins to have one.
pub(crate) fn pinned<D: Disk>(store: &mut Store<D>, session: u32, held: &mut Hold) -> Answer
    requires { IsHold store.old.ledger session held.old }
    ensures own { IsHold store.new.ledger session held.new }
    ensures others { LeavesOthers session store.old.ledger store.new.ledger }
{
    match held {
        Hold::Free => {
            store.names();
            match store.pin(session) {
                Ok(pinned) => {
                    *held = Hold::Pinned(pinned);
                    Answer::Done
                }
                Err(PinFault::HistoryFull { entries }) => Answer::HistoryFull { entries },
                Err(PinFault::Memory) => Answer::Memory,
            }
        }
        _ => Answer::HasPin,
    }
}

/// The pin of what a session had, if it had one.
fn pin_in(held: Hold) -> Option<Pinned>
    ensures { result ≡ pin_in held }
{
    match held {
        Hold::Free => None,
        Hold::Pinned(pinned) => Some(pinned),
        Hold::Tried(pinned) => Some(pinned),
    }
}

/// The pin of a session goes, if it has one.
pub(crate) fn unpinned<D: Disk>(store: &mut Store<D>, session: u32, held: Hold) -> Answer
    requires { IsHold store.old.ledger session held }
    ensures own { IsHold store.new.ledger session Hold.Free }
    ensures others { LeavesOthers session store.old.ledger store.new.ledger }
{
    match pin_in(held) {
        Some(pinned) => {
            store.unpin(pinned);
            Answer::Done
        }
        None => Answer::HasNoPin,
    }
}

/// All pages that nobody can name become free, if that frees one.
pub fn reaped<D: Disk>(store: &mut Store<D>) -> Answer
    ensures { LeavesAll store.old.ledger store.new.ledger }
{
    match store.reap() {
        Ok(comes) => Answer::Reaped(comes),
        Err(Memory) => Answer::Memory,
    }
}
