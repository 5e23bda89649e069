//! Room for a commit's pages.
ghost use Rattle.std.specs.Prelude.{◌≡◌, ◌≤◌, ◌-◌, ◌^◌, length, min, IsTrue};
ghost use Rattle.store_ledger.specs.Ledger.{MayReap, has_room};
ghost use Rattle.prepared_commits.specs.Parts.{IsFullFor, IsLeft, free_pages, is_short};

use crate::commits::PrepareFault;
use cell_values::Memory;
use store_ledger::Ledger;

/// A count, or the greatest one of 32 bits.
fn at_most(count: u64) -> u32
    ensures { result ≡ min count (2 ^ 32 - 1) }
{
    if count > u64::from(u32::MAX) {
        u32::MAX
    } else {
        count as u32
    }
}

fn is_short(ledger: &Ledger, needed: u64) -> bool
    ensures { result ≡ is_short needed ledger.now }
{
    (ledger.free().len() as u64) < needed
}

/// All pages that nobody can name become free. They have to be so many.
fn reaped(ledger: &mut Ledger, needed: u64) -> Result<(), PrepareFault>
    requires room { IsTrue (has_room ledger.old 1) }
    requires cause { MayReap ledger.old }
    requires short { IsTrue (is_short needed ledger.old) }
    ensures left { IsLeft needed ledger.old result ledger.new }
    ensures full { IsFullFor needed result ledger.new }
{
    match ledger.reap_now() {
        Ok(()) => {
            if is_short(ledger, needed) {
                return Err(PrepareFault::Full {
                    needed: at_most(needed),
                    free: ledger.free_pages(),
                });
            }
            Ok(())
        }
        Err(Memory) => Err(PrepareFault::Memory),
    }
}

/// So many pages are free, after a reap where they are short.
pub(crate) fn make_room(ledger: &mut Ledger, needed: u64) -> Result<(), PrepareFault>
    requires room { IsTrue (has_room ledger.old 1) }
    requires cause { MayReap ledger.old }
    ensures left { IsLeft needed ledger.old result ledger.new }
    ensures full { IsFullFor needed result ledger.new }
{
    if is_short(ledger, needed) {
        return reaped(ledger, needed);
    }
    Ok(())
}
