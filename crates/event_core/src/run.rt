//! One step, and a whole list of entries.
ghost use Rattle.std.specs.Prelude.{◌≡◌, ◌<◌, ◌-◌, ◌^◌, ◌∷◌, IfOk, IsTrue, reverse};
ghost use Rattle.event_core.specs.declared.state.Core.{Core};
ghost use Rattle.event_core.specs.History.{History};
ghost use Rattle.event_core.specs.Allowed.{IsBase, is_allowed};
ghost use Rattle.event_core.specs.Replay.{core_at, core_after, core_allows};

use crate::{Core, Entry};
use version_reaper::Memory;

/// The core after one more entry. The second clause says that where the core is that of some history, the next one is that of
/// the history with this entry.
pub fn step(core: &Core, entry: &Entry) -> Result<Core, Memory>
    requires room { core.now.entries < 2 ^ 64 - 1 }
    requires allowed { IsTrue (core_allows core.now entry.now) }
    ensures after { IfOk result (λ next. next ≡ core_after core.now entry.now) }
    ensures history { (base : Core) (h : History) → core.now ≡ core_at base h → IfOk result (λ next. next ≡ core_at base (entry.now ∷ h)) }
{
    let mut next = core.copy()?;
    next.advance(entry)?;
    Ok(next)
}

/// The core after entries, the oldest first.
pub fn run_events(base: &Core, entries: &[Entry]) -> Result<Core, Memory>
    requires base { IsBase base.now }
    requires allowed { IsTrue (is_allowed base.now (reverse entries.now)) }
    ensures { IfOk result (λ core. core ≡ core_at base.now (reverse entries.now)) }
{
    let mut core = base.copy()?;
    for entry in entries {
        core.advance(entry)?;
    }
    Ok(core)
}
