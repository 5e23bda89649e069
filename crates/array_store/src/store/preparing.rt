//! Commits of a store are prepared.
ghost use Rattle.std.specs.Prelude.{◌≡◌, Bool, false, IfOk, IsTrue};
ghost use Rattle.event_core.specs.Allowed.{is_pinned};
ghost use Rattle.event_core.specs.Bases.{sequence_at};
ghost use Rattle.store_ledger.specs.Ledger.{history, is_noted, is_tried};
ghost use Rattle.store_opening.specs.At.{keeping, standing};
ghost use Rattle.store_opening.specs.Standings.{base_of};
ghost use Rattle.prepared_commits.specs.Needs.{needs};
ghost use Rattle.prepared_commits.specs.Prepared.{IsAsked, IsPreparedFor};
ghost use Rattle.store_sealing.specs.Left.{FitsIn, HasNext, IsLeft, reaped_if, tried_now};
ghost use Rattle.array_store.specs.Growth.{AddsEvents, tried_events};

use crate::store::Store;
use crate::store::store::is_ledger;
use afl_outside::Disk;
use array_geom::Changed;
use plan_changes::Change;
use prepared_commits::{PrepareFault, Prepared};
use std::alloc::Global;
use store_sealing::prepare;

impl<D: Disk> Store<D> {
    /// A commit under a session's pin, with all memory that it needs, before anything of it is written. It is the first that is tried under
    /// the pin, which is noted. Where fewer pages are free than it needs, all that nobody can name become free.
    pub fn prepare(
        &mut self,
        alloc: Global,
        session: u32,
        change: Change,
        changed: Option<Changed>,
    ) -> Result<Prepared, PrepareFault>
        requires pinned { IsTrue (is_pinned session (history self.old.ledger)) }
        requires tried { is_noted is_tried self.old.ledger session ≡ false }
        requires asked { IsAsked D.moment (standing D.moment self.old) change changed }
        ensures left { IsLeft (needs (standing D.moment self.old) (keeping self.old) change changed) (tried_now session change (standing D.moment self.old))
            result (standing D.moment self.new) }
        ensures adds { (comes : Bool) × (standing D.moment self.new ≡ reaped_if comes (tried_now session change (standing D.moment self.old)))
            × AddsEvents (tried_events comes self.old.ledger session change) (standing D.moment self.old) (standing D.moment self.new) }
        ensures ok { IfOk result (IsPreparedFor D.moment self.new changed) }
        ensures kept { keeping self.new ≡ keeping self.old }
        ensures of { IfOk result (λ p. (p.session ≡ session) × (p.commit.change ≡ change)) }
        ensures fits { FitsIn (needs (standing D.moment self.old) (keeping self.old) change changed) result self.new.ledger }
        ensures end { HasNext (sequence_at (base_of (standing D.moment self.old)) (history self.old.ledger)) result }
    {
        is_ledger(&self.parts.ledger);
        prepare(alloc, &mut self.parts, session, change, changed)
    }
}
