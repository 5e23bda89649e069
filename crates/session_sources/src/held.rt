//! The source of what a store has in a turn that is held.
ghost use Rattle.std.specs.Prelude.{◌≡◌, IsTrue};
ghost use Rattle.event_core.specs.Allowed.{is_pinned};
ghost use Rattle.store_ledger.specs.Ledger.{history};
ghost use Rattle.snapshot_manager.specs.Seats.{store_of};
ghost use Rattle.session_sources.specs.Held.{held_state, unheld, HasHeld};

use crate::holding::LentTurn;
use crate::marks::Marks;
use afl_outside::Disk;
use array_geom::Chunk;
use cell_values::{ChunkAt, List};
use chunk_source::{ChunkSource, SourceFault};
use logical_plan::Leaf;
use snapshot_manager::StoreTurn;
use std::alloc::Global;
use std::marker::Model;
use std::snapshot::Snapshot;
use store_ledger::let_go_seen;

/// A source over the store of a turn that a session holds: of what can be named now. It owns the turn.
pub struct HeldSource<D: Disk> {
    alloc: Global,
    session: u32,
    turn: StoreTurn<D>,
    lent: Snapshot<StoreTurn<D>>,
    marks: Marks,
}

impl<D: Disk> Model for HeldSource<D> {
    ghost use Rattle.session_sources.specs.declared.holding.Holding.{Holding};

    ghost Value = { Holding D };

    ghost use Rattle.logical_plan.specs.Lemmas.QueryCode.{query_code};
    ghost use Rattle.std.specs.Coded.{codes};

    ghost coded = { Prim.hlevel (codes, query_code) };

    ghost use Rattle.session_sources.specs.Held.{holding_of, HasHeld};

    ghost view = { λ s. holding_of s.session s.lent.value s.turn s.marks };

    ghost invariant = { λ s. HasHeld D.moment (holding_of s.session s.lent.value s.turn s.marks) };
}

impl<D: Disk> HeldSource<D> {
    /// A source of what can be named in this turn of the session, which is pinned there. This takes no memory.
    pub fn new(alloc: Global, turn: StoreTurn<D>, session: u32) -> HeldSource<D>
        requires { IsTrue (is_pinned session (history (store_of turn).ledger)) }
        ensures { result ≡ unheld session turn }
    {
        let lent = Snapshot::of(&turn);
        HeldSource {
            alloc,
            session,
            turn,
            lent,
            marks: Marks::new(alloc),
        }
    }

    /// Hands the turn back.
    pub fn into_turn(self) -> StoreTurn<D>
        ensures turn { result ≡ self.turn }
        ensures held { HasHeld D.moment self }
    {
        let HeldSource {
            alloc: _,
            session: _,
            turn,
            lent,
            marks,
        } = self;
        let_go_seen(lent);
        drop(marks);
        turn
    }
}

impl<D: Disk> ChunkSource for HeldSource<D> {
    type Start = LentTurn<D>;

    ghost state = { λ h. held_state D.moment h };

    ghost start = { λ h. h.lent };

    fn listed(&mut self, leaf: &Leaf) -> Result<List<ChunkAt>, SourceFault> {
        if leaf.version == 0 {
            return Ok(List::new(self.alloc));
        }
        let chunks = self.turn.value().listed_now(self.alloc, leaf)?;
        Ok(chunks)
    }

    fn chunk(&mut self, number: u32, leaf: &Leaf, at: &ChunkAt) -> Result<Chunk, SourceFault> {
        self.marks.ask(number, at)?;
        let answer = self
            .turn
            .value()
            .read_now(self.alloc, self.session, leaf, at);
        self.marks.answer(answer)
    }

    fn damaged(&self) -> Option<u32> {
        self.marks.damaged
    }

    fn faults(&self) -> u64 {
        self.marks.faults
    }
}
