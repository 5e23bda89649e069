//! The source of what a session's pin sees.
ghost use Rattle.std.specs.Prelude.{◌≡◌};
ghost use Rattle.snapshot_manager.specs.Seats.{HoldsPin, IsIdle, IsSeatOf};
ghost use Rattle.session_sources.specs.Pinned.{pinned_state, unread, HasRead};

use crate::marks::Marks;
use crate::reading::Lent;
use afl_outside::Disk;
use array_geom::Chunk;
use cell_values::{ChunkAt, List};
use chunk_source::{ChunkSource, SourceFault};
use logical_plan::Leaf;
use snapshot_manager::{Seat, Shared};
use std::alloc::Global;
use std::marker::Model;
use std::snapshot::Snapshot;
use std::sync::Wait;
use store_ledger::Pinned;

/// A source over a store that is shared: of what a session's pin sees. It owns the session's seat, with which each call takes a turn.
pub struct PinnedSource<'a, D: Disk, R: Wait> {
    rt: &'a R,
    alloc: Global,
    shared: &'a Shared<D>,
    pinned: &'a Pinned,
    seat: Seat<D>,
    lent: Snapshot<Seat<D>>,
    marks: Marks,
}

impl<'a, D: Disk, R: Wait> Model for PinnedSource<'a, D, R> {
    ghost use Rattle.session_sources.specs.declared.reading.Reading.{Reading};

    ghost Value = { Reading D };

    ghost use Rattle.logical_plan.specs.Lemmas.QueryCode.{query_code};
    ghost use Rattle.std.specs.Coded.{codes};

    ghost coded = { Prim.hlevel (codes, query_code) };

    ghost use Rattle.session_sources.specs.Pinned.{reading_of, HasRead};

    ghost view = { λ s. reading_of s.shared.now s.pinned.now s.lent.value s.seat s.marks };

    ghost invariant = { λ s. HasRead D.moment (reading_of s.shared.now s.pinned.now s.lent.value s.seat s.marks) };
}

impl<'a, D: Disk, R: Wait> PinnedSource<'a, D, R> {
    /// A source of what this pin of the seat's session sees. This takes no memory.
    pub fn new(
        rt: &'a R,
        alloc: Global,
        shared: &'a Shared<D>,
        seat: Seat<D>,
        pinned: &'a Pinned,
    ) -> PinnedSource<'a, D, R>
        requires seat { IsSeatOf shared.now seat × IsIdle seat }
        requires pin { HoldsPin D.moment shared.now seat pinned.now }
        ensures { result ≡ unread shared.now pinned.now seat }
    {
        let lent = Snapshot::of(&seat);
        let _read = seat.reads();
        PinnedSource {
            rt,
            alloc,
            shared,
            pinned,
            seat,
            lent,
            marks: Marks::new(alloc),
        }
    }

    /// Hands the seat back.
    pub fn into_seat(self) -> Seat<D>
        ensures seat { result ≡ self.entry.seat }
        ensures read { HasRead D.moment self.entry }
    {
        let PinnedSource {
            rt: _,
            alloc: _,
            shared: _,
            pinned: _,
            seat,
            lent: _,
            marks,
        } = self;
        drop(marks);
        seat
    }
}

impl<'a, D: Disk, R: Wait> ChunkSource for PinnedSource<'a, D, R> {
    type Start = Lent<D>;

    ghost state = { λ r. pinned_state D.moment r };

    ghost start = { λ r. r.lent };

    fn listed(&mut self, leaf: &Leaf) -> Result<List<ChunkAt>, SourceFault> {
        if leaf.version == 0 {
            return Ok(List::new(self.alloc));
        }
        let chunks = self
            .shared
            .listed(self.rt, self.alloc, &mut self.seat, self.pinned, leaf)?;
        Ok(chunks)
    }

    fn chunk(&mut self, number: u32, leaf: &Leaf, at: &ChunkAt) -> Result<Chunk, SourceFault> {
        self.marks.ask(number, at)?;
        let answer = self
            .shared
            .read_chunk(self.rt, self.alloc, &mut self.seat, self.pinned, leaf, at);
        self.marks.answer(answer)
    }

    fn damaged(&self) -> Option<u32> {
        self.marks.damaged
    }

    fn faults(&self) -> u64 {
        self.marks.faults
    }
}
