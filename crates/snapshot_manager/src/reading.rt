//! What a pin sees.
ghost use Rattle.std.specs.Prelude.{◌≡◌, ◌≢◌, ℕ, List, [], Err, IfOk, IfErr, IsTrue};
ghost use Rattle.afl_outside.specs.Counts.{risen};
ghost use Rattle.array_geom.specs.Link.{NumbersRise};
ghost use Rattle.chunk_source.specs.Source.{numbers_of, is_among, AreNumbersIn, IsChunkIn, IsStored};
ghost use Rattle.plan_changes.specs.Databases.{Database, rows_of};
ghost use Rattle.array_store.specs.Calls.{chunks_at, database_with, payload_at, IsLeafOf};
ghost use Rattle.store_state.specs.Payloads.{HasTold, WasDamagedAt};
ghost use Rattle.array_store.specs.Standings.{BeganAs};
ghost use Rattle.array_store.specs.ReadFault.TheVariants.{Damaged};
ghost use Rattle.array_store.specs.Faults.{IsUnreadUnder};
ghost use Rattle.snapshot_manager.specs.Seats.{ledger_seen, read_count, seen, session_of, start, store_seen, HoldsPin, IsIdle, IsSameSeat, IsSeatOf};
ghost use Rattle.array_store.specs.Turns.{Adds, AddsAtMostNote};

use crate::seat::Seat;
use crate::shared::Shared;
use afl_outside::Disk;
use array_geom::Chunk;
use array_store::ReadFault;
use cell_values::{ChunkAt, List, Memory};
use logical_plan::Leaf;
use std::alloc::Global;
use std::sync::Wait;
use store_ledger::Pinned;

impl<D: Disk> Shared<D> {
    /// The numbers of a leaf's chunks under the session's pin, rising.
    pub fn listed<R: Wait>(
        &self,
        rt: &R,
        alloc: Global,
        seat: &mut Seat<D>,
        pinned: &Pinned,
        leaf: &Leaf,
    ) -> Result<List<ChunkAt>, Memory>
        requires seat { IsSeatOf self.now seat.old × IsIdle seat.old }
        requires pin { HoldsPin D.moment self.now seat.old pinned.now }
        requires leaf { IsLeafOf pinned.now.names leaf.now }
        ensures seat { IsSeatOf self.now seat.new × IsIdle seat.new }
        ensures same { IsSameSeat seat.old seat.new }
        ensures reads { read_count seat.new ≡ read_count seat.old }
        ensures adds { Adds (session_of seat.old) [] (seen seat.old) (seen seat.new) }
        ensures pin { HoldsPin D.moment self.now seat.new pinned.now }
        ensures listed { IfOk result (λ chunks. chunks ≡ chunks_at (store_seen D.moment self.now seat.old) pinned.now.place leaf.now) }
        ensures rising { IfOk result (λ chunks. NumbersRise (numbers_of chunks)) }
        ensures told { IfOk result (λ chunks. (db : Database) → BeganAs (D.moment (start D.moment self.now).opened.disk).state db
            → AreNumbersIn (rows_of (database_with db (store_seen D.moment self.now seat.old) pinned.now.place)) leaf.now chunks) }
    {
        let mut turn = self.begin(rt, seat);
        let answer = turn.value().listed(alloc, pinned, leaf);
        self.end(seat, turn);
        answer
    }

    /// The chunk of a leaf under the session's pin.
    pub fn read_chunk<R: Wait>(
        &self,
        rt: &R,
        alloc: Global,
        seat: &mut Seat<D>,
        pinned: &Pinned,
        leaf: &Leaf,
        at: &ChunkAt,
    ) -> Result<Chunk, ReadFault>
        requires seat { IsSeatOf self.now seat.old × IsIdle seat.old }
        requires pin { HoldsPin D.moment self.now seat.old pinned.now }
        requires leaf { IsLeafOf pinned.now.names leaf.now }
        requires listed { IsTrue (is_among at.now (chunks_at (store_seen D.moment self.now seat.old) pinned.now.place leaf.now)) }
        ensures seat { IsSeatOf self.now seat.new × IsIdle seat.new }
        ensures same { IsSameSeat seat.old seat.new }
        ensures reads { read_count seat.new ≡ risen (read_count seat.old) }
        ensures adds { AddsAtMostNote (start D.moment self.now) (session_of seat.old) (seen seat.old) (seen seat.new) }
        ensures pin { HoldsPin D.moment self.now seat.new pinned.now }
        ensures stored { IfOk result (IsStored leaf.now.schema at.now) }
        ensures told { IfOk result (λ chunk. (db : Database) → BeganAs (D.moment (start D.moment self.now).opened.disk).state db
            → IsChunkIn (rows_of (database_with db (store_seen D.moment self.now seat.old) pinned.now.place)) leaf.now chunk) }
        ensures whole { (db : Database) (page : ℕ) → BeganAs (D.moment (start D.moment self.now).opened.disk).state db → result ≢ Err (Damaged page) }
        ensures damaged { (page : ℕ) (file : List ℕ) → result ≡ Err (Damaged page) → HasTold (D.moment (start D.moment self.now).opened.disk).state file
            → WasDamagedAt page (store_seen D.moment self.now seat.old).first file leaf.now.schema }
        ensures cause { IfErr result (IsUnreadUnder (ledger_seen D.moment self.now seat.new) (session_of seat.old)
            (payload_at (store_seen D.moment self.now seat.old) pinned.now.place leaf.now at.now)) }
    {
        seat.reads = seat.reads.saturating_add(1);
        let mut turn = self.begin(rt, seat);
        let answer = turn.value().read_chunk(alloc, pinned, leaf, at);
        self.end(seat, turn);
        answer
    }
}
