//! Chunks of a store, under a pin and now.
ghost use Rattle.std.specs.Prelude.{◌≡◌, ◌≢◌, ℕ, List, length, Err, IfOk, IfErr, IsTrue};
ghost use Rattle.array_geom.specs.Link.{NumbersRise};
ghost use Rattle.chunk_source.specs.Source.{numbers_of, is_among, AreNumbersIn, IsChunkIn, IsStored};
ghost use Rattle.page_chain.specs.Inner.Runs.{OnlyReads};
ghost use Rattle.plan_changes.specs.Databases.{Database, rows_of};
ghost use Rattle.event_core.specs.Allowed.{is_pinned};
ghost use Rattle.event_core.specs.Cells.{at};
ghost use Rattle.event_core.specs.History.{names_at};
ghost use Rattle.store_ledger.specs.Ledger.{IsOpenPin, history};
ghost use Rattle.store_opening.specs.At.{keeping, standing};
ghost use Rattle.store_opening.specs.Calls.{chunks_at, database_with, history_at, payload_at, IsLeafOf, IsUnread, NotesFault};
ghost use Rattle.store_opening.specs.Payloads.{HasTold, WasDamagedAt};
ghost use Rattle.store_opening.specs.Standings.{database_at, BeganAs};
ghost use Rattle.store_opening.specs.ReadFault.TheVariants.{Damaged};
ghost use Rattle.array_store.specs.Growth.{AddsFault};

use crate::store::Store;
use afl_outside::Disk;
use array_geom::Chunk;
use cell_values::{ChunkAt, List, Memory};
use logical_plan::Leaf;
use std::alloc::Global;
use store_ledger::Pinned;
use store_opening::{ReadFault, listed, listed_now, read_chunk, read_now};

impl<D: Disk> Store<D> {
    /// The numbers of a leaf's chunks under a pin, rising.
    pub fn listed(
        &self,
        alloc: Global,
        pinned: &Pinned,
        leaf: &Leaf,
    ) -> Result<List<ChunkAt>, Memory>
        requires open { IsOpenPin self.now.ledger pinned.now }
        requires leaf { IsLeafOf pinned.now.names leaf.now }
        ensures listed { IfOk result (λ chunks. chunks ≡ chunks_at (standing D.moment self.now) pinned.now.place leaf.now) }
        ensures rising { IfOk result (λ chunks. NumbersRise (numbers_of chunks)) }
        ensures told { IfOk result (λ chunks. (db : Database) → BeganAs (D.moment self.now.opened.value.disk).state db
            → AreNumbersIn (rows_of (at db (history_at (standing D.moment self.now) pinned.now.place))) leaf.now chunks) }
    {
        listed(alloc, &self.parts, pinned, leaf)
    }

    /// The numbers of a leaf's chunks now, rising.
    pub fn listed_now(&self, alloc: Global, leaf: &Leaf) -> Result<List<ChunkAt>, Memory>
        requires leaf { IsLeafOf (names_at self.now.ledger.base (history self.now.ledger)) leaf.now }
        ensures listed { IfOk result (λ chunks. chunks ≡ chunks_at (standing D.moment self.now) (length self.now.ledger.entries) leaf.now) }
        ensures rising { IfOk result (λ chunks. NumbersRise (numbers_of chunks)) }
        ensures told { IfOk result (λ chunks. (db : Database) → BeganAs (D.moment self.now.opened.value.disk).state db
            → AreNumbersIn (rows_of (database_at db (standing D.moment self.now))) leaf.now chunks) }
    {
        listed_now(alloc, &self.parts, leaf)
    }

    /// The chunk of a leaf under a pin.
    pub fn read_chunk(
        &mut self,
        alloc: Global,
        pinned: &Pinned,
        leaf: &Leaf,
        at: &ChunkAt,
    ) -> Result<Chunk, ReadFault>
        requires open { IsOpenPin self.old.ledger pinned.now }
        requires leaf { IsLeafOf pinned.now.names leaf.now }
        requires listed { IsTrue (is_among at.now (chunks_at (standing D.moment self.old) pinned.now.place leaf.now)) }
        ensures stored { IfOk result (IsStored leaf.now.schema at.now) }
        ensures told { IfOk result (λ chunk. (db : Database) → BeganAs (D.moment self.old.opened.value.disk).state db
            → IsChunkIn (rows_of (database_with db (standing D.moment self.old) pinned.now.place)) leaf.now chunk) }
        ensures whole { (db : Database) (page : ℕ) → BeganAs (D.moment self.old.opened.value.disk).state db → result ≢ Err (Damaged page) }
        ensures damaged { (page : ℕ) (file : List ℕ) → result ≡ Err (Damaged page) → HasTold (D.moment self.old.opened.value.disk).state file
            → WasDamagedAt page (standing D.moment self.old).first file leaf.now.schema }
        ensures cause { IfErr result (IsUnread (D.moment self.old.file.disk).state (D.moment self.new.file.disk).state leaf.now.schema
            (payload_at (standing D.moment self.old) pinned.now.place leaf.now at.now)) }
        ensures notes { NotesFault (D.moment self.old.file.disk).state (D.moment self.new.file.disk).state pinned.now.session self.old.ledger self.new.ledger }
        ensures adds { AddsFault D.moment pinned.now.session (standing D.moment self.old) (standing D.moment self.new) }
        ensures same { standing D.moment self.new ≡ record (standing D.moment self.old) { disk = self.new.file.disk; ledger = self.new.ledger } }
        ensures kept { keeping self.new ≡ keeping self.old }
        ensures reads { OnlyReads (D.moment self.old.file.disk) (D.moment self.new.file.disk) }
    {
        read_chunk(alloc, &mut self.parts, pinned, leaf, at)
    }

    /// The chunk of a leaf now.
    pub fn read_now(
        &mut self,
        alloc: Global,
        session: u32,
        leaf: &Leaf,
        at: &ChunkAt,
    ) -> Result<Chunk, ReadFault>
        requires pinned { IsTrue (is_pinned session (history self.old.ledger)) }
        requires leaf { IsLeafOf (names_at self.old.ledger.base (history self.old.ledger)) leaf.now }
        requires listed { IsTrue (is_among at.now (chunks_at (standing D.moment self.old) (length self.old.ledger.entries) leaf.now)) }
        ensures stored { IfOk result (IsStored leaf.now.schema at.now) }
        ensures told { IfOk result (λ chunk. (db : Database) → BeganAs (D.moment self.old.opened.value.disk).state db
            → IsChunkIn (rows_of (database_at db (standing D.moment self.old))) leaf.now chunk) }
        ensures whole { (db : Database) (page : ℕ) → BeganAs (D.moment self.old.opened.value.disk).state db → result ≢ Err (Damaged page) }
        ensures damaged { (page : ℕ) (file : List ℕ) → result ≡ Err (Damaged page) → HasTold (D.moment self.old.opened.value.disk).state file
            → WasDamagedAt page (standing D.moment self.old).first file leaf.now.schema }
        ensures cause { IfErr result (IsUnread (D.moment self.old.file.disk).state (D.moment self.new.file.disk).state leaf.now.schema
            (payload_at (standing D.moment self.old) (length self.old.ledger.entries) leaf.now at.now)) }
        ensures notes { NotesFault (D.moment self.old.file.disk).state (D.moment self.new.file.disk).state session self.old.ledger self.new.ledger }
        ensures adds { AddsFault D.moment session (standing D.moment self.old) (standing D.moment self.new) }
        ensures same { standing D.moment self.new ≡ record (standing D.moment self.old) { disk = self.new.file.disk; ledger = self.new.ledger } }
        ensures kept { keeping self.new ≡ keeping self.old }
        ensures reads { OnlyReads (D.moment self.old.file.disk) (D.moment self.new.file.disk) }
    {
        read_now(alloc, &mut self.parts, session, leaf, at)
    }
}
