//! The ledger as one value.
ghost use Rattle.std.specs.Prelude.{◌≡◌, [], length, map, IfOk};
ghost use Rattle.event_core.specs.Allowed.{IsBase};
ghost use Rattle.store_versions.specs.History.{names_at, catalogue_at, open_pins};
ghost use Rattle.store_versions.specs.Pages.{free_at};
ghost use Rattle.store_versions.specs.States.{place_of};
ghost use Rattle.store_ledger.specs.Ledger.{history, has_room, open_place, unused_pages, IsLedger};

use crate::Note;
use cell_values::{List, Memory};
use event_core::{let_go_core, let_go_seen};
use logical_plan::Names;
use std::alloc::Global;
use std::marker::Model;
use std::snapshot::Snapshot;
use store_versions::{Core, Entry, LeanCore, LeanPin};
use version_reaper::PageSet;

/// Entries and notes, with the core that they make of a base. There is always room for the unpin of each open pin, for its first
/// commit with the version that it makes, and for its first note of each kind.
#[derive(Drop)]
pub struct Ledger {
    pub(crate) base: Snapshot<Core>,
    pub(crate) limit: u32,
    pub(crate) entries: Vec<Entry>,
    pub(crate) notes: Vec<Note>,
    pub(crate) core: LeanCore,
    /// How many entries the open pins reserve.
    pub(crate) reserved: u32,
    /// A set that is lent to counts of pages.
    pub(crate) pages: PageSet,
}

impl Model for Ledger {
    ghost use Rattle.std.specs.Prelude.{length, reverse, vec_capacity};
    ghost use Rattle.store_ledger.specs.Ledger.{LedgerState};
    ghost use Rattle.store_ledger.specs.Inner.Kept.{IsKept, HasVersionRoom};

    ghost Value = { LedgerState };

    ghost use Rattle.logical_plan.specs.Lemmas.QueryCode.{query_code};
    ghost use Rattle.std.specs.Coded.{codes};

    ghost coded = { Prim.hlevel (codes, query_code) };

    ghost view = { λ l. record { base = l.base.value; limit = l.limit; entries = l.entries.items; notes = l.notes.items } };

    ghost invariant = { λ l. IsKept l.base.value l.limit (reverse l.entries.items) l.notes.items l.core.core l.reserved
        (vec_capacity l.entries) (vec_capacity l.notes) (length l.pages)
        × HasVersionRoom (reverse l.entries.items) l.core.room };
}

impl Ledger {
    /// A ledger without entries, over a base, that may have so many.
    pub fn new(alloc: Global, base: Core, limit: u32) -> Result<Ledger, Memory>
        requires { IsBase base }
        ensures { IfOk result (λ ledger. ledger ≡ record { base = base; limit = limit; entries = []; notes = [] }) }
    {
        match PageSet::new(alloc, base.limit) {
            Ok(pages) => Ledger::over(alloc, base, limit, pages),
            Err(want) => {
                let_go_core(base);
                Err(want)
            }
        }
    }

    /// A ledger over a base, with a set of as many pages.
    fn over(alloc: Global, base: Core, limit: u32, pages: PageSet) -> Result<Ledger, Memory>
        requires base { IsBase base }
        requires pages { length pages ≡ base.limit }
        ensures { IfOk result (λ ledger. ledger ≡ record { base = base; limit = limit; entries = []; notes = [] }) }
    {
        let start = Snapshot::of(&base);
        match LeanCore::new(base) {
            Ok(core) => Ok(Ledger {
                base: start,
                limit,
                entries: Vec::new(alloc),
                notes: Vec::new(alloc),
                core,
                reserved: 0,
                pages,
            }),
            Err(want) => {
                drop(pages);
                Err(want)
            }
        }
    }

    /// The free pages, rising.
    pub fn free(&self) -> &List<u32>
        ensures free { result.now ≡ free_at self.now.base (history self.now) }
        ensures ledger { IsLedger self.now }
    {
        self.core.free()
    }

    /// The pages of the catalogue.
    pub fn catalogue(&self) -> &List<u32>
        ensures catalogue { result.now ≡ catalogue_at self.now.base (history self.now) }
        ensures ledger { IsLedger self.now }
    {
        self.core.catalogue()
    }

    /// The open pins, the oldest first.
    pub fn pins(&self) -> &[LeanPin]
        ensures pins { map place_of result.now ≡ map open_place (open_pins (history self.now)) }
        ensures ledger { IsLedger self.now }
    {
        self.core.pins()
    }

    /// What can be named now.
    pub fn names(&self) -> &Names
        ensures { result.now ≡ names_at self.now.base (history self.now) }
    {
        self.core.names()
    }

    /// The entries, the oldest first.
    pub fn entries(&self) -> &[Entry]
        ensures { result.now ≡ self.now.entries }
    {
        self.entries.as_slice()
    }

    /// The entries as a list, the oldest first, where the ledger is needed no more.
    pub fn into_entries(self) -> List<Entry>
        ensures { result ≡ self.entries }
    {
        let Ledger {
            base,
            limit: _,
            entries,
            notes,
            core,
            reserved: _,
            pages,
        } = self;
        let_go_seen(base);
        drop(notes);
        drop(core);
        drop(pages);
        List::from_vec(entries)
    }

    /// The notes, the oldest first.
    pub fn notes(&self) -> &[Note]
        ensures { result.now ≡ self.now.notes }
    {
        self.notes.as_slice()
    }

    /// Whether the history has room for so many entries more, beside those that are reserved.
    pub fn has_room(&self, count: u32) -> bool
        ensures { result ≡ has_room self.now count }
    {
        self.entries.len() as u64 + u64::from(self.reserved) + u64::from(count)
            <= u64::from(self.limit)
    }

    /// The number below which its pages are.
    pub fn page_limit(&self) -> u32
        ensures { result ≡ self.now.base.limit }
    {
        self.pages.limit()
    }

    /// How many pages from 1 on nobody can name. This takes no memory.
    pub fn free_pages(&mut self) -> u32
        ensures count { result ≡ length (unused_pages self.old) }
        ensures same { self.new ≡ self.old }
    {
        self.core.count_unused(&mut self.pages)
    }
}
