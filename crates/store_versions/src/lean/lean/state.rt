//! The core as one value, and its pins and reaps.
ghost use Rattle.std.specs.Prelude.{◌≡◌, ◌<◌, ◌≤◌, ◌-◌, ◌^◌, [], map, IfOk, OnOk, OnErr};
ghost use Rattle.event_core.specs.declared.entry.Entry.TheVariants.{Pin, Unpin, Reap};
ghost use Rattle.event_core.specs.Replay.{core_after};
ghost use Rattle.store_versions.specs.States.{place_of, core_place};

use crate::lean::lean::LeanPin;
use crate::lean::lean::row::Row;
use crate::lean::lean::rows::{first_rows, forget};
use cell_values::{List, Memory};
use event_core::Core;
use plan_changes::Names;
use std::marker::Model;
use std::snapshot::Snapshot;

/// What is known after some entries. Contracts see the core that it stands for, and for how many versions more it has room.
pub struct LeanCore {
    pub(crate) names: Names,
    /// The versions that can be named, now or where an open pin began, in the order in which they came.
    pub(crate) rows: Vec<Row>,
    pub(crate) catalogue: List<u32>,
    pub(crate) pins: Vec<LeanPin>,
    pub(crate) free: List<u32>,
    pub(crate) limit: u32,
    pub(crate) entries: u64,
}

impl Drop for LeanCore {
    fn drop(self) {
        let LeanCore {
            names: _,
            rows: _,
            catalogue: _,
            pins: _,
            free: _,
            limit: _,
            entries: _,
        } = self;
    }
}

impl Model for LeanCore {
    ghost use Rattle.std.specs.Prelude.{◌-◌, vec_capacity, vec_len};
    ghost use Rattle.store_versions.specs.States.{LeanState, core_of};
    ghost use Rattle.store_versions.specs.Inner.Kept.{IsLean};

    ghost Value = { LeanState };

    ghost view = { λ l. record {
      core = core_of l.names l.rows.items l.catalogue l.pins.items l.free l.limit l.entries;
      room = vec_capacity l.rows - vec_len l.rows;
    } };

    ghost invariant = { λ l. IsLean l.rows.items l.pins.items l.entries };
}

impl LeanCore {
    /// A core without pins, in rows.
    pub fn new(core: Core) -> Result<LeanCore, Memory>
        requires { core.pins ≡ [] }
        ensures { IfOk result (λ lean. lean.core ≡ core) }
    {
        let Core {
            names,
            pages,
            catalogue,
            pins,
            free,
            limit,
            entries,
        } = core;
        drop(pins);
        let alloc = free.allocator();
        match first_rows(pages) {
            Ok(rows) => Ok(LeanCore {
                names,
                rows,
                catalogue,
                pins: Vec::new(alloc),
                free,
                limit,
                entries,
            }),
            Err(want) => {
                drop(names);
                drop(catalogue);
                drop(free);
                Err(want)
            }
        }
    }

    /// What can be named now.
    pub fn names(&self) -> &Names
        ensures { result.now ≡ self.now.core.names }
    {
        &self.names
    }

    /// The pages of the catalogue.
    pub fn catalogue(&self) -> &List<u32>
        ensures { result.now ≡ self.now.core.catalogue }
    {
        &self.catalogue
    }

    /// The free pages.
    pub fn free(&self) -> &List<u32>
        ensures { result.now ≡ self.now.core.free }
    {
        &self.free
    }

    /// The open pins, in the order in which they came.
    pub fn pins(&self) -> &[LeanPin]
        ensures { map place_of result.now ≡ map core_place self.now.core.pins }
    {
        self.pins.as_slice()
    }

    /// How many entries there were.
    pub fn entries(&self) -> u64
        ensures { result ≡ self.now.core.entries }
    {
        self.entries
    }

    /// Room for so many versions more.
    pub fn reserve(&mut self, count: usize) -> Result<(), Memory>
        ensures core { self.new.core ≡ self.old.core }
        ensures grows { self.old.room ≤ self.new.room }
        ensures room { OnOk result (count ≤ self.new.room) }
    {
        self.rows.reserve(count)?;
        Ok(())
    }

    /// One more pin. It copies no names and no pages.
    pub fn pin(&mut self, session: u32) -> Result<(), Memory>
        requires { self.old.core.entries < 2 ^ 64 - 1 }
        ensures ok { OnOk result (self.new.core ≡ core_after self.old.core (Pin session)) }
        ensures room { self.new.room ≡ self.old.room }
        ensures err { OnErr result (self.new ≡ self.old) }
    {
        self.pins.push(LeanPin {
            session,
            place: self.entries,
            names: Snapshot::of(&self.names),
        })?;
        self.entries += 1;
        Ok(())
    }

    /// The pin of a session goes, and what it alone could name. This takes no memory.
    pub fn unpin(&mut self, session: u32)
        requires { self.old.core.entries < 2 ^ 64 - 1 }
        ensures core { self.new.core ≡ core_after self.old.core (Unpin session) }
        ensures room { self.old.room ≤ self.new.room }
    {
        self.pins.retain(|pin| !(pin.session == session));
        let pins = self.pins.as_slice();
        forget(&mut self.rows, pins);
        self.entries += 1;
    }

    /// All pages that nobody can name become free.
    pub fn reap(&mut self) -> Result<(), Memory>
        requires { self.old.core.entries < 2 ^ 64 - 1 }
        ensures ok { OnOk result (self.new.core ≡ core_after self.old.core Reap) }
        ensures room { self.new.room ≡ self.old.room }
        ensures err { OnErr result (self.new ≡ self.old) }
    {
        let free = self.unused_pages()?;
        self.free = free;
        self.entries += 1;
        Ok(())
    }
}
