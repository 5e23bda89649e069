//! The first half of a commit, which takes all memory.
ghost use Rattle.std.specs.Prelude.{◌≡◌, ◌&&◌, [], nat_eq, IfOk, IsTrue};
ghost use Rattle.std.specs.List.{filter};
ghost use Rattle.plan_changes.specs.Allowed.{names_allow};
ghost use Rattle.plan_changes.specs.Changes.{newest_of};
ghost use Rattle.event_core.specs.History.{is_pages_of};

use crate::lean::lean::LeanCore;
use crate::lean::lean::rows::standing_pages;
use cell_values::{List, Memory, Name};
use event_core::{Core, Ready, Used, VersionPages};
use plan_changes::{Change, changed_name, newest_of};
use std::marker::Model;
use std::snapshot::Snapshot;

/// All that a commit needs. Contracts see the core, the change and the pages that it was made for.
#[derive(Drop)]
pub struct LeanReady {
    pub(crate) lean: Snapshot<LeanCore>,
    pub(crate) ready: Ready,
    /// The names, the catalogue, and the array's newest version alone: the fresh pages go by these.
    pub(crate) part: Core,
}

impl Model for LeanReady {
    ghost use Rattle.std.specs.Prelude.{◌≡◌};
    ghost use Rattle.event_core.specs.Ready.{ReadyFor};
    ghost use Rattle.store_versions.specs.Inner.Kept.{IsPart};

    ghost Value = { ReadyFor };

    ghost use Rattle.plan_changes.specs.QueryCode.{query_code};
    ghost use Rattle.std.specs.Coded.{codes};

    ghost coded = { Prim.hlevel (codes, query_code) };

    ghost view = { λ r. record { core = r.lean.value.core; change = r.ready.change; used = r.ready.used } };

    ghost invariant = { λ r. (r.ready.core ≡ r.part) × IsPart r.lean.value.core r.ready.change r.ready.used r.part };
}

impl LeanCore {
    /// The newest version of an array, and the catalogue.
    fn part_lists(&self, name: &Name) -> Result<(List<VersionPages>, List<u32>), Memory>
        ensures pages { IfOk result (λ lists. lists.0
            ≡ filter (λ v. is_pages_of name.now v && nat_eq v.version (newest_of self.now.core.names.arrays name.now)) self.now.core.pages) }
        ensures catalogue { IfOk result (λ lists. lists.1 ≡ self.now.core.catalogue) }
    {
        let newest = newest_of(&self.names.arrays, name);
        let rows = self.rows.as_slice();
        let catalogue = self.catalogue.copy()?;
        match standing_pages(rows, name, newest, self.free.another()) {
            Ok(pages) => Ok((pages, catalogue)),
            Err(want) => {
                drop(catalogue);
                Err(want)
            }
        }
    }

    /// The names, the catalogue, and the newest version of an array.
    fn part_of(&self, name: &Name) -> Result<Core, Memory>
        ensures { IfOk result (λ part. part ≡ record {
          names = self.now.core.names;
          pages = filter (λ v. is_pages_of name.now v && nat_eq v.version (newest_of self.now.core.names.arrays name.now)) self.now.core.pages;
          catalogue = self.now.core.catalogue;
          pins = [];
          free = [];
          limit = self.now.core.limit;
          entries = 0;
        }) }
    {
        let (pages, catalogue) = self.part_lists(name)?;
        match self.names.copy() {
            Ok(names) => Ok(Core {
                names,
                pages,
                catalogue,
                pins: self.free.another(),
                free: self.free.another(),
                limit: self.limit,
                entries: 0,
            }),
            Err(want) => {
                drop(pages);
                drop(catalogue);
                Err(want)
            }
        }
    }

    /// Takes all memory that a commit of a change needs, but for the room of a version.
    pub fn ready(&self, change: &Change, used: &Used) -> Result<LeanReady, Memory>
        requires { IsTrue (names_allow self.now.core.names change.now) }
        ensures { IfOk result (λ ready. ready ≡ record { core = self.now.core; change = change.now; used = used.now }) }
    {
        let part = self.part_of(changed_name(change))?;
        match part.ready(change, used) {
            Ok(ready) => Ok(LeanReady {
                lean: Snapshot::of(self),
                ready,
                part,
            }),
            Err(want) => {
                drop(part);
                Err(want)
            }
        }
    }
}
