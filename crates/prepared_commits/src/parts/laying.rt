//! What is laid of a commit in the first free pages.
ghost use Rattle.std.specs.Prelude.{◌≡◌, ◌≤◌, ◌<◌, ◌+◌, ◌^◌, ℕ, length, IfOk, IfSome, IsTrue};
ghost use Rattle.std.specs.Option.{is_some, option_copied};
ghost use Rattle.chunk_map.specs.Entries.{AreRising};
ghost use Rattle.plan_changes.specs.Allowed.{names_allow};
ghost use Rattle.version_catalog.specs.Catalogs.{names_in};
ghost use Rattle.event_core.specs.Apart.{makes_version};
ghost use Rattle.page_chain.specs.declared.slots.slots.slots.Target.TheVariants as targets;
ghost use Rattle.store_state.specs.Commits.{record_needs, base_needs};
ghost use Rattle.store_state.specs.Versions.{IsWritten};
ghost use Rattle.prepared_commits.specs.Needs.{needs_by, or_empty};
ghost use Rattle.prepared_commits.specs.Layouts.{IsLayout};

use crate::commits::NewBase;
use cell_values::{List, Memory};
use chunk_map::Directory;
use page_chain::Target;
use plan_changes::Change;
use std::alloc::Global;
use store_state::{Laid, Written, lay_base, lay_record};
use version_catalog::Catalog;

/// What is laid of a commit, and its new base, where it isn't a record.
#[derive(Drop)]
pub struct Layout {
    pub laid: Laid,
    pub base: Option<NewBase>,
}

/// A record in the first free pages.
fn record_layout(
    alloc: Global,
    sequence: u64,
    catalog: &Catalog,
    catalogue: &[u32],
    newest: &Directory,
    change: &Change,
    written: Option<Written>,
    free: &[u32],
    needed: usize,
) -> Result<Layout, Memory>
    requires names { IsTrue (names_allow (names_in catalog.now) change.now) }
    requires comes { is_some written ≡ makes_version change.now }
    requires written { IfSome written IsWritten }
    requires newest { AreRising newest.now.entries }
    requires needed { needed ≡ record_needs catalog.now newest.now change.now written }
    requires enough { needed ≤ length free.now }
    requires few { needed < 2 ^ 32 }
    ensures { IfOk result (IsLayout targets.Record sequence catalog.now catalogue.now newest.now change.now written free.now) }
{
    let pages = &free[..needed];
    match lay_record(alloc, catalog, catalogue, newest, change, written, pages) {
        Ok(laid) => Ok(Layout { laid, base: None }),
        Err(Memory) => Err(Memory),
    }
}

/// A new base in the first free pages, and its log in the next one.
fn base_layout(
    alloc: Global,
    sequence: u64,
    catalog: &Catalog,
    catalogue: &[u32],
    newest: &Directory,
    change: &Change,
    written: Option<Written>,
    free: &[u32],
    needed: usize,
) -> Result<Layout, Memory>
    requires names { IsTrue (names_allow (names_in catalog.now) change.now) }
    requires comes { is_some written ≡ makes_version change.now }
    requires written { IfSome written IsWritten }
    requires newest { AreRising newest.now.entries }
    requires needed { needed ≡ base_needs catalog.now newest.now change.now written }
    requires enough { needed < length free.now }
    requires few { needed < 2 ^ 32 }
    ensures { IfOk result (IsLayout targets.Root sequence catalog.now catalogue.now newest.now change.now written free.now) }
{
    let pages = &free[..needed];
    let log = free[needed];
    match lay_base(alloc, catalog, newest, change, written, pages, log) {
        Ok(laid) => Ok(Layout {
            laid,
            base: Some(NewBase { sequence, log }),
        }),
        Err(Memory) => Err(Memory),
    }
}

/// The commit in the first free pages, of which there are as many as it needs.
fn either_layout(
    alloc: Global,
    target: Target,
    sequence: u64,
    catalog: &Catalog,
    catalogue: &[u32],
    newest: &Directory,
    change: &Change,
    written: Option<Written>,
    free: &[u32],
    needed: usize,
) -> Result<Layout, Memory>
    requires names { IsTrue (names_allow (names_in catalog.now) change.now) }
    requires comes { is_some written ≡ makes_version change.now }
    requires written { IfSome written IsWritten }
    requires newest { AreRising newest.now.entries }
    requires needed { needed ≡ needs_by target catalog.now newest.now change.now written }
    requires enough { needed ≤ length free.now }
    requires few { needed < 2 ^ 32 }
    ensures { IfOk result (IsLayout target sequence catalog.now catalogue.now newest.now change.now written free.now) }
{
    match target {
        Target::Record => record_layout(
            alloc, sequence, catalog, catalogue, newest, change, written, free, needed,
        ),
        Target::Root => base_layout(
            alloc,
            sequence,
            catalog,
            catalogue,
            newest,
            change,
            written,
            free,
            needed - 1,
        ),
    }
}

/// The same over the newest version's directory, where there is one.
pub(crate) fn layout_over(
    alloc: Global,
    target: Target,
    sequence: u64,
    catalog: &Catalog,
    catalogue: &[u32],
    newest: Option<&Directory>,
    change: &Change,
    written: Option<Written>,
    free: &[u32],
    needed: usize,
) -> Result<Layout, Memory>
    requires names { IsTrue (names_allow (names_in catalog.now) change.now) }
    requires comes { is_some written ≡ makes_version change.now }
    requires written { IfSome written IsWritten }
    requires newest { AreRising (or_empty (option_copied newest)).entries }
    requires needed { needed ≡ needs_by target catalog.now (or_empty (option_copied newest)) change.now written }
    requires enough { needed ≤ length free.now }
    requires few { needed < 2 ^ 32 }
    ensures { IfOk result (IsLayout target sequence catalog.now catalogue.now (or_empty (option_copied newest.entry)) change.now written free.now) }
{
    match newest {
        Some(newest) => either_layout(
            alloc, target, sequence, catalog, catalogue, newest, change, written, free, needed,
        ),
        None => {
            let newest = Directory {
                entries: List::new(alloc),
            };
            either_layout(
                alloc, target, sequence, catalog, catalogue, &newest, change, written, free, needed,
            )
        }
    }
}
