//! A prepared commit over a catalogue, a table and a ledger.
ghost use Rattle.std.specs.Prelude.{◌≡◌, ◌≤◌, ◌<◌, ◌^◌, length, IfOk, IfSome, IsTrue};
ghost use Rattle.std.specs.Option.{is_some};
ghost use Rattle.chunk_map.specs.Entries.{AreRising};
ghost use Rattle.plan_changes.specs.Allowed.{names_allow};
ghost use Rattle.version_catalog.specs.Catalogs.{names_in};
ghost use Rattle.event_core.specs.Apart.{makes_version};
ghost use Rattle.event_core.specs.History.{catalogue_at, names_at};
ghost use Rattle.store_state.specs.Versions.{IsWritten};
ghost use Rattle.store_ledger.specs.Ledger.{MayReap, has_room, history};
ghost use Rattle.prepared_commits.specs.Needs.{needs_by};
ghost use Rattle.prepared_commits.specs.Layouts.{IsLayout};
ghost use Rattle.prepared_commits.specs.Parts.{IsFullFor, IsLeft, IsPreparedAs, IsReadyAs, free_pages, newest_at};

use crate::commits::{
    NewBase, PrepareFault, Prepared, let_go_catalog, let_go_pages, let_go_written,
};
use crate::parts::Layout;
use crate::parts::counting::{needed_over, newest_at};
use crate::parts::laying::layout_over;
use crate::parts::ready::ready_both;
use crate::parts::room::make_room;
use cell_values::{List, Memory};
use chunk_map::Directory;
use event_core::Used;
use page_chain::Target;
use page_file::Placed;
use plan_changes::{Change, let_go_change};
use std::alloc::Global;
use store_ledger::{Ledger, ReadyCommit};
use store_state::{Laid, Written};
use store_versions::{ReadyVersion, VersionTable};
use version_catalog::Catalog;

/// What is written, and the next catalogue.
struct Parts {
    blobs: List<Placed>,
    chain: Placed,
    catalog: Catalog,
    base: Option<NewBase>,
}

fn assembled(
    session: u32,
    parts: Parts,
    commit: ReadyCommit,
    version: Option<ReadyVersion>,
) -> Prepared
    ensures { result ≡ record {
      session = session;
      blobs = parts.blobs;
      chain = parts.chain;
      base = parts.base;
      catalog = parts.catalog;
      commit = commit;
      version = version;
    } }
{
    let Parts {
        blobs,
        chain,
        catalog,
        base,
    } = parts;
    Prepared {
        session,
        blobs,
        chain,
        base,
        catalog,
        commit,
        version,
    }
}

/// Lets the parts go.
fn let_go_parts(parts: Parts) {
    let Parts {
        blobs,
        chain,
        catalog,
        base: _,
    } = parts;
    let_go_pages(blobs, chain);
    let_go_catalog(catalog);
}

/// What is laid, in the parts that go their own ways.
fn parted(layout: Layout) -> (Parts, Option<Directory>, Used)
    ensures parts { result.0 ≡ record {
      blobs = layout.laid.blobs;
      chain = layout.laid.chain;
      catalog = layout.laid.catalog;
      base = layout.base;
    } }
    ensures directory { result.1 ≡ layout.laid.directory }
    ensures used { result.2 ≡ layout.laid.used }
{
    let Layout { laid, base } = layout;
    let Laid {
        blobs,
        chain,
        directory,
        at,
        catalog,
        used,
    } = laid;
    drop(at);
    let parts = Parts {
        blobs,
        chain,
        catalog,
        base,
    };
    (parts, directory, used)
}

/// The commit of what is laid.
fn prepared_by(
    ledger: &Ledger,
    table: &VersionTable,
    session: u32,
    change: Change,
    layout: Layout,
) -> Result<Prepared, Memory>
    requires names { IsTrue (names_allow (names_at ledger.now.base (history ledger.now)) change) }
    requires comes { is_some layout.laid.directory ≡ makes_version change }
    ensures { IfOk result (IsReadyAs layout change session (length table.now.rows) ledger.now) }
{
    let (parts, directory, used) = parted(layout);
    match ready_both(ledger, table, change, directory, used) {
        Ok((commit, version)) => Ok(assembled(session, parts, commit, version)),
        Err(Memory) => {
            let_go_parts(parts);
            Err(Memory)
        }
    }
}

/// What is laid of a commit in the first free pages, of which there are as many as it needs.
fn laid_over(
    alloc: Global,
    target: Target,
    sequence: u64,
    catalog: &Catalog,
    table: &VersionTable,
    ledger: &Ledger,
    place: u64,
    change: &Change,
    written: Option<Written>,
    needed: u64,
) -> Result<Layout, Memory>
    requires names { IsTrue (names_allow (names_in catalog.now) change.now) }
    requires comes { is_some written ≡ makes_version change.now }
    requires written { IfSome written IsWritten }
    requires newest { AreRising (newest_at (names_at ledger.now.base (history ledger.now)) table.now.rows place change.now).entries }
    requires needed { needed ≡ needs_by target catalog.now
        (newest_at (names_at ledger.now.base (history ledger.now)) table.now.rows place change.now) change.now written }
    requires enough { needed ≤ length (free_pages ledger.now) }
    ensures { IfOk result (IsLayout target sequence catalog.now (catalogue_at ledger.now.base (history ledger.now))
        (newest_at (names_at ledger.now.base (history ledger.now)) table.now.rows place change.now) change.now written (free_pages ledger.now)) }
{
    // A file has no more pages than 32 bits count.
    if needed > u64::from(u32::MAX) {
        let_go_written(written);
        return Err(Memory);
    }
    let newest = newest_at(table, ledger.names(), place, change);
    layout_over(
        alloc,
        target,
        sequence,
        catalog,
        ledger.catalogue().as_slice(),
        newest,
        change,
        written,
        ledger.free().as_slice(),
        needed as usize,
    )
}

/// The prepared commit, once there are as many free pages as it needs.
fn made_over(
    alloc: Global,
    target: Target,
    sequence: u64,
    catalog: &Catalog,
    table: &VersionTable,
    ledger: &Ledger,
    place: u64,
    session: u32,
    change: Change,
    written: Option<Written>,
    needed: u64,
) -> Result<Prepared, Memory>
    requires names { names_in catalog.now ≡ names_at ledger.now.base (history ledger.now) }
    requires allow { IsTrue (names_allow (names_in catalog.now) change) }
    requires comes { is_some written ≡ makes_version change }
    requires written { IfSome written IsWritten }
    requires newest { AreRising (newest_at (names_in catalog.now) table.now.rows place change).entries }
    requires needed { needed ≡ needs_by target catalog.now (newest_at (names_in catalog.now) table.now.rows place change) change written }
    requires enough { needed ≤ length (free_pages ledger.now) }
    ensures { IfOk result (IsPreparedAs target sequence catalog.now (newest_at (names_in catalog.now) table.now.rows place change)
        (length table.now.rows) change written session ledger.now) }
{
    match laid_over(
        alloc, target, sequence, catalog, table, ledger, place, &change, written, needed,
    ) {
        Ok(layout) => prepared_by(ledger, table, session, change, layout),
        Err(Memory) => {
            let_go_change(change);
            Err(Memory)
        }
    }
}

/// The same, with a reap before where free pages are short.
fn roomed_over(
    alloc: Global,
    target: Target,
    sequence: u64,
    catalog: &Catalog,
    table: &VersionTable,
    ledger: &mut Ledger,
    place: u64,
    session: u32,
    change: Change,
    written: Option<Written>,
    needed: u64,
) -> Result<Prepared, PrepareFault>
    requires names { names_in catalog.now ≡ names_at ledger.old.base (history ledger.old) }
    requires allow { IsTrue (names_allow (names_in catalog.now) change) }
    requires comes { is_some written ≡ makes_version change }
    requires written { IfSome written IsWritten }
    requires newest { AreRising (newest_at (names_in catalog.now) table.now.rows place change).entries }
    requires needed { needed ≡ needs_by target catalog.now (newest_at (names_in catalog.now) table.now.rows place change) change written }
    requires room { IsTrue (has_room ledger.old 1) }
    requires cause { MayReap ledger.old }
    ensures left { IsLeft needed ledger.old result ledger.new }
    ensures full { IsFullFor needed result ledger.new }
    ensures ok { IfOk result (IsPreparedAs target sequence catalog.now (newest_at (names_in catalog.now) table.now.rows place change)
        (length table.now.rows) change written session ledger.new) }
{
    match make_room(ledger, needed) {
        Ok(()) => match made_over(
            alloc, target, sequence, catalog, table, ledger, place, session, change, written,
            needed,
        ) {
            Ok(prepared) => Ok(prepared),
            Err(Memory) => Err(PrepareFault::Memory),
        },
        Err(fault) => {
            let_go_change(change);
            let_go_written(written);
            Err(fault)
        }
    }
}

/// How many pages the commit needs over a table, as a place sees it.
fn counted_over(
    alloc: Global,
    target: Target,
    catalog: &Catalog,
    table: &VersionTable,
    ledger: &Ledger,
    place: u64,
    change: &Change,
    written: &Option<Written>,
) -> Result<u64, Memory>
    requires names { names_in catalog.now ≡ names_at ledger.now.base (history ledger.now) }
    requires allow { IsTrue (names_allow (names_in catalog.now) change.now) }
    requires comes { is_some written.now ≡ makes_version change.now }
    requires written { IfSome written.now IsWritten }
    requires newest { AreRising (newest_at (names_in catalog.now) table.now.rows place change.now).entries }
    ensures { IfOk result (λ count. count ≡ needs_by target catalog.now
        (newest_at (names_in catalog.now) table.now.rows place change.now) change.now written.now) }
{
    let newest = newest_at(table, ledger.names(), place, change);
    needed_over(alloc, target, catalog, newest, change, written)
}

/// A commit with all memory that it needs, in the first free pages. Where these are too few, all pages that nobody can name become free.
pub fn prepared_over(
    alloc: Global,
    target: Target,
    sequence: u64,
    catalog: &Catalog,
    table: &VersionTable,
    ledger: &mut Ledger,
    session: u32,
    change: Change,
    written: Option<Written>,
) -> Result<Prepared, PrepareFault>
    requires names { names_in catalog.now ≡ names_at ledger.old.base (history ledger.old) }
    requires allow { IsTrue (names_allow (names_in catalog.now) change) }
    requires comes { is_some written ≡ makes_version change }
    requires written { IfSome written IsWritten }
    requires newest { AreRising (newest_at (names_in catalog.now) table.now.rows (length ledger.old.entries) change).entries }
    requires room { IsTrue (has_room ledger.old 1) }
    requires cause { MayReap ledger.old }
    ensures left { IsLeft (needs_by target catalog.now (newest_at (names_in catalog.now) table.now.rows (length ledger.old.entries) change) change written)
        ledger.old result ledger.new }
    ensures full { IsFullFor (needs_by target catalog.now (newest_at (names_in catalog.now) table.now.rows (length ledger.old.entries) change) change written)
        result ledger.new }
    ensures ok { IfOk result (IsPreparedAs target sequence catalog.now (newest_at (names_in catalog.now) table.now.rows (length ledger.old.entries) change)
        (length table.now.rows) change written session ledger.new) }
{
    let place = ledger.entries().len() as u64;
    match counted_over(
        alloc, target, catalog, table, ledger, place, &change, &written,
    ) {
        Ok(needed) => roomed_over(
            alloc, target, sequence, catalog, table, ledger, place, session, change, written,
            needed,
        ),
        Err(Memory) => {
            let_go_change(change);
            let_go_written(written);
            Err(PrepareFault::Memory)
        }
    }
}
