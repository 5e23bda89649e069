//! What was prepared, once it was written.
ghost use Rattle.std.specs.Prelude.{◌≡◌, ◌<◌, [], ◌∷◌, ◌++◌, length, map, vec_capacity, false, IsTrue};
ghost use Rattle.event_core.specs.declared.entry.Entry.TheVariants.{Commit};
ghost use Rattle.event_core.specs.Allowed.{allows, is_pinned};
ghost use Rattle.event_core.specs.History.{names_at};
ghost use Rattle.event_core.specs.Legal.{has_committed};
ghost use Rattle.event_core.specs.Ready.{IsReadyOver};
ghost use Rattle.event_core.specs.Replay.{core_at};
ghost use Rattle.store_ledger.specs.Ledger.{has_room, history, with_entries};
ghost use Rattle.store_versions.specs.Rows.{IsReadyFor, directory_in, needed_rows, places_at, rows_after};
ghost use Rattle.store_sealing.specs.Inner.Ends.{held_of, held_sealed, noted_if};

use plan_changes::Change;
use prepared_commits::{Prepared, let_go_catalog, let_go_doubt, let_go_pages};
use std::mem::replace;
use std::snapshot::Snapshot;
use store_ledger::{Ledger, ReadyCommit};
use store_versions::{ReadyVersion, VersionTable};
use version_catalog::Catalog;

/// The note of a fault under a session's pin, where a count rose.
pub(crate) fn note_if(ledger: &mut Ledger, session: u32, rose: bool)
    requires { IsTrue (is_pinned session (history ledger.old)) }
    ensures { ledger.new ≡ noted_if rose session ledger.old }
{
    if rose {
        ledger.note_first_fault(session);
    }
}

/// Keeps the directory of the version that a commit makes.
fn keep_version(made: &mut Vec<Snapshot<Option<ReadyVersion>>>, version: &Option<ReadyVersion>)
    requires { length made.old.items < vec_capacity made.old }
    ensures { map (λ ready. directory_in ready.value) made.new.items
        ≡ map (λ ready. directory_in ready.value) made.old.items ++ directory_in version.now ∷ [] }
{
    made.push_reserved(Snapshot::of(version));
}

/// Puts the next catalogue in the place of the one before.
fn put_catalog(catalog: &mut Catalog, next: Catalog)
    ensures { catalog.new ≡ next }
{
    let_go_catalog(replace(catalog, next));
}

/// The entry of a commit, with its version in the table. The answer is the entry's place.
fn enter(
    ledger: &mut Ledger,
    table: &mut VersionTable,
    session: u32,
    commit: ReadyCommit,
    version: Option<ReadyVersion>,
) -> u64
    requires over { IsReadyOver commit (core_at ledger.old.base (history ledger.old)) }
    requires allowed { IsTrue (allows ledger.old.base (history ledger.old) (Commit session commit.change commit.used)) }
    requires first { has_committed session (history ledger.old) ≡ false }
    requires room { IsTrue (has_room ledger.old 1) }
    requires version { IsReadyFor (names_at ledger.old.base (history ledger.old)) commit.change (length table.old.rows) version }
    ensures place { result ≡ length ledger.old.entries }
    ensures ledger { ledger.new ≡ with_entries (Commit session commit.change commit.used ∷ []) ledger.old }
    ensures rows { table.new.rows ≡ needed_rows (places_at (history ledger.old))
        (rows_after (names_at ledger.old.base (history ledger.old)) (length ledger.old.entries) commit.change (directory_in version) table.old.rows) }
{
    let place = ledger.entries().len() as u64;
    table.committed(ledger.names(), commit.change(), version, place);
    ledger.put(session, commit);
    table.forget(ledger.pins());
    place
}

/// Moves what was prepared into its place. The answer is the place of its entry.
pub(crate) fn settle(
    ledger: &mut Ledger,
    catalog: &mut Catalog,
    table: &mut VersionTable,
    doubt: &mut Option<Change>,
    made: &mut Vec<Snapshot<Option<ReadyVersion>>>,
    prepared: Prepared,
    rose: bool,
) -> u64
    requires over { IsReadyOver prepared.commit (core_at ledger.old.base (history ledger.old)) }
    requires allowed { IsTrue (allows ledger.old.base (history ledger.old)
        (Commit prepared.session prepared.commit.change prepared.commit.used)) }
    requires first { has_committed prepared.session (history ledger.old) ≡ false }
    requires room { IsTrue (has_room ledger.old 1) }
    requires version { IsReadyFor (names_at ledger.old.base (history ledger.old)) prepared.commit.change (length table.old.rows) prepared.version }
    requires made { length made.old.items < vec_capacity made.old }
    ensures place { result ≡ length ledger.old.entries }
    ensures held { held_of ledger.new catalog.new table.new.rows doubt.new (map (λ ready. directory_in ready.value) made.new.items)
        ≡ held_sealed prepared rose (held_of ledger.old catalog.old table.old.rows doubt.old (map (λ ready. directory_in ready.value) made.old.items)) }
{
    let Prepared {
        session,
        blobs,
        chain,
        base: _,
        catalog: next,
        commit,
        version,
    } = prepared;
    let_go_pages(blobs, chain);
    put_catalog(catalog, next);
    let_go_doubt(doubt.take());
    keep_version(made, &version);
    let place = enter(ledger, table, session, commit, version);
    note_if(ledger, session, rose);
    place
}
