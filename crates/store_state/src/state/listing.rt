//! Which chunks a version has.
ghost use Rattle.std.specs.Prelude.{◌≡◌, map, length, IfOk};
ghost use Rattle.array_geom.specs.Link.{NumbersRise};
ghost use Rattle.file_meaning.specs.Source.{numbers_of, version_chunks, AreNumbersIn};
ghost use Rattle.plan_changes.specs.Databases.{Database, rows_of};
ghost use Rattle.event_core.specs.Cells.{at};
ghost use Rattle.event_core.specs.History.{names_at};
ghost use Rattle.store_ledger.specs.Ledger.{IsOpenPin, history};
ghost use Rattle.store_versions.specs.Seen.{seen};
ghost use Rattle.store_versions.specs.Versions.{directory_of};
ghost use Rattle.store_state.specs.At.{AreParts, keeping, standing};
ghost use Rattle.store_state.specs.Calls.{chunks_at, history_at, numbers_in, IsLeafOf};
ghost use Rattle.store_state.specs.Standings.{database_at, BeganAs};
ghost use Rattle.store_state.specs.Inner.Sights.{Sees, SeesCells};

use crate::state::StoreParts;
use afl_outside::Disk;
use cell_values::{ChunkAt, List, Memory, copy_numbers};
use chunk_map::Directory;
use logical_plan::Leaf;
use std::alloc::Global;
use store_ledger::Pinned;
use store_versions::VersionTable;

/// The numbers of a directory's chunks.
fn numbers_in(alloc: Global, directory: &Directory) -> Result<List<ChunkAt>, Memory>
    ensures { IfOk result (λ numbers. numbers ≡ map (λ entry. entry.at) directory.now.entries) }
{
    let entries = directory.entries.as_slice();
    let mut numbers = List::with_capacity(alloc, entries.len())?;
    for entry in entries {
        numbers.push(copy_numbers(&entry.at))?;
    }
    Ok(numbers)
}

/// The numbers of a leaf's chunks in a table, as a place sees it. A version 0 has none.
fn numbers_at(
    alloc: Global,
    table: &VersionTable,
    leaf: &Leaf,
    place: u64,
) -> Result<List<ChunkAt>, Memory>
    ensures { IfOk result (λ numbers. numbers ≡
        version_chunks (λ name version. numbers_in (directory_of name version (seen place table.now.rows))) leaf.now.name leaf.now.version) }
{
    if leaf.version == 0 {
        return Ok(List::new(alloc));
    }
    match table.directory_at(&leaf.name, leaf.version, place) {
        Some(directory) => numbers_in(alloc, directory),
        None => Ok(List::new(alloc)),
    }
}

/// The numbers of a leaf's chunks, rising, as a place sees them.
fn listed_at<D: Disk>(
    alloc: Global,
    parts: &StoreParts<D>,
    leaf: &Leaf,
    place: u64,
) -> Result<List<ChunkAt>, Memory>
    requires sees { Sees (standing D.moment parts.now) (keeping parts.now) place (history_at (standing D.moment parts.now) place) }
    requires cells { (db : Database) → BeganAs (D.moment parts.now.opened.value.disk).state db
        → SeesCells D.moment (standing D.moment parts.now) db (history_at (standing D.moment parts.now) place) }
    requires leaf { IsLeafOf (names_at parts.now.ledger.base (history_at (standing D.moment parts.now) place)) leaf.now }
    ensures listed { IfOk result (λ chunks. chunks ≡ chunks_at (standing D.moment parts.now) place leaf.now) }
    ensures rising { IfOk result (λ chunks. NumbersRise (numbers_of chunks)) }
    ensures told { IfOk result (λ chunks. (db : Database) → BeganAs (D.moment parts.now.opened.value.disk).state db
        → AreNumbersIn (rows_of (at db (history_at (standing D.moment parts.now) place))) leaf.now chunks) }
{
    numbers_at(alloc, &parts.table, leaf, place)
}

/// The numbers of a leaf's chunks under a pin, rising.
pub fn listed<D: Disk>(
    alloc: Global,
    parts: &StoreParts<D>,
    pinned: &Pinned,
    leaf: &Leaf,
) -> Result<List<ChunkAt>, Memory>
    requires at { AreParts D.moment parts.now }
    requires open { IsOpenPin parts.now.ledger pinned.now }
    requires leaf { IsLeafOf pinned.now.names leaf.now }
    ensures listed { IfOk result (λ chunks. chunks ≡ chunks_at (standing D.moment parts.now) pinned.now.place leaf.now) }
    ensures rising { IfOk result (λ chunks. NumbersRise (numbers_of chunks)) }
    ensures told { IfOk result (λ chunks. (db : Database) → BeganAs (D.moment parts.now.opened.value.disk).state db
        → AreNumbersIn (rows_of (at db (history_at (standing D.moment parts.now) pinned.now.place))) leaf.now chunks) }
{
    listed_at(alloc, parts, leaf, pinned.place)
}

/// The numbers of a leaf's chunks now, rising.
pub fn listed_now<D: Disk>(
    alloc: Global,
    parts: &StoreParts<D>,
    leaf: &Leaf,
) -> Result<List<ChunkAt>, Memory>
    requires at { AreParts D.moment parts.now }
    requires leaf { IsLeafOf (names_at parts.now.ledger.base (history parts.now.ledger)) leaf.now }
    ensures listed { IfOk result (λ chunks. chunks ≡ chunks_at (standing D.moment parts.now) (length parts.now.ledger.entries) leaf.now) }
    ensures rising { IfOk result (λ chunks. NumbersRise (numbers_of chunks)) }
    ensures told { IfOk result (λ chunks. (db : Database) → BeganAs (D.moment parts.now.opened.value.disk).state db
        → AreNumbersIn (rows_of (database_at db (standing D.moment parts.now))) leaf.now chunks) }
{
    let place = parts.ledger.entries().len() as u64;
    listed_at(alloc, parts, leaf, place)
}
