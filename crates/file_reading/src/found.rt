//! All that a file keeps.
ghost use Rattle.std.specs.Prelude.{◌≡◌, ◌≤◌, ◌∷◌, ◌++◌, [], ℕ, List, length, Some, Ok, IfSome, IfOk, OnOk, IsErrOf};
ghost use Rattle.std.specs.List.{AllZip};
ghost use Rattle.afl_outside.specs.Counts.{Rose};
ghost use Rattle.page_chain.specs.Inner.Runs.{OnlyReads};
ghost use Rattle.page_chain.specs.Standing.{IsSound};
ghost use Rattle.version_catalog.specs.Catalogs.{IsCatalog};
ghost use Rattle.version_reaper.specs.PageSets.{holds, is_held};
ghost use Rattle.file_meaning.specs.Opening.{all_of, catalogue_pages, found_in, rows_in, stored_pages};
ghost use Rattle.file_reading.specs.Reading.{Answers, AreDirectories, IsFound, LieApart, slots_of};
ghost use Rattle.file_reading.specs.Inner.Found.{IsLogFound, base_found_in, found_behind, log_behind, rules_in};
ghost use Rattle.file_reading.specs.Inner.Log.{GoesOn};
ghost use Rattle.file_reading.specs.Inner.Rows.{AreBeside, IsRowBeside, rules_of};
ghost use Rattle.file_reading.specs.Inner.Taken.{HaveAll};

use crate::base::{Base, read_base};
use crate::directories::read_rows;
use crate::log::read_log;
use crate::taken::taken_pages;
use afl_outside::Disk;
use cell_values::{List, Memory};
use chunk_map::Directory;
use file_meaning::Found;
use page_file::{OpenCause, PageFile};
use std::alloc::Global;
use version_catalog::Catalog;
use version_reaper::is_in;

/// Reads all that a file keeps from its current root and its log on: the catalogue with its pages, and the directory of each version. A
/// file that is wrong is told by the first page at which it is. A disk that gives page 0 as one of the catalogue's, as none does that tells
/// its bytes, is told by page 0.
pub fn read_found<D: Disk>(alloc: Global, file: &mut PageFile<D>) -> Result<Found, OpenCause>
    requires { length file.old.slots.records ≤ 64 }
    ensures exact { IfSome (D.moment file.old.disk).state.seen (λ seen. Answers result (found_in seen (slots_of file.old.slots))) }
    ensures rules { IfOk result IsFound }
    ensures apart { IfOk result (LieApart file.old.slots.current.root.log) }
    ensures fault { IsErrOf result OpenCause.Disk → Rose (D.moment file.old.disk).state.faults (D.moment file.new.disk).state.faults }
    ensures slots { file.new.slots ≡ file.old.slots }
    ensures reads { OnlyReads (D.moment file.old.disk) (D.moment file.new.disk) }
    ensures sound { (seen : List ℕ) → IsSound file.old.slots seen (D.moment file.old.disk).may_leave
        → IsSound file.new.slots seen (D.moment file.new.disk).may_leave }
{
    match base_found(alloc, file) {
        Ok(mut found) => match read_behind(alloc, file, &mut found) {
            Ok(()) => {
                if has_front(&found) {
                    Err(OpenCause::NotDatabase { page: 0 })
                } else {
                    Ok(found)
                }
            }
            Err(cause) => Err(cause),
        },
        Err(cause) => Err(cause),
    }
}

/// Whether page 0 is in one of these lists.
fn any_has_front(lists: &[List<u32>]) -> bool
    ensures { result ≡ is_held lists.now 0 }
{
    lists.iter().any(|pages| is_in(pages, 0))
}

/// Whether page 0 is one of the catalogue's.
fn has_front(found: &Found) -> bool
    ensures { result ≡ holds (catalogue_pages found.now) 0 }
{
    is_in(&found.chain, 0) || any_has_front(found.logged.as_slice())
}

/// Reads the base, with no record and no directory behind it.
fn base_found<D: Disk>(alloc: Global, file: &mut PageFile<D>) -> Result<Found, OpenCause>
    ensures exact { (seen : List ℕ) → (D.moment file.old.disk).state.seen ≡ Some seen
        → Answers result (base_found_in seen file.old.slots.current.root) }
    ensures rules { IfOk result (λ found. IsCatalog found.catalog) }
    ensures logged { IfOk result (λ found. found.logged ≡ []) }
    ensures fault { IsErrOf result OpenCause.Disk → Rose (D.moment file.old.disk).state.faults (D.moment file.new.disk).state.faults }
    ensures slots { file.new.slots ≡ file.old.slots }
    ensures reads { OnlyReads (D.moment file.old.disk) (D.moment file.new.disk) }
{
    match read_base(alloc, file) {
        Ok((chain, catalog)) => Ok(Found {
            chain,
            logged: List::new(alloc),
            catalog,
            directories: List::new(alloc),
        }),
        Err(cause) => Err(cause),
    }
}

/// Reads the log and the directories behind a base.
fn read_behind<D: Disk>(
    alloc: Global,
    file: &mut PageFile<D>,
    found: &mut Found,
) -> Result<(), OpenCause>
    requires few { length file.old.slots.records ≤ 64 }
    requires rules { IsCatalog found.old.catalog }
    requires logged { found.old.logged ≡ [] }
    ensures exact { (seen : List ℕ) → (D.moment file.old.disk).state.seen ≡ Some seen
        → GoesOn result (Ok found.new) (found_behind seen (slots_of file.old.slots) found.old) }
    ensures rules { OnOk result (IsFound found.new) }
    ensures stored { OnOk result (AreBeside (file.old.slots.current.root.log ∷ catalogue_pages found.new) (stored_pages found.new)) }
    ensures fault { IsErrOf result OpenCause.Disk → Rose (D.moment file.old.disk).state.faults (D.moment file.new.disk).state.faults }
    ensures slots { file.new.slots ≡ file.old.slots }
    ensures reads { OnlyReads (D.moment file.old.disk) (D.moment file.new.disk) }
{
    match read_records(alloc, file, found) {
        Ok(taken) => match read_directories(alloc, file, taken.as_slice(), &found.catalog) {
            Ok(directories) => {
                found.directories = directories;
                Ok(())
            }
            Err(cause) => Err(cause),
        },
        Err(cause) => Err(cause),
    }
}

/// The pages of a base's chain, and the log page.
fn base_pages(chain: &List<u32>, log: u32) -> Result<List<u32>, Memory>
    ensures { IfOk result (λ pages. pages ≡ chain.now ++ log ∷ []) }
{
    let mut pages = chain.copy()?;
    pages.push(log)?;
    Ok(pages)
}

/// Reads the log behind a base, and answers all pages that are taken then.
fn read_records<D: Disk>(
    alloc: Global,
    file: &mut PageFile<D>,
    found: &mut Found,
) -> Result<List<u32>, OpenCause>
    requires few { length file.old.slots.records ≤ 64 }
    requires rules { IsCatalog found.old.catalog }
    requires logged { found.old.logged ≡ [] }
    ensures exact { (seen : List ℕ) → (D.moment file.old.disk).state.seen ≡ Some seen
        → IsLogFound result found.new (log_behind seen (slots_of file.old.slots) found.old) }
    ensures rules { IfOk result (λ taken. IsCatalog found.new.catalog) }
    ensures chain { found.new.chain ≡ found.old.chain }
    ensures held { IfOk result (λ taken. HaveAll taken ((found.new.chain ++ file.old.slots.current.root.log ∷ []) ++ all_of found.new.logged)) }
    ensures fault { IsErrOf result OpenCause.Disk → Rose (D.moment file.old.disk).state.faults (D.moment file.new.disk).state.faults }
    ensures slots { file.new.slots ≡ file.old.slots }
    ensures reads { OnlyReads (D.moment file.old.disk) (D.moment file.new.disk) }
{
    match base_pages(&found.chain, file.root().log) {
        Ok(mut taken) => {
            match read_log(
                alloc,
                file,
                &mut found.catalog,
                &mut taken,
                &mut found.logged,
            ) {
                Ok(()) => Ok(taken),
                Err(cause) => Err(cause),
            }
        }
        Err(Memory) => Err(OpenCause::Memory),
    }
}

/// What the directories of a file are tested by.
fn base_of<D: Disk>(file: &PageFile<D>) -> Base
    ensures { rules_of result ≡ rules_in (slots_of file.now.slots) }
{
    let root = file.root();
    Base {
        first: root.first,
        sequence: root.sequence,
        records: file.records().len() as u64,
    }
}

/// Reads the directories of a catalogue where these pages are taken.
fn read_directories<D: Disk>(
    alloc: Global,
    file: &mut PageFile<D>,
    taken: &[u32],
    catalog: &Catalog,
) -> Result<List<List<Directory>>, OpenCause>
    requires { IsCatalog catalog.now }
    ensures exact { (seen : List ℕ) → (D.moment file.old.disk).state.seen ≡ Some seen
        → Answers result (rows_in seen (rules_in (slots_of file.old.slots)) taken.now catalog.now.arrays) }
    ensures rules { IfOk result (AllZip AreDirectories catalog.now.arrays) }
    ensures beside { IfOk result (AllZip (IsRowBeside taken.now) catalog.now.arrays) }
    ensures fault { IsErrOf result OpenCause.Disk → Rose (D.moment file.old.disk).state.faults (D.moment file.new.disk).state.faults }
    ensures slots { file.new.slots ≡ file.old.slots }
    ensures reads { OnlyReads (D.moment file.old.disk) (D.moment file.new.disk) }
{
    let base = base_of(file);
    match file.pages() {
        Ok(count) => match taken_pages(alloc, count, taken) {
            Ok(mut pages) => read_rows(alloc, file, &mut pages, &base, catalog),
            Err(Memory) => Err(OpenCause::Memory),
        },
        Err(cause) => Err(cause),
    }
}
