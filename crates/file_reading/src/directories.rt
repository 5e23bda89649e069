//! The directories of a file.
ghost use Rattle.std.specs.Prelude.{◌≡◌, ℕ, List, [], length, slice_index, Some, None, IfOk, IsErrOf};
ghost use Rattle.std.specs.List.{AllByRecursion, AllZip};
ghost use Rattle.afl_outside.specs.Counts.{Rose};
ghost use Rattle.cell_values.specs.Schemas.{IsValid};
ghost use Rattle.page_chain.specs.Pages.{page_size, blob, first_past};
ghost use Rattle.page_chain.specs.Inner.Runs.{OnlyReads};
ghost use Rattle.chunk_map.specs.Entries.{AreRising};
ghost use Rattle.chunk_map.specs.Spelling.{IsDirectory};
ghost use Rattle.chunk_map.specs.Table.{directory_in};
ghost use Rattle.plan_changes.specs.Stored.{IsStored};
ghost use Rattle.version_catalog.specs.Catalogs.{HasDirectories, IsBlob, IsCatalog};
ghost use Rattle.file_meaning.specs.Opening.{blamed, directory_from, row_in, rows_in};
ghost use Rattle.file_reading.specs.Reading.{Answers, AreDirectories};
ghost use Rattle.file_reading.specs.Inner.Rows.{entries_of, listed, rowed, rules_of, ArePaidBeside, IsBeside, IsRowBeside};
ghost use Rattle.file_reading.specs.Inner.Taken.{IsTaken, LeavesBeside, Takes};

use crate::base::Base;
use crate::entries::claim_payloads;
use crate::taken::{TakenPages, claim};
use afl_outside::Disk;
use cell_values::{List, Memory, Schema};
use chunk_map::{BadDirectory, Directory, decode_directory};
use page_file::{BlobFault, OpenCause, PageFile};
use std::alloc::Global;
use version_catalog::{BlobAt, Catalog, CatalogArray};

/// The first of some pages, 0 where there is none.
fn first_page(pages: &List<u32>) -> u32
    ensures { result ≡ slice_index pages.now 0 }
{
    match pages.get(0) {
        Some(page) => *page,
        None => 0,
    }
}

/// What these bytes of a directory whose first page is this one spell.
fn directory_in(
    alloc: Global,
    schema: &Schema,
    first: u32,
    bytes: &[u8],
) -> Result<Directory, OpenCause>
    requires { IsValid schema.now }
    ensures exact { Answers result (blamed first (directory_in (length schema.now.dimensions) bytes.now)) }
    ensures rules { IfOk result (IsDirectory (length schema.now.dimensions)) }
    ensures device { IsErrOf result OpenCause.Disk → ⊥ }
{
    match decode_directory(alloc, schema.dimensions.len() as u32, bytes) {
        Ok(directory) => Ok(directory),
        Err(BadDirectory::At { .. }) => Err(OpenCause::NotDatabase { page: first }),
        Err(BadDirectory::Memory) => Err(OpenCause::Memory),
    }
}

/// Reads a directory whose pages are pages of the file. A disk that gives less of it than it told before is told by the base's first
/// page.
fn read_directory<D: Disk>(
    alloc: Global,
    file: &mut PageFile<D>,
    base: &Base,
    schema: &Schema,
    at: &BlobAt,
) -> Result<Directory, OpenCause>
    requires valid { IsValid schema.now }
    requires blob { IsBlob at.now }
    ensures exact { (seen : List ℕ) → (D.moment file.old.disk).state.seen ≡ Some seen → first_past page_size seen at.now.pages ≡ None
        → Answers result (blamed (slice_index at.now.pages 0) (directory_in (length schema.now.dimensions) (blob page_size seen at.now.pages at.now.length))) }
    ensures rules { IfOk result (IsDirectory (length schema.now.dimensions)) }
    ensures fault { IsErrOf result OpenCause.Disk → Rose (D.moment file.old.disk).state.faults (D.moment file.new.disk).state.faults }
    ensures slots { file.new.slots ≡ file.old.slots }
    ensures reads { OnlyReads (D.moment file.old.disk) (D.moment file.new.disk) }
{
    match file.read_blob(alloc, at.pages.as_slice(), at.length) {
        Ok(bytes) => directory_in(alloc, schema, first_page(&at.pages), bytes.as_slice()),
        Err(BlobFault::Disk) => Err(OpenCause::Disk),
        Err(BlobFault::Damaged { .. }) => Err(OpenCause::NotDatabase { page: base.first }),
        Err(BlobFault::Memory) => Err(OpenCause::Memory),
    }
}

/// Takes the pages of a directory behind some of the same array, reads it, and takes the pages of its payloads.
fn read_version<D: Disk>(
    alloc: Global,
    file: &mut PageFile<D>,
    taken: &mut TakenPages,
    base: &Base,
    schema: &Schema,
    before: &[Directory],
    at: &BlobAt,
) -> Result<Directory, OpenCause>
    requires valid { IsValid schema.now }
    requires blob { IsBlob at.now }
    requires rising { AllByRecursion (λ directory. AreRising directory.entries) before.now }
    ensures exact { (seen : List ℕ) → (D.moment file.old.disk).state.seen ≡ Some seen → (taken_before : List ℕ) → IsTaken seen taken.old taken_before
        → Takes seen listed result taken.new (directory_from seen (rules_of base.now) schema.now.dimensions (entries_of [] before.now) taken_before at.now) }
    ensures rules { IfOk result (IsDirectory (length schema.now.dimensions)) }
    ensures beside { IfOk result (λ directory. (tells others : List ℕ) → LeavesBeside tells taken.old others → ArePaidBeside others (entries_of [] before.now)
        → LeavesBeside tells taken.new others × IsBeside others schema.now.dimensions at.now directory) }
    ensures fault { IsErrOf result OpenCause.Disk → Rose (D.moment file.old.disk).state.faults (D.moment file.new.disk).state.faults }
    ensures slots { file.new.slots ≡ file.old.slots }
    ensures reads { OnlyReads (D.moment file.old.disk) (D.moment file.new.disk) }
{
    if !claim(taken, at.pages.as_slice()) {
        return Err(OpenCause::NotDatabase { page: base.first });
    }
    match read_directory(alloc, file, base, schema, at) {
        Ok(directory) => {
            if claim_payloads(taken, base, schema, before, directory.entries.as_slice()) {
                Ok(directory)
            } else {
                Err(OpenCause::NotDatabase {
                    page: first_page(&at.pages),
                })
            }
        }
        Err(cause) => Err(cause),
    }
}

/// Reads the directories of an array, one after the other.
fn read_row<D: Disk>(
    alloc: Global,
    file: &mut PageFile<D>,
    taken: &mut TakenPages,
    base: &Base,
    array: &CatalogArray,
) -> Result<List<Directory>, OpenCause>
    requires stored { IsStored array.now.entry }
    requires blobs { HasDirectories array.now }
    ensures exact { (seen : List ℕ) → (D.moment file.old.disk).state.seen ≡ Some seen → (taken_before : List ℕ) → IsTaken seen taken.old taken_before
        → Takes seen rowed result taken.new (row_in seen (rules_of base.now) array.now.entry.schema.dimensions [] taken_before array.now.directories) }
    ensures rules { IfOk result (AreDirectories array.now) }
    ensures beside { IfOk result (λ row. (tells others : List ℕ) → LeavesBeside tells taken.old others
        → LeavesBeside tells taken.new others × IsRowBeside others array.now row) }
    ensures fault { IsErrOf result OpenCause.Disk → Rose (D.moment file.old.disk).state.faults (D.moment file.new.disk).state.faults }
    ensures slots { file.new.slots ≡ file.old.slots }
    ensures reads { OnlyReads (D.moment file.old.disk) (D.moment file.new.disk) }
{
    let mut row = List::new(alloc);
    for at in array.directories.as_slice() {
        let schema = &array.entry.schema;
        match read_version(alloc, file, taken, base, schema, row.as_slice(), at) {
            Ok(directory) => row.push(directory)?,
            Err(cause) => return Err(cause),
        }
    }
    Ok(row)
}

/// Reads the directories of all arrays.
pub(crate) fn read_rows<D: Disk>(
    alloc: Global,
    file: &mut PageFile<D>,
    taken: &mut TakenPages,
    base: &Base,
    catalog: &Catalog,
) -> Result<List<List<Directory>>, OpenCause>
    requires { IsCatalog catalog.now }
    ensures exact { (seen : List ℕ) → (D.moment file.old.disk).state.seen ≡ Some seen → (taken_before : List ℕ) → IsTaken seen taken.old taken_before
        → Answers result (rows_in seen (rules_of base.now) taken_before catalog.now.arrays) }
    ensures rules { IfOk result (AllZip AreDirectories catalog.now.arrays) }
    ensures beside { IfOk result (λ rows. (tells others : List ℕ) → LeavesBeside tells taken.old others
        → AllZip (IsRowBeside others) catalog.now.arrays rows) }
    ensures fault { IsErrOf result OpenCause.Disk → Rose (D.moment file.old.disk).state.faults (D.moment file.new.disk).state.faults }
    ensures slots { file.new.slots ≡ file.old.slots }
    ensures reads { OnlyReads (D.moment file.old.disk) (D.moment file.new.disk) }
{
    let mut rows = List::new(alloc);
    for array in catalog.arrays.as_slice() {
        match read_row(alloc, file, taken, base, array) {
            Ok(row) => rows.push(row)?,
            Err(cause) => return Err(cause),
        }
    }
    Ok(rows)
}
