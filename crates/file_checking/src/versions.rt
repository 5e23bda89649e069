//! The versions of all arrays.
ghost use Rattle.std.specs.Prelude.{◌≡◌, ◌&&◌, ℕ, List as Items, Some, is_none, IfErr, MatchResult};
ghost use Rattle.std.specs.List.{AllByRecursion, AllZip};
ghost use Rattle.cell_values.specs.Schemas.{IsValid};
ghost use Rattle.page_chain.specs.Inner.Runs.{OnlyReads};
ghost use Rattle.file_checking.specs.Checks.{HasCause, each, test_payloads, test_rows};
ghost use Rattle.file_checking.specs.Inner.Steps.{has_overlaps, AreChecked, AreRowsChecked, IsChecked, IsDirectoryOf, IsRowOf, Stops};

use crate::overlaps::first_wrong_overlap;
use crate::payloads::read_payloads;
use crate::sound::CheckFault;
use afl_outside::Disk;
use cell_values::{Dimension, List, Schema};
use chunk_map::Directory;
use page_file::PageFile;
use std::alloc::Global;
use version_catalog::CatalogArray;

/// Whether chunks of these dimensions hold cells of their neighbours.
fn has_overlaps(dims: &[Dimension]) -> bool
    ensures { result ≡ has_overlaps dims.now }
{
    dims.iter().any(|d| d.overlap > 0)
}

/// Whether overlaps are compared: where there are some, and none was wrong before.
fn are_compared(schema: &Schema, wrong: &Option<u32>) -> bool
    ensures { result ≡ (is_none wrong.now && has_overlaps schema.now.dimensions) }
{
    wrong.is_none() && has_overlaps(schema.dimensions.as_slice())
}

/// Checks a version.
fn check_version<D: Disk>(
    alloc: Global,
    file: &mut PageFile<D>,
    schema: &Schema,
    directory: &Directory,
    wrong: &mut Option<u32>,
) -> Result<(), CheckFault>
    requires valid { IsValid schema.now }
    requires directory { IsDirectoryOf schema.now directory.now }
    ensures told { (seen : Items ℕ) → (D.moment file.old.disk).state.seen ≡ Some seen
        → MatchResult result (λ _. IsChecked seen schema.now directory.now wrong.old wrong.new) (λ fault. Stops fault (test_payloads seen schema.now directory.now)) }
    ensures reads { OnlyReads (D.moment file.old.disk) (D.moment file.new.disk) }
    ensures cause { IfErr result (λ fault. HasCause fault (D.moment file.old.disk).state (D.moment file.new.disk).state) }
{
    let entries = directory.entries.as_slice();
    if !are_compared(schema, wrong) {
        return read_payloads(alloc, file, schema, entries);
    }
    match first_wrong_overlap(alloc, file, schema, entries) {
        Ok(page) => {
            *wrong = page;
            Ok(())
        }
        Err(fault) => Err(fault),
    }
}

/// Checks the versions of an array.
fn check_row<D: Disk>(
    alloc: Global,
    file: &mut PageFile<D>,
    schema: &Schema,
    row: &[Directory],
    wrong: &mut Option<u32>,
) -> Result<(), CheckFault>
    requires valid { IsValid schema.now }
    requires directories { AllByRecursion (IsDirectoryOf schema.now) row.now }
    ensures told { (seen : Items ℕ) → (D.moment file.old.disk).state.seen ≡ Some seen
        → MatchResult result (λ _. AreChecked seen schema.now row.now wrong.old wrong.new) (λ fault. Stops fault (each (test_payloads seen schema.now) row.now)) }
    ensures reads { OnlyReads (D.moment file.old.disk) (D.moment file.new.disk) }
    ensures cause { IfErr result (λ fault. HasCause fault (D.moment file.old.disk).state (D.moment file.new.disk).state) }
{
    for directory in row {
        match check_version(alloc, file, schema, directory, wrong) {
            Ok(()) => {}
            Err(fault) => return Err(fault),
        }
    }
    Ok(())
}

/// Checks the versions of all arrays: that all payloads are whole, and which overlap is the first
/// wrong one.
pub(crate) fn check_rows<D: Disk>(
    alloc: Global,
    file: &mut PageFile<D>,
    arrays: &[CatalogArray],
    rows: &[List<Directory>],
    wrong: &mut Option<u32>,
) -> Result<(), CheckFault>
    requires { AllZip IsRowOf arrays.now rows.now }
    ensures told { (seen : Items ℕ) → (D.moment file.old.disk).state.seen ≡ Some seen
        → MatchResult result (λ _. AreRowsChecked seen arrays.now rows.now wrong.old wrong.new) (λ fault. Stops fault (test_rows (test_payloads seen) arrays.now rows.now)) }
    ensures reads { OnlyReads (D.moment file.old.disk) (D.moment file.new.disk) }
    ensures cause { IfErr result (λ fault. HasCause fault (D.moment file.old.disk).state (D.moment file.new.disk).state) }
{
    let mut left = rows;
    for array in arrays {
        match left.split_first() {
            Some((row, rest)) => {
                match check_row(alloc, file, &array.entry.schema, row.as_slice(), wrong) {
                    Ok(()) => left = rest,
                    Err(fault) => return Err(fault),
                }
            }
            None => unreachable!(),
        }
    }
    Ok(())
}
