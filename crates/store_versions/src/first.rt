//! The rows of a table at the opening.
ghost use Rattle.std.specs.Prelude.{◌≡◌, [], ◌∷◌, ◌++◌, IfOk, OnOk};
ghost use Rattle.store_versions.specs.Rows.{first_row, array_rows, first_rows};

use crate::VersionRow;
use cell_values::{List, Memory, Name};
use chunk_map::Directory;
use plan_changes::{NameEntry, Names};

/// The row of a version that was there at the opening.
fn first_row(name: &Name, version: u32, directory: Directory) -> Result<VersionRow, Memory>
    ensures { IfOk result (λ row. row ≡ first_row name.now version directory) }
{
    match name.copy() {
        Ok(name) => Ok(VersionRow {
            name,
            version,
            made: 0,
            gone: None,
            directory,
        }),
        Err(want) => Err(want),
    }
}

fn push_first(
    rows: &mut List<VersionRow>,
    name: &Name,
    version: u32,
    directory: Directory,
) -> Result<(), Memory>
    ensures { OnOk result (rows.new ≡ rows.old ++ first_row name.now version directory ∷ []) }
{
    rows.push(first_row(name, version, directory)?)
}

/// Adds the versions of an array, each with its directory.
fn push_array(
    rows: &mut List<VersionRow>,
    entry: &NameEntry,
    directories: List<Directory>,
) -> Result<(), Memory>
    ensures { OnOk result (rows.new ≡ rows.old ++ array_rows entry.now.name entry.now.versions directories) }
{
    let mut left = entry.versions.as_slice();
    for directory in directories.into_vec() {
        if let [version, rest @ ..] = left {
            push_first(rows, &entry.name, *version, directory)?;
            left = rest;
        }
    }
    Ok(())
}

/// The versions of all arrays.
pub fn first_rows(
    names: &Names,
    directories: List<List<Directory>>,
) -> Result<List<VersionRow>, Memory>
    ensures { IfOk result (λ rows. rows ≡ first_rows names.now.arrays directories) }
{
    let mut rows = names.arrays.another();
    let mut left = names.arrays.as_slice();
    for row in directories.into_vec() {
        if let [entry, rest @ ..] = left {
            push_array(&mut rows, entry, row)?;
            left = rest;
        }
    }
    Ok(rows)
}
