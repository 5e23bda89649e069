//! How much is found in a file.
ghost use Rattle.std.specs.Prelude.{◌≡◌, ◌<◌, ◌+◌, ◌^◌, min, length};
ghost use Rattle.std.specs.List.{sum_by};
ghost use Rattle.file_checking.specs.Checks.{most, sound_found};
ghost use Rattle.file_reading.specs.Reading.{IsFound};

use crate::sound::Sound;
use cell_values::List;
use chunk_map::Directory;
use file_meaning::Found;

/// The versions of all arrays.
fn count_versions(rows: &[List<Directory>]) -> u64
    requires { sum_by (λ row. length row) rows.now < 2 ^ 64 }
    ensures { result ≡ sum_by (λ row. length row) rows.now }
{
    let mut count: u64 = 0;
    for row in rows {
        count += row.len() as u64;
    }
    count
}

/// Some chunks and those of an array's versions.
fn add_chunks(chunks: u64, row: &[Directory]) -> u64
    ensures { result ≡ min (chunks + sum_by (λ directory. length directory.entries) row.now) most }
{
    let mut count = chunks;
    for directory in row {
        count = count.saturating_add(directory.entries.len() as u64);
    }
    count
}

/// The chunks of all versions.
fn count_chunks(rows: &[List<Directory>]) -> u64
    ensures { result ≡ min (sum_by (sum_by (λ directory. length directory.entries)) rows.now) most }
{
    let mut count: u64 = 0;
    for row in rows {
        count = add_chunks(count, row.as_slice());
    }
    count
}

/// How much a file holds.
pub(crate) fn sound_of(found: &Found) -> Sound
    requires { IsFound found.now }
    ensures { result ≡ sound_found found.now }
{
    let rows = found.directories.as_slice();
    Sound {
        arrays: found.catalog.arrays.len() as u32,
        versions: count_versions(rows),
        chunks: count_chunks(rows),
    }
}
