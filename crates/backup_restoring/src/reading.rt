//! Reading a backup from a source.
ghost use Rattle.std.specs.Prelude.{◌≡◌, ◌-◌, ◌^◌, min};
ghost use Rattle.backup_format.specs.PiecePlaces.{arrays_in};
ghost use Rattle.backup_restoring.specs.Restores.{restore_pages};
ghost use Rattle.backup_restoring.specs.Inner.Steps.{IsDecoded, IsFitting, IsReadBackup, WasRead};

use crate::counting::restore_pages;
use crate::fault::RestoreFault;
use afl_outside::{Failed, Source};
use backup_format::{ArrayAt, BadBackup, decode_backup};
use cell_values::{Bytes, List, Memory};
use std::alloc::Global;

/// How many bytes are asked for at once.
const PIECE: usize = 65536;

/// All bytes that a source has left.
pub(crate) fn read_to_end<S: Source>(alloc: Global, source: &mut S) -> Result<Bytes, RestoreFault>
    ensures { WasRead (S.state source.old) (S.state source.new) result }
{
    let mut bytes = Bytes::new(alloc);
    let mut piece = [0u8; PIECE];
    'pieces: loop {
        let count = match source.read(&mut piece) {
            Ok(count) => count,
            Err(Failed) => return Err(RestoreFault::Source),
        };
        if count == 0 {
            return Ok(bytes);
        }
        match bytes.extend(&piece[..count]) {
            Ok(()) => {}
            Err(Memory) => return Err(RestoreFault::Memory),
        }
    }
}

/// Where the pieces of a backup lie in these bytes.
fn decode(alloc: Global, bytes: &[u8]) -> Result<List<ArrayAt>, RestoreFault>
    ensures { IsDecoded bytes.now result }
{
    match decode_backup(alloc, bytes) {
        Ok(arrays) => Ok(arrays),
        Err(BadBackup::At { at }) => Err(RestoreFault::NotBackup { at }),
        Err(BadBackup::Memory) => Err(RestoreFault::Memory),
    }
}

/// A count as 32 bits have it, or the greatest that they have.
fn capped(count: u64) -> u32
    ensures { result ≡ min count (2 ^ 32 - 1) }
{
    if count <= u32::MAX as u64 {
        count as u32
    } else {
        u32::MAX
    }
}

/// Whether the database of these arrays fits into so many pages.
fn fit(alloc: Global, bytes: &[u8], arrays: &[ArrayAt], pages: u32) -> Result<(), RestoreFault>
    ensures { IsFitting pages (restore_pages (arrays_in bytes.now arrays.now)) result }
{
    let needed = match restore_pages(alloc, bytes, arrays) {
        Ok(needed) => needed,
        Err(Memory) => return Err(RestoreFault::Memory),
    };
    let free = pages.saturating_sub(4);
    if needed <= free as u64 {
        Ok(())
    } else {
        Err(RestoreFault::Full {
            needed: capped(needed),
            free,
        })
    }
}

/// Where the pieces of a backup lie in these bytes, whose database fits into so many pages.
pub(crate) fn tested(alloc: Global, bytes: &[u8], pages: u32) -> Result<List<ArrayAt>, RestoreFault>
    ensures { IsReadBackup pages bytes.now result }
{
    match decode(alloc, bytes) {
        Ok(arrays) => match fit(alloc, bytes, arrays.as_slice(), pages) {
            Ok(()) => Ok(arrays),
            Err(fault) => Err(fault),
        },
        Err(fault) => Err(fault),
    }
}
