//! Reading whole backups.
ghost use Rattle.std.specs.Prelude.{◌≡◌, ℕ, List as Items, Ok, IfOk};
ghost use Rattle.sha2.specs.Sha256.{sha256};
ghost use Rattle.std.specs.Str.{bytes_eq};
ghost use Rattle.file_items.specs.Items.{IsRead};
ghost use Rattle.backup_format.specs.Pieces.{PiecesArray};
ghost use Rattle.backup_format.specs.Spelling.{spell_arrays, signed};
ghost use Rattle.backup_format.specs.Laws.{AreArrays};
ghost use Rattle.backup_format.specs.Table.{backup_in, trailer_at};
ghost use Rattle.backup_format.specs.Decoding.{Answers, IsBadBackup};
ghost use Rattle.backup_format.specs.PiecePlaces.{arrays_in};

use crate::arrays::{ArrayAt, arrays};
use cell_values::List;
use file_items::{Stop, bytes_at};
use sha2::{Digest, Sha256};
use std::alloc::Global;

/// Why bytes are no backup.
#[derive(Clone, Copy)]
pub enum BadBackup {
    /// The offset of the first wrong item.
    At { at: u64 },
    Memory,
}

fn is_digest(front: &[u8], trailer: &[u8]) -> bool
    ensures { result ≡ bytes_eq (sha256 front.now) trailer.now }
{
    let digest = Sha256::digest(front);
    digest.as_slice() == trailer
}

/// The digest of the bytes in front.
fn trailer<'a>(front: &[u8], bytes: &'a [u8]) -> Result<&'a [u8], Stop>
    ensures { IsRead (λ x. (sha256 front.now, x.now)) result (trailer_at front.now bytes.now) }
{
    match bytes_at(32, bytes) {
        Ok((trailer, rest)) => {
            if is_digest(front, trailer) {
                Ok(rest)
            } else {
                Err(Stop::Left(bytes.len()))
            }
        }
        Err(stop) => Err(stop),
    }
}

/// A backup, and nothing after it.
#[tactic(auto, unfolding(crate::specs::Table::backup_in))]
fn backup(alloc: Global, bytes: &[u8]) -> Result<List<ArrayAt>, Stop>
    ensures { IsRead (λ x. arrays_in bytes.now x) result (backup_in bytes.now) }
{
    match arrays(alloc, bytes) {
        Ok((arrays, rest)) => {
            let front = bytes.split_at(bytes.len().saturating_sub(rest.len())).0;
            match trailer(front, rest) {
                Ok(behind) => {
                    if behind.is_empty() {
                        Ok(arrays)
                    } else {
                        Err(Stop::Left(behind.len()))
                    }
                }
                Err(stop) => Err(stop),
            }
        }
        Err(stop) => Err(stop),
    }
}

/// A stop, by its offset from the front.
fn bad_backup(bytes: &[u8], stop: Stop) -> BadBackup
    ensures { IsBadBackup result bytes.now stop }
{
    match stop {
        Stop::Memory => BadBackup::Memory,
        Stop::Left(left) => BadBackup::At {
            at: bytes.len().saturating_sub(left) as u64,
        },
    }
}

/// Where the pieces of a backup lie in these bytes. Bytes that are none are refused at the offset
/// of the first item that the rules do
/// not allow, that the end cuts, or that follows the last one.
pub fn decode_backup(alloc: Global, bytes: &[u8]) -> Result<List<ArrayAt>, BadBackup>
    // What is answered passes the tests, and is spelled so.
    ensures rules { IfOk result (λ x. AreArrays (arrays_in bytes.now x)) }
    ensures spelled { IfOk result (λ x. bytes.now ≡ signed (spell_arrays (arrays_in bytes.now x))) }
    // The bytes of what passes the tests are answered so, unless memory runs out.
    ensures only { (all : Items PiecesArray) → AreArrays all → bytes.now ≡ signed (spell_arrays all)
        → Answers (λ x. arrays_in bytes.now x) result bytes.now (Ok all) }
    // Which item is the first wrong one.
    ensures exact { Answers (λ x. arrays_in bytes.now x) result bytes.now (backup_in bytes.now) }
{
    match backup(alloc, bytes) {
        Ok(arrays) => Ok(arrays),
        Err(stop) => Err(bad_backup(bytes, stop)),
    }
}
