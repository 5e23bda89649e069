//! One page of a disk.
ghost use Rattle.std.specs.Prelude.{◌≡◌, [], ◌∷◌, length, take, drop, IfSome, IfOk, OnOk, IsErrOf};
ghost use Rattle.afl_outside.specs.Disk.{FailsWithCause};
ghost use Rattle.std.specs.Bool.{OnTrue};
ghost use Rattle.afl_outside.specs.Counts.{Rose};
ghost use Rattle.page_chain.specs.Pages.{page_size, page_at, has_page, padded};
ghost use Rattle.page_chain.specs.Places.{KeepsPages};
ghost use Rattle.page_chain.specs.Inner.Runs.{OnlyReads, OnlyWrites, Sees};

use crate::fault::Stopped;
use afl_outside::{Disk, Failed, has_risen};

/// The bytes of a page.
pub(crate) const PAGE: usize = 4096;

/// Reads a page, and says whether the disk has all of it.
pub(crate) fn read_page<D: Disk>(disk: &mut D, page: u32, piece: &mut [u8]) -> Result<bool, Stopped>
    requires { length piece.old ≡ page_size }
    ensures whole { IfSome (D.moment disk.old).state.seen (λ seen. IfOk result (λ whole. whole ≡ has_page page_size seen page)) }
    ensures bytes { IfSome (D.moment disk.old).state.seen (λ seen. IfOk result (λ whole. OnTrue whole (piece.new ≡ page_at page_size seen page))) }
    ensures fault { IsErrOf result Stopped.Disk → Rose (D.moment disk.old).state.faults (D.moment disk.new).state.faults }
    ensures reads { OnlyReads (D.moment disk.old) (D.moment disk.new) }
{
    let before = disk.faults();
    match disk.read_at(page as u64 * PAGE as u64, piece) {
        Ok(count) => Ok(count == piece.len()),
        Err(Failed) if has_risen(before, disk.faults()) => Err(Stopped::Disk),
        Err(Failed) => Err(Stopped::Memory),
    }
}

/// Writes a page.
pub(crate) fn write_page<D: Disk>(disk: &mut D, page: u32, piece: &[u8]) -> Result<(), Failed>
    requires { length piece.now ≡ page_size }
    ensures seen { Sees (D.moment disk.old).state (D.moment disk.new).state
        (λ seen now. KeepsPages (page ∷ []) seen now × OnOk result (page_at page_size now page ≡ piece.now)) }
    ensures cause { FailsWithCause result (D.moment disk.old) (D.moment disk.new) }
    ensures writes { OnlyWrites (page ∷ []) (D.moment disk.old) (D.moment disk.new) }
{
    disk.write_at(page as u64 * PAGE as u64, piece)
}

/// Puts the front of some bytes into a piece, and zeros behind them where they are too few. What is left of them is answered.
pub(crate) fn put_front<'a>(piece: &mut [u8], bytes: &'a [u8]) -> &'a [u8]
    ensures piece { piece.new ≡ padded (length piece.old) (take (length piece.old) bytes.now) }
    ensures rest { result.now ≡ drop (length piece.old) bytes.now }
{
    let count = piece.len().min(bytes.len());
    let (front, rest) = bytes.split_at(count);
    piece[..count].copy_from_slice(front);
    piece[count..].fill(0);
    rest
}
