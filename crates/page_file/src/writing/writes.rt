//! Blobs and chains, written beside the slots.
ghost use Rattle.std.specs.Prelude.{◌≡◌, nat_eq, length, OnOk, MatchResult};
ghost use Rattle.page_chain.specs.Disk.{FailsWithCause};
ghost use Rattle.std.specs.List.{list_all, list_any};
ghost use Rattle.page_chain.specs.Places.{KeepsPages};
ghost use Rattle.page_chain.specs.Pages.{page_size, pages_for, HoldsBlob};
ghost use Rattle.page_chain.specs.Chains.{content_size, HoldsChain};
ghost use Rattle.page_chain.specs.Inner.Runs.{OnlyWrites, Sees};
ghost use Rattle.page_chain.specs.Standing.{IsClosed, KeepsSound, LeavesOpening};
ghost use Rattle.page_chain.specs.Steps.{emptied};
ghost use Rattle.page_file.specs.Written.{MayWrite, unwritten, zeroed_by, pages_written, blob_written};

use page_chain::{Disk, Failed, Slots};

fn is_among(pages: &[u32], page: u32) -> bool
    ensures { result ≡ list_any (λ other. nat_eq other page) pages.now }
{
    pages.iter().any(|other| *other == page)
}

fn are_zeros(bytes: &[u8]) -> bool
    ensures { result ≡ list_all (λ byte. nat_eq byte 0) bytes.now }
{
    bytes.iter().all(|byte| *byte == 0)
}

fn unwritten(pages: &[u32], zeroed: Option<u32>) -> Option<u32>
    ensures { result ≡ unwritten pages.now zeroed }
{
    match zeroed {
        None => None,
        Some(page) => {
            if is_among(pages, page) {
                None
            } else {
                Some(page)
            }
        }
    }
}

fn zeroed_by(pages: &[u32], bytes: &[u8], zeroed: Option<u32>) -> Option<u32>
    ensures { result ≡ zeroed_by pages.now bytes.now zeroed }
{
    match pages {
        [page] => {
            if are_zeros(bytes) {
                Some(*page)
            } else {
                unwritten(pages, zeroed)
            }
        }
        _ => unwritten(pages, zeroed),
    }
}

/// Writes bytes as a blob. What was written for the target before doesn't count any more.
pub fn write_blob<D: Disk>(
    slots: &mut Slots,
    disk: &mut D,
    pages: &[u32],
    bytes: &[u8],
) -> Result<(), Failed>
    requires closed { IsClosed slots.old }
    requires free { MayWrite pages.now slots.old }
    requires pages { length pages.now ≡ pages_for page_size (length bytes.now) }
    ensures slots { MatchResult result (λ _. slots.new ≡ blob_written pages.now bytes.now slots.old) (λ _. slots.new ≡ pages_written pages.now slots.old) }
    ensures sound { KeepsSound slots.old slots.new (D.moment disk.old) (D.moment disk.new) }
    ensures opens { LeavesOpening slots.old (emptied slots.old) (D.moment disk.old) (D.moment disk.new) }
    ensures seen { Sees (D.moment disk.old).state (D.moment disk.new).state
        (λ seen now. KeepsPages pages.now seen now × OnOk result (HoldsBlob page_size now pages.now bytes.now)) }
    ensures cause { FailsWithCause result (D.moment disk.old) (D.moment disk.new) }
    ensures writes { OnlyWrites pages.now (D.moment disk.old) (D.moment disk.new) }
{
    slots.empty();
    match page_chain::write_blob(disk, pages, bytes) {
        Ok(()) => {
            slots.zeroed = zeroed_by(pages, bytes, slots.zeroed);
            Ok(())
        }
        Err(Failed) => {
            slots.zeroed = unwritten(pages, slots.zeroed);
            Err(Failed)
        }
    }
}

/// Writes bytes as a chain. What was written for the target before doesn't count any more.
pub fn write_chain<D: Disk>(
    slots: &mut Slots,
    disk: &mut D,
    pages: &[u32],
    bytes: &[u8],
) -> Result<(), Failed>
    requires closed { IsClosed slots.old }
    requires free { MayWrite pages.now slots.old }
    requires pages { length pages.now ≡ pages_for (content_size page_size) (length bytes.now) }
    ensures slots { slots.new ≡ pages_written pages.now slots.old }
    ensures sound { KeepsSound slots.old slots.new (D.moment disk.old) (D.moment disk.new) }
    ensures opens { LeavesOpening slots.old (emptied slots.old) (D.moment disk.old) (D.moment disk.new) }
    ensures seen { Sees (D.moment disk.old).state (D.moment disk.new).state
        (λ seen now. KeepsPages pages.now seen now × OnOk result (HoldsChain page_size now pages.now bytes.now)) }
    ensures cause { FailsWithCause result (D.moment disk.old) (D.moment disk.new) }
    ensures writes { OnlyWrites pages.now (D.moment disk.old) (D.moment disk.new) }
{
    slots.empty();
    slots.zeroed = unwritten(pages, slots.zeroed);
    page_chain::write_chain(disk, pages, bytes)
}
