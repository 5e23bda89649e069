//! The target is closed, and the pages of a commit are written.

ghost use Rattle.std.specs.Prelude.{◌≡◌, ◌∷◌, [], ◌++◌, ℕ, List, OnOk, OnErr, MatchResult};
ghost use Rattle.std.specs.List.{AllByRecursion};
ghost use Rattle.afl_outside.specs.Disk.{DiskGoesOn, FailsWithCause};
ghost use Rattle.page_chain.specs.Opens.{OpensAs};
ghost use Rattle.page_chain.specs.Places.{KeepsPages};
ghost use Rattle.page_chain.specs.Inner.Runs.{OnlyWrites, Sees};
ghost use Rattle.page_chain.specs.Standing.{target_page, IsClosed, IsTarget, KeepsSound, MayOpen};
ghost use Rattle.page_chain.specs.Steps.{doubted, emptied, shut};
ghost use Rattle.page_file.specs.Written.{MayWrite};
ghost use Rattle.page_file.specs.Commits.{pages_of, IsBlobSized, IsChainSized, HoldsBlobs, HoldsAll};
ghost use Rattle.page_file.specs.Moments.{IsKnown, Rereads, StaysKnown};
ghost use Rattle.page_file.specs.Inner.Going.{Goes};

use crate::PageFile;
use crate::commits::Placed;
use afl_outside::{Disk, Failed};

/// Closes the target.
pub(crate) fn close<D: Disk>(file: &mut PageFile<D>) -> Result<(), Failed>
    requires { IsTarget file.old.slots }
    ensures slots { MatchResult result (λ _. file.new.slots ≡ shut file.old.slots.target file.old.slots) (λ _. file.new.slots ≡ doubted file.old.slots) }
    ensures closed { OnOk result (IsClosed file.new.slots) }
    ensures known { StaysKnown file.old.slots file.new.slots (D.moment file.old.disk) (D.moment file.new.disk) }
    ensures goes { (seen : List ℕ) → IsKnown file.old.slots seen (D.moment file.old.disk)
        → Goes (target_page file.old.slots.target file.old.slots ∷ []) (MayOpen file.old.slots) (D.moment file.old.disk) (D.moment file.new.disk) }
    ensures seen { Rereads (target_page file.old.slots.target file.old.slots ∷ []) file.old.slots (D.moment file.old.disk) (D.moment file.new.disk) }
    ensures same { DiskGoesOn (D.moment file.old.disk).state (D.moment file.new.disk).state }
    ensures cause { FailsWithCause result (D.moment file.old.disk) (D.moment file.new.disk) }
{
    match file.close_slot() {
        Ok(()) => Ok(()),
        Err(Failed) => Err(Failed),
    }
}

fn write_blobs<D: Disk>(file: &mut PageFile<D>, blobs: &[Placed]) -> Result<(), Failed>
    requires closed { IsClosed file.old.slots }
    requires free { MayWrite (pages_of blobs.now) file.old.slots }
    requires sized { AllByRecursion IsBlobSized blobs.now }
    ensures slots { emptied file.new.slots ≡ record (emptied file.old.slots) { zeroed = file.new.slots.zeroed } }
    ensures stopped { OnErr result (file.new.slots ≡ record (emptied file.old.slots) { zeroed = file.new.slots.zeroed }) }
    ensures sound { KeepsSound file.old.slots file.new.slots (D.moment file.old.disk) (D.moment file.new.disk) }
    ensures seen { Sees (D.moment file.old.disk).state (D.moment file.new.disk).state (KeepsPages (pages_of blobs.now)) }
    ensures writes { OnlyWrites (pages_of blobs.now) (D.moment file.old.disk) (D.moment file.new.disk) }
    ensures holds { OnOk result (Sees (D.moment file.old.disk).state (D.moment file.new.disk).state (λ seen now. HoldsBlobs now blobs.now)) }
    ensures cause { FailsWithCause result (D.moment file.old.disk) (D.moment file.new.disk) }
{
    for blob in blobs {
        match blob.write_blob(file) {
            Ok(()) => {}
            Err(Failed) => return Err(Failed),
        }
    }
    Ok(())
}

/// Writes the blobs, and then the chain.
pub(crate) fn write_pages<D: Disk>(
    file: &mut PageFile<D>,
    blobs: &[Placed],
    chain: &Placed,
) -> Result<(), Failed>
    requires closed { IsClosed file.old.slots }
    requires free { MayWrite (pages_of blobs.now ++ chain.now.pages) file.old.slots }
    requires sized { AllByRecursion IsBlobSized blobs.now }
    requires chain { IsChainSized chain.now }
    ensures slots { file.new.slots ≡ record (emptied file.old.slots) { zeroed = file.new.slots.zeroed } }
    ensures sound { KeepsSound file.old.slots file.new.slots (D.moment file.old.disk) (D.moment file.new.disk) }
    ensures seen { Sees (D.moment file.old.disk).state (D.moment file.new.disk).state (KeepsPages (pages_of blobs.now ++ chain.now.pages)) }
    ensures writes { OnlyWrites (pages_of blobs.now ++ chain.now.pages) (D.moment file.old.disk) (D.moment file.new.disk) }
    ensures holds { OnOk result (Sees (D.moment file.old.disk).state (D.moment file.new.disk).state (λ seen now. HoldsAll now blobs.now chain.now)) }
    ensures cause { FailsWithCause result (D.moment file.old.disk) (D.moment file.new.disk) }
{
    match write_blobs(file, blobs) {
        Ok(()) => match chain.write_chain(file) {
            Ok(()) => Ok(()),
            Err(Failed) => Err(Failed),
        },
        Err(Failed) => Err(Failed),
    }
}
