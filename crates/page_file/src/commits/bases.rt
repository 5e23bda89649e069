//! The commit of a new base.

ghost use Rattle.std.specs.Prelude.{◌≡◌, ◌<◌, ◌⊎◌, ◌∷◌, [], ◌++◌, ℕ, List, Some, false, true, OnOk, IfErr, MatchResult};
ghost use Rattle.std.specs.List.{AllByRecursion};
ghost use Rattle.afl_outside.specs.Disk.{DiskGoesOn, FailsWithCause};
ghost use Rattle.page_chain.specs.Opens.{OpensAs};
ghost use Rattle.page_chain.specs.Places.{IsNone, KeepsPages};
ghost use Rattle.page_chain.specs.Inner.Runs.{OnlyWrites, Sees};
ghost use Rattle.page_chain.specs.Standing.{IsClosed, IsDurable, KeepsSound};
ghost use Rattle.page_chain.specs.Steps.{emptied, with_root};
ghost use Rattle.page_chain.specs.declared.slots.slots.slots.Target.TheVariants as targets;
ghost use Rattle.page_chain.specs.declared.slots.slots.slots.RootSlot.TheVariants as roots;
ghost use Rattle.page_file.specs.Written.{MayWrite};
ghost use Rattle.page_file.specs.Commits.{root_of, base_pages, commit_pages, IsBlobSized, IsChainSized, HoldsAll};
ghost use Rattle.page_file.specs.Moments.{HasBase, IsKnown, LeavesOne, MakesBase, MayHaveBase, PassesBy, Rereads, StaysKnown, StopsBase};
ghost use Rattle.page_file.specs.Inner.Going.{Goes};

use crate::PageFile;
use crate::commits::pages::{close, write_pages};
use crate::commits::{Placed, Stopped};
use afl_outside::{Disk, Failed};

/// Writes a page of zeros.
fn write_zeros<D: Disk>(file: &mut PageFile<D>, log: u32) -> Result<(), Failed>
    requires closed { IsClosed file.old.slots }
    requires free { MayWrite (log ∷ []) file.old.slots }
    ensures slots { MatchResult result
        (λ _. file.new.slots ≡ record (emptied file.old.slots) { zeroed = Some log })
        (λ _. file.new.slots ≡ record (emptied file.old.slots) { zeroed = file.new.slots.zeroed }) }
    ensures sound { KeepsSound file.old.slots file.new.slots (D.moment file.old.disk) (D.moment file.new.disk) }
    ensures seen { Sees (D.moment file.old.disk).state (D.moment file.new.disk).state (KeepsPages (log ∷ [])) }
    ensures writes { OnlyWrites (log ∷ []) (D.moment file.old.disk) (D.moment file.new.disk) }
    ensures cause { FailsWithCause result (D.moment file.old.disk) (D.moment file.new.disk) }
{
    let zeros = [0u8; 4096];
    match file.write_blob(&[log], &zeros) {
        Ok(()) => Ok(()),
        Err(Failed) => Err(Failed),
    }
}

/// Writes the blobs, the chain, and the log page.
fn write_base_pages<D: Disk>(
    file: &mut PageFile<D>,
    blobs: &[Placed],
    chain: &Placed,
    log: u32,
) -> Result<(), Failed>
    requires closed { IsClosed file.old.slots }
    requires free { MayWrite (base_pages blobs.now chain.now log) file.old.slots }
    requires sized { AllByRecursion IsBlobSized blobs.now }
    requires chain { IsChainSized chain.now }
    ensures slots { file.new.slots ≡ record (emptied file.old.slots) { zeroed = file.new.slots.zeroed } }
    ensures zeroed { OnOk result (file.new.slots.zeroed ≡ Some log) }
    ensures sound { KeepsSound file.old.slots file.new.slots (D.moment file.old.disk) (D.moment file.new.disk) }
    ensures seen { Sees (D.moment file.old.disk).state (D.moment file.new.disk).state (KeepsPages (base_pages blobs.now chain.now log)) }
    ensures writes { OnlyWrites (base_pages blobs.now chain.now log) (D.moment file.old.disk) (D.moment file.new.disk) }
    ensures holds { OnOk result (Sees (D.moment file.old.disk).state (D.moment file.new.disk).state (λ seen now. HoldsAll now blobs.now chain.now)) }
    ensures cause { FailsWithCause result (D.moment file.old.disk) (D.moment file.new.disk) }
{
    match write_pages(file, blobs, chain) {
        Ok(()) => match write_zeros(file, log) {
            Ok(()) => Ok(()),
            Err(Failed) => Err(Failed),
        },
        Err(Failed) => Err(Failed),
    }
}

/// Writes the pages and the body of the root slot.
fn fill_base<D: Disk>(
    file: &mut PageFile<D>,
    blobs: &[Placed],
    chain: &Placed,
    sequence: u64,
    log: u32,
) -> Result<(), Failed>
    requires target { file.old.slots.target ≡ targets.Root }
    requires closed { IsClosed file.old.slots }
    requires free { MayWrite (base_pages blobs.now chain.now log) file.old.slots }
    requires sized { AllByRecursion IsBlobSized blobs.now }
    requires chain { IsChainSized chain.now }
    requires newer { file.old.slots.current.root.sequence < sequence }
    ensures slots { MatchResult result
        (λ _. file.new.slots
        ≡ record (emptied file.old.slots) { other = roots.Written (root_of sequence chain.now log); zeroed = Some log })
        (λ _. file.new.slots
        ≡ record (emptied file.old.slots) { other = roots.Closed; doubtful = file.new.slots.doubtful; zeroed = file.new.slots.zeroed }) }
    ensures known { StaysKnown file.old.slots file.new.slots (D.moment file.old.disk) (D.moment file.new.disk) }
    ensures goes { (seen : List ℕ) → IsKnown file.old.slots seen (D.moment file.old.disk)
        → Goes (0 ∷ base_pages blobs.now chain.now log) (OpensAs file.old.slots.current file.old.slots.records)
        (D.moment file.old.disk) (D.moment file.new.disk) }
    ensures holds { OnOk result ((seen : List ℕ) → IsKnown file.old.slots seen (D.moment file.old.disk)
        → (c : List ℕ) → (D.moment file.new.disk).may_leave c → HoldsAll c blobs.now chain.now) }
    ensures seen { Rereads (0 ∷ base_pages blobs.now chain.now log) file.old.slots (D.moment file.old.disk) (D.moment file.new.disk) }
    ensures same { DiskGoesOn (D.moment file.old.disk).state (D.moment file.new.disk).state }
    ensures cause { FailsWithCause result (D.moment file.old.disk) (D.moment file.new.disk) }
{
    match write_base_pages(file, blobs, chain, log) {
        Ok(()) => match file.write_root(chain.root(sequence, log)) {
            Ok(()) => Ok(()),
            Err(Failed) => Err(Failed),
        },
        Err(Failed) => Err(Failed),
    }
}

/// Opens the root slot.
fn open_base<D: Disk>(
    file: &mut PageFile<D>,
    blobs: &[Placed],
    chain: &Placed,
    sequence: u64,
    log: u32,
) -> Result<(), Failed>
    requires target { file.old.slots.target ≡ targets.Root }
    requires sure { file.old.slots.doubtful ≡ false }
    requires written { file.old.slots.other ≡ roots.Written (root_of sequence chain.now log) }
    requires zeroed { file.old.slots.zeroed ≡ Some log }
    requires apart { IsNone (commit_pages blobs.now chain.now) 0 }
    ensures slots { MatchResult result
        (λ _. file.new.slots ≡ with_root (root_of sequence chain.now log) file.old.slots)
        (λ _. file.new.slots ≡ record (file.old.slots) { other = roots.Opening (root_of sequence chain.now log); doubtful = true }) }
    ensures known { StaysKnown file.old.slots file.new.slots (D.moment file.old.disk) (D.moment file.new.disk) }
    ensures goes { (seen : List ℕ) → IsKnown file.old.slots seen (D.moment file.old.disk)
        → ((d : List ℕ) → (D.moment file.old.disk).may_leave d → HoldsAll d blobs.now chain.now)
        → Goes (0 ∷ [])
        (λ c. OpensAs file.old.slots.current file.old.slots.records c ⊎ MayHaveBase file.old.slots blobs.now chain.now sequence log c)
        (D.moment file.old.disk) (D.moment file.new.disk) }
    ensures done { OnOk result ((seen : List ℕ) → IsKnown file.old.slots seen (D.moment file.old.disk)
        → ((d : List ℕ) → (D.moment file.old.disk).may_leave d → HoldsAll d blobs.now chain.now)
        → (c : List ℕ) → (D.moment file.new.disk).may_leave c → HasBase file.old.slots blobs.now chain.now sequence log c) }
    ensures durable { OnOk result (IsDurable (D.moment file.old.disk) (D.moment file.new.disk)) }
    ensures seen { Rereads (0 ∷ []) file.old.slots (D.moment file.old.disk) (D.moment file.new.disk) }
    ensures same { DiskGoesOn (D.moment file.old.disk).state (D.moment file.new.disk).state }
    ensures cause { FailsWithCause result (D.moment file.old.disk) (D.moment file.new.disk) }
{
    match file.open_slot() {
        Ok(()) => Ok(()),
        Err(Failed) => Err(Failed),
    }
}

/// Commits a new base, whose catalogue is the chain: closes the root slot that isn't current, writes the blobs, the chain, a log page of
/// zeros and the slot's body, and opens the slot.
pub fn commit_base<D: Disk>(
    file: &mut PageFile<D>,
    blobs: &[Placed],
    chain: &Placed,
    sequence: u64,
    log: u32,
) -> Result<(), Stopped>
    requires target { file.old.slots.target ≡ targets.Root }
    requires free { MayWrite (base_pages blobs.now chain.now log) file.old.slots }
    requires sized { AllByRecursion IsBlobSized blobs.now }
    requires chain { IsChainSized chain.now }
    requires newer { file.old.slots.current.root.sequence < sequence }
    ensures done { OnOk result (MakesBase file.old.slots file.new.slots blobs.now chain.now sequence log (D.moment file.old.disk) (D.moment file.new.disk)) }
    ensures failed { IfErr result (λ stage. StopsBase stage file.old.slots file.new.slots blobs.now chain.now sequence log
        (D.moment file.old.disk) (D.moment file.new.disk)) }
    ensures known { StaysKnown file.old.slots file.new.slots (D.moment file.old.disk) (D.moment file.new.disk) }
    ensures during { PassesBy 0 (base_pages blobs.now chain.now log) file.old.slots
        (MayHaveBase file.old.slots blobs.now chain.now sequence log) (D.moment file.old.disk) (D.moment file.new.disk) }
    ensures durable { OnOk result (LeavesOne file.old.slots (D.moment file.old.disk) (D.moment file.new.disk)) }
    ensures seen { Rereads (0 ∷ base_pages blobs.now chain.now log) file.old.slots (D.moment file.old.disk) (D.moment file.new.disk) }
    ensures same { DiskGoesOn (D.moment file.old.disk).state (D.moment file.new.disk).state }
    ensures cause { FailsWithCause result (D.moment file.old.disk) (D.moment file.new.disk) }
{
    match close(file) {
        Ok(()) => match fill_base(file, blobs, chain, sequence, log) {
            Ok(()) => match open_base(file, blobs, chain, sequence, log) {
                Ok(()) => Ok(()),
                Err(Failed) => Err(Stopped::Opening),
            },
            Err(Failed) => Err(Stopped::Filling),
        },
        Err(Failed) => Err(Stopped::Closing),
    }
}
