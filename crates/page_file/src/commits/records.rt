//! The commit of a record.

ghost use Rattle.std.specs.Prelude.{◌≡◌, ◌≢◌, ◌⊎◌, ◌∷◌, [], ◌++◌, ℕ, List, Some, false, true, OnOk, IfErr, MatchResult};
ghost use Rattle.std.specs.List.{AllByRecursion};
ghost use Rattle.afl_outside.specs.Disk.{DiskGoesOn, FailsWithCause};
ghost use Rattle.page_chain.specs.Opens.{OpensAs};
ghost use Rattle.page_chain.specs.Places.{IsNone};
ghost use Rattle.page_chain.specs.Standing.{IsClosed, IsDurable, IsTarget};
ghost use Rattle.page_chain.specs.Steps.{emptied, with_record};
ghost use Rattle.page_chain.specs.declared.slots.slots.slots.Target.TheVariants as targets;
ghost use Rattle.page_chain.specs.declared.slots.slots.slots.NextEntry.TheVariants as entries;
ghost use Rattle.page_file.specs.Written.{MayWrite};
ghost use Rattle.page_file.specs.Commits.{record_of, commit_pages, IsBlobSized, IsChainSized, HoldsAll};
ghost use Rattle.page_file.specs.Moments.{AddsRecord, HasRecord, IsKnown, LeavesOne, PassesBy, Rereads, StaysKnown, StopsRecord};
ghost use Rattle.page_file.specs.Inner.Going.{Goes};

use crate::PageFile;
use crate::commits::pages::{close, write_pages};
use crate::commits::{Placed, Stopped};
use afl_outside::{Disk, Failed};

/// Writes the pages and the body of the entry.
fn fill_record<D: Disk>(
    file: &mut PageFile<D>,
    blobs: &[Placed],
    chain: &Placed,
) -> Result<(), Failed>
    requires target { file.old.slots.target ≡ targets.Record }
    requires there { IsTarget file.old.slots }
    requires closed { IsClosed file.old.slots }
    requires free { MayWrite (commit_pages blobs.now chain.now) file.old.slots }
    requires sized { AllByRecursion IsBlobSized blobs.now }
    requires chain { IsChainSized chain.now }
    ensures slots { MatchResult result
        (λ _. file.new.slots
        ≡ record (emptied file.old.slots) { next = entries.Written (record_of chain.now); zeroed = file.new.slots.zeroed })
        (λ _. file.new.slots
        ≡ record (emptied file.old.slots) { next = entries.Closed; doubtful = file.new.slots.doubtful; zeroed = file.new.slots.zeroed }) }
    ensures known { StaysKnown file.old.slots file.new.slots (D.moment file.old.disk) (D.moment file.new.disk) }
    ensures goes { (seen : List ℕ) → IsKnown file.old.slots seen (D.moment file.old.disk)
        → Goes (file.old.slots.current.root.log ∷ commit_pages blobs.now chain.now)
        (OpensAs file.old.slots.current file.old.slots.records) (D.moment file.old.disk) (D.moment file.new.disk) }
    ensures holds { OnOk result ((seen : List ℕ) → IsKnown file.old.slots seen (D.moment file.old.disk)
        → (c : List ℕ) → (D.moment file.new.disk).may_leave c → HoldsAll c blobs.now chain.now) }
    ensures seen { Rereads (file.old.slots.current.root.log ∷ commit_pages blobs.now chain.now) file.old.slots
        (D.moment file.old.disk) (D.moment file.new.disk) }
    ensures same { DiskGoesOn (D.moment file.old.disk).state (D.moment file.new.disk).state }
    ensures cause { FailsWithCause result (D.moment file.old.disk) (D.moment file.new.disk) }
{
    match write_pages(file, blobs, chain) {
        Ok(()) => match file.write_record(chain.record()) {
            Ok(()) => Ok(()),
            Err(Failed) => Err(Failed),
        },
        Err(Failed) => Err(Failed),
    }
}

/// Opens the entry.
fn open_record<D: Disk>(
    file: &mut PageFile<D>,
    blobs: &[Placed],
    chain: &Placed,
) -> Result<(), Failed>
    requires target { file.old.slots.target ≡ targets.Record }
    requires there { IsTarget file.old.slots }
    requires sure { file.old.slots.doubtful ≡ false }
    requires written { file.old.slots.next ≡ entries.Written (record_of chain.now) }
    requires apart { IsNone (commit_pages blobs.now chain.now) file.old.slots.current.root.log }
    ensures slots { MatchResult result
        (λ _. file.new.slots ≡ with_record (record_of chain.now) file.old.slots)
        (λ _. file.new.slots ≡ record (file.old.slots) { next = entries.Opening (record_of chain.now); doubtful = true }) }
    ensures known { StaysKnown file.old.slots file.new.slots (D.moment file.old.disk) (D.moment file.new.disk) }
    ensures goes { (seen : List ℕ) → IsKnown file.old.slots seen (D.moment file.old.disk)
        → ((d : List ℕ) → (D.moment file.old.disk).may_leave d → HoldsAll d blobs.now chain.now)
        → Goes (file.old.slots.current.root.log ∷ [])
        (λ c. OpensAs file.old.slots.current file.old.slots.records c ⊎ HasRecord file.old.slots blobs.now chain.now c)
        (D.moment file.old.disk) (D.moment file.new.disk) }
    ensures done { OnOk result ((seen : List ℕ) → IsKnown file.old.slots seen (D.moment file.old.disk)
        → ((d : List ℕ) → (D.moment file.old.disk).may_leave d → HoldsAll d blobs.now chain.now)
        → (c : List ℕ) → (D.moment file.new.disk).may_leave c → HasRecord file.old.slots blobs.now chain.now c) }
    ensures durable { OnOk result (IsDurable (D.moment file.old.disk) (D.moment file.new.disk)) }
    ensures seen { Rereads (file.old.slots.current.root.log ∷ []) file.old.slots (D.moment file.old.disk) (D.moment file.new.disk) }
    ensures same { DiskGoesOn (D.moment file.old.disk).state (D.moment file.new.disk).state }
    ensures cause { FailsWithCause result (D.moment file.old.disk) (D.moment file.new.disk) }
{
    match file.open_slot() {
        Ok(()) => Ok(()),
        Err(Failed) => Err(Failed),
    }
}

/// Commits a record, whose bytes are the chain's: closes the next entry of the log, writes the blobs, the chain and the entry's body, and
/// opens the entry.
pub fn commit_record<D: Disk>(
    file: &mut PageFile<D>,
    blobs: &[Placed],
    chain: &Placed,
) -> Result<(), Stopped>
    requires target { file.old.slots.target ≡ targets.Record }
    requires there { IsTarget file.old.slots }
    requires free { MayWrite (commit_pages blobs.now chain.now) file.old.slots }
    requires sized { AllByRecursion IsBlobSized blobs.now }
    requires chain { IsChainSized chain.now }
    ensures done { OnOk result (AddsRecord file.old.slots file.new.slots blobs.now chain.now (D.moment file.old.disk) (D.moment file.new.disk)) }
    ensures failed { IfErr result (λ stage. StopsRecord stage file.old.slots file.new.slots blobs.now chain.now
        (D.moment file.old.disk) (D.moment file.new.disk)) }
    ensures known { StaysKnown file.old.slots file.new.slots (D.moment file.old.disk) (D.moment file.new.disk) }
    ensures during { PassesBy file.old.slots.current.root.log (commit_pages blobs.now chain.now) file.old.slots
        (HasRecord file.old.slots blobs.now chain.now) (D.moment file.old.disk) (D.moment file.new.disk) }
    ensures durable { OnOk result (LeavesOne file.old.slots (D.moment file.old.disk) (D.moment file.new.disk)) }
    ensures seen { Rereads (file.old.slots.current.root.log ∷ commit_pages blobs.now chain.now) file.old.slots
        (D.moment file.old.disk) (D.moment file.new.disk) }
    ensures same { DiskGoesOn (D.moment file.old.disk).state (D.moment file.new.disk).state }
    ensures cause { FailsWithCause result (D.moment file.old.disk) (D.moment file.new.disk) }
{
    match close(file) {
        Ok(()) => match fill_record(file, blobs, chain) {
            Ok(()) => match open_record(file, blobs, chain) {
                Ok(()) => Ok(()),
                Err(Failed) => Err(Stopped::Opening),
            },
            Err(Failed) => Err(Stopped::Filling),
        },
        Err(Failed) => Err(Stopped::Closing),
    }
}
