//! The writes of a commit.
ghost use Rattle.std.specs.Prelude.{◌≡◌, ◌<◌, length, map, vec_capacity, OnOk, IfErr};
ghost use Rattle.afl_outside.specs.Disk.{DiskGoesOn, FailsWithCause};
ghost use Rattle.page_file.specs.Moments.{PassesBy, StaysKnown};
ghost use Rattle.store_sealing.specs.Moves.{IsDone, NewIn, StopsAt, own_pages, slot_page};
ghost use Rattle.store_sealing.specs.Inner.Writing.{CameTo, MayBeWritten, acked_after};

use afl_outside::{Disk, has_risen};
use page_file::{PageFile, Placed, Stopped, commit_base, commit_record};
use prepared_commits::{NewBase, Prepared};
use std::snapshot::Snapshot;

/// What came of a commit's writes: where they stopped, if they did, and whether the disk's count of faults rose.
pub(crate) struct Outcome {
    pub end: Result<(), Stopped>,
    pub rose: bool,
}

/// Writes a record, or a new base.
fn write<D: Disk>(
    file: &mut PageFile<D>,
    base: Option<NewBase>,
    blobs: &[Placed],
    chain: &Placed,
) -> Result<(), Stopped>
    requires { MayBeWritten base file.old.slots blobs.now chain.now }
    ensures done { OnOk result (IsDone base file.old.slots file.new.slots blobs.now chain.now (D.moment file.old.disk) (D.moment file.new.disk)) }
    ensures stopped { IfErr result (λ stage. StopsAt base stage file.old.slots file.new.slots blobs.now chain.now
        (D.moment file.old.disk) (D.moment file.new.disk)) }
    ensures known { StaysKnown file.old.slots file.new.slots (D.moment file.old.disk) (D.moment file.new.disk) }
    ensures during { PassesBy (slot_page base file.old.slots) (own_pages base blobs.now chain.now) file.old.slots
        (NewIn base file.old.slots blobs.now chain.now) (D.moment file.old.disk) (D.moment file.new.disk) }
    ensures same { DiskGoesOn (D.moment file.old.disk).state (D.moment file.new.disk).state }
    ensures cause { FailsWithCause result (D.moment file.old.disk) (D.moment file.new.disk) }
{
    match base {
        None => commit_record(file, blobs, chain),
        Some(base) => commit_base(file, blobs, chain, base.sequence, base.log),
    }
}

/// Keeps the moment at which a commit is acknowledged, where its writes were done.
fn keep_moment<D: Disk>(
    acked: &mut Vec<Snapshot<PageFile<D>>>,
    file: &PageFile<D>,
    end: &Result<(), Stopped>,
)
    requires { length acked.old.items < vec_capacity acked.old }
    ensures { map (λ file. (D.moment file.value.disk).state.moment) acked.new.items
        ≡ acked_after end.now (map (λ file. (D.moment file.value.disk).state.moment) acked.old.items) (D.moment file.now.disk).state.moment }
{
    match end {
        Ok(()) => acked.push_reserved(Snapshot::of(file)),
        Err(_) => {}
    }
}

/// Writes what is prepared. If that is done, the moment is kept.
pub(crate) fn write_prepared<D: Disk>(
    file: &mut PageFile<D>,
    acked: &mut Vec<Snapshot<PageFile<D>>>,
    prepared: &Prepared,
) -> Outcome
    requires written { MayBeWritten prepared.now.base file.old.slots prepared.now.blobs prepared.now.chain }
    requires room { length acked.old.items < vec_capacity acked.old }
    ensures came { CameTo prepared.now.base file.old.slots file.new.slots prepared.now.blobs prepared.now.chain
        (D.moment file.old.disk) (D.moment file.new.disk) result.end result.rose }
    ensures acked { map (λ file. (D.moment file.value.disk).state.moment) acked.new.items
        ≡ acked_after result.end (map (λ file. (D.moment file.value.disk).state.moment) acked.old.items) (D.moment file.new.disk).state.moment }
{
    let before = file.faults();
    let end = write(
        file,
        prepared.base,
        prepared.blobs.as_slice(),
        &prepared.chain,
    );
    let now = file.faults();
    let rose = has_risen(before, now);
    keep_moment(acked, file, &end);
    Outcome { end, rose }
}
