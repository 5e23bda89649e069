//! The writes that close, fill and open a slot.
ghost use Rattle.std.specs.Prelude.{◌≡◌, ◌<◌, ◌+◌, true, false, Some, OnOk, MatchResult};
ghost use Rattle.afl_outside.specs.Disk.{FailsWithCause};
ghost use Rattle.page_chain.specs.Places.{body_of, other, gate_of};
ghost use Rattle.page_chain.specs.Puts.{OnlyPuts, OnlySyncs};
ghost use Rattle.page_chain.specs.Standing.{entry_gate, gate_place, IsTarget, IsShut, IsClosed, IsReady};
ghost use Rattle.page_chain.specs.Standing.{IsShutRoot, IsShutEntry, KeepsSound, LeavesOpening, IsDurable};
ghost use Rattle.page_chain.specs.Steps.{shut, doubted, with_root, with_record, with_target, ajar};
ghost use Rattle.page_chain.specs.declared.slots.slots.slots.RootSlot.TheVariants as roots;
ghost use Rattle.page_chain.specs.declared.slots.slots.slots.NextEntry.TheVariants as entries;
ghost use Rattle.page_chain.specs.declared.slots.slots.slots.Target.TheVariants as targets;

use crate::slots::layout::{RecordAt, Root, record_body, root_body};
use crate::slots::slots::puts::{put, settle};
use crate::slots::slots::{NextEntry, RootSlot, Slots, Target};
use afl_outside::{Disk, Failed};

/// Writes the body of the root slot that isn't current.
pub fn write_root<D: Disk>(slots: &mut Slots, disk: &mut D, root: Root) -> Result<(), Failed>
    requires closed { IsShutRoot slots.old.other }
    requires sure { slots.old.doubtful ≡ false }
    requires target { slots.old.target ≡ targets.Root }
    requires newer { slots.old.current.root.sequence < root.sequence }
    ensures slots { MatchResult result (λ _. slots.new ≡ record slots.old { other = roots.Written root })
        (λ _. slots.new ≡ record slots.old { other = roots.Closed; doubtful = true }) }
    ensures sound { KeepsSound slots.old slots.new (D.moment disk.old) (D.moment disk.new) }
    ensures opens { LeavesOpening slots.old (record slots.old { other = roots.Closed }) (D.moment disk.old) (D.moment disk.new) }
    ensures durable { OnOk result (IsDurable (D.moment disk.old) (D.moment disk.new)) }
    ensures writes { OnlyPuts (body_of (other slots.old.current.side)) 24 (D.moment disk.old) (D.moment disk.new) }
    ensures cause { FailsWithCause result (D.moment disk.old) (D.moment disk.new) }
{
    let at = slots.current.side.other().body() as u64;
    match put(disk, at, &root_body(root)) {
        Ok(()) => {
            slots.other = RootSlot::Written(root);
            Ok(())
        }
        Err(Failed) => {
            slots.other = RootSlot::Closed;
            slots.doubtful = true;
            Err(Failed)
        }
    }
}

/// Writes the body of the log entry behind the open ones.
pub fn write_record<D: Disk>(slots: &mut Slots, disk: &mut D, at: RecordAt) -> Result<(), Failed>
    requires closed { IsShutEntry slots.old.next }
    requires sure { slots.old.doubtful ≡ false }
    requires target { slots.old.target ≡ targets.Record }
    requires there { IsTarget slots.old }
    ensures slots { MatchResult result (λ _. slots.new ≡ record slots.old { next = entries.Written at })
        (λ _. slots.new ≡ record slots.old { next = entries.Closed; doubtful = true }) }
    ensures sound { KeepsSound slots.old slots.new (D.moment disk.old) (D.moment disk.new) }
    ensures opens { LeavesOpening slots.old (record slots.old { next = entries.Closed }) (D.moment disk.old) (D.moment disk.new) }
    ensures durable { OnOk result (IsDurable (D.moment disk.old) (D.moment disk.new)) }
    ensures writes { OnlyPuts (entry_gate slots.old + 8) 12 (D.moment disk.old) (D.moment disk.new) }
    ensures cause { FailsWithCause result (D.moment disk.old) (D.moment disk.new) }
{
    let place = slots.entry_gate() + 8;
    match put(disk, place, &record_body(at)) {
        Ok(()) => {
            slots.next = NextEntry::Written(at);
            Ok(())
        }
        Err(Failed) => {
            slots.next = NextEntry::Closed;
            slots.doubtful = true;
            Err(Failed)
        }
    }
}

fn close_root<D: Disk>(slots: &mut Slots, disk: &mut D) -> Result<(), Failed>
    requires ajar { ¬ IsShutRoot slots.old.other }
    requires target { slots.old.target ≡ targets.Root }
    ensures slots { MatchResult result (λ _. slots.new ≡ shut slots.old.target slots.old) (λ _. slots.new ≡ doubted slots.old) }
    ensures sound { KeepsSound slots.old slots.new (D.moment disk.old) (D.moment disk.new) }
    ensures opens { LeavesOpening slots.old slots.old (D.moment disk.old) (D.moment disk.new) }
    ensures durable { OnOk result (IsDurable (D.moment disk.old) (D.moment disk.new)) }
    ensures writes { OnlyPuts (gate_of (other slots.old.current.side)) 1 (D.moment disk.old) (D.moment disk.new) }
    ensures cause { FailsWithCause result (D.moment disk.old) (D.moment disk.new) }
{
    let place = slots.current.side.other().gate() as u64;
    match put(disk, place, &[0]) {
        Ok(()) => {
            slots.shut();
            Ok(())
        }
        Err(Failed) => {
            slots.doubtful = true;
            Err(Failed)
        }
    }
}

fn close_entry<D: Disk>(slots: &mut Slots, disk: &mut D) -> Result<(), Failed>
    requires ajar { ¬ IsShutEntry slots.old.next }
    requires target { slots.old.target ≡ targets.Record }
    requires there { IsTarget slots.old }
    ensures slots { MatchResult result (λ _. slots.new ≡ shut slots.old.target slots.old) (λ _. slots.new ≡ doubted slots.old) }
    ensures sound { KeepsSound slots.old slots.new (D.moment disk.old) (D.moment disk.new) }
    ensures opens { LeavesOpening slots.old slots.old (D.moment disk.old) (D.moment disk.new) }
    ensures durable { OnOk result (IsDurable (D.moment disk.old) (D.moment disk.new)) }
    ensures writes { OnlyPuts (entry_gate slots.old) 1 (D.moment disk.old) (D.moment disk.new) }
    ensures cause { FailsWithCause result (D.moment disk.old) (D.moment disk.new) }
{
    let place = slots.entry_gate();
    match put(disk, place, &[0]) {
        Ok(()) => {
            slots.shut();
            Ok(())
        }
        Err(Failed) => {
            slots.doubtful = true;
            Err(Failed)
        }
    }
}

fn close_settled<D: Disk>(slots: &mut Slots, disk: &mut D) -> Result<(), Failed>
    requires { IsShut slots.old.target slots.old }
    ensures slots { MatchResult result (λ _. slots.new ≡ shut slots.old.target slots.old) (λ _. slots.new ≡ doubted slots.old) }
    ensures sound { KeepsSound slots.old slots.new (D.moment disk.old) (D.moment disk.new) }
    ensures opens { LeavesOpening slots.old slots.old (D.moment disk.old) (D.moment disk.new) }
    ensures durable { OnOk result (IsDurable (D.moment disk.old) (D.moment disk.new)) }
    ensures syncs { OnlySyncs (D.moment disk.old) (D.moment disk.new) }
    ensures cause { FailsWithCause result (D.moment disk.old) (D.moment disk.new) }
{
    match settle(disk) {
        Ok(()) => {
            slots.shut();
            Ok(())
        }
        Err(Failed) => {
            slots.doubtful = true;
            Err(Failed)
        }
    }
}

fn open_root<D: Disk>(slots: &mut Slots, disk: &mut D, root: Root) -> Result<(), Failed>
    requires written { slots.old.other ≡ roots.Written root }
    requires zeroed { slots.old.zeroed ≡ Some root.log }
    requires target { slots.old.target ≡ targets.Root }
    ensures slots { MatchResult result (λ _. slots.new ≡ with_root root slots.old)
        (λ _. slots.new ≡ record slots.old { other = roots.Opening root; doubtful = true }) }
    ensures sound { KeepsSound slots.old slots.new (D.moment disk.old) (D.moment disk.new) }
    ensures opens { LeavesOpening slots.old (record slots.old { other = roots.Opening root }) (D.moment disk.old) (D.moment disk.new) }
    ensures durable { OnOk result (IsDurable (D.moment disk.old) (D.moment disk.new)) }
    ensures writes { OnlyPuts (gate_of (other slots.old.current.side)) 1 (D.moment disk.old) (D.moment disk.new) }
    ensures cause { FailsWithCause result (D.moment disk.old) (D.moment disk.new) }
{
    let place = slots.current.side.other().gate() as u64;
    match put(disk, place, &[2]) {
        Ok(()) => {
            slots.take_root(root);
            Ok(())
        }
        Err(Failed) => {
            slots.other = RootSlot::Opening(root);
            slots.doubtful = true;
            Err(Failed)
        }
    }
}

fn open_entry<D: Disk>(slots: &mut Slots, disk: &mut D, at: RecordAt) -> Result<(), Failed>
    requires written { slots.old.next ≡ entries.Written at }
    requires sure { slots.old.doubtful ≡ false }
    requires target { slots.old.target ≡ targets.Record }
    requires there { IsTarget slots.old }
    ensures slots { MatchResult result (λ _. slots.new ≡ with_record at slots.old)
        (λ _. slots.new ≡ record slots.old { next = entries.Opening at; doubtful = true }) }
    ensures sound { KeepsSound slots.old slots.new (D.moment disk.old) (D.moment disk.new) }
    ensures opens { LeavesOpening slots.old (record slots.old { next = entries.Opening at }) (D.moment disk.old) (D.moment disk.new) }
    ensures durable { OnOk result (IsDurable (D.moment disk.old) (D.moment disk.new)) }
    ensures writes { OnlyPuts (entry_gate slots.old) 1 (D.moment disk.old) (D.moment disk.new) }
    ensures cause { FailsWithCause result (D.moment disk.old) (D.moment disk.new) }
{
    let place = slots.entry_gate();
    match put(disk, place, &[1]) {
        Ok(()) => {
            slots.take_record(at);
            Ok(())
        }
        Err(Failed) => {
            slots.next = NextEntry::Opening(at);
            slots.doubtful = true;
            Err(Failed)
        }
    }
}

/// Closes the target on the disk. Where its gate can't stand open it is only synced: a write over a closed gate might leave an open
/// one, over a body that isn't whole.
pub fn close_slot<D: Disk>(slots: &mut Slots, disk: &mut D) -> Result<(), Failed>
    requires { IsTarget slots.old }
    ensures slots { MatchResult result (λ _. slots.new ≡ shut slots.old.target slots.old) (λ _. slots.new ≡ doubted slots.old) }
    ensures sound { KeepsSound slots.old slots.new (D.moment disk.old) (D.moment disk.new) }
    ensures opens { LeavesOpening slots.old slots.old (D.moment disk.old) (D.moment disk.new) }
    ensures durable { OnOk result (IsDurable (D.moment disk.old) (D.moment disk.new)) }
    ensures writes { OnlyPuts (gate_place slots.old.target slots.old) 1 (D.moment disk.old) (D.moment disk.new) }
    ensures cause { FailsWithCause result (D.moment disk.old) (D.moment disk.new) }
    ensures quiet { IsShut slots.old.target slots.old → OnlySyncs (D.moment disk.old) (D.moment disk.new) }
{
    if !slots.may_stand_open() {
        return close_settled(slots, disk);
    }
    match slots.target {
        Target::Root => close_root(slots, disk),
        Target::Record => close_entry(slots, disk),
    }
}

/// Opens the target, once what it is to open is on the disk.
pub fn open_slot<D: Disk>(slots: &mut Slots, disk: &mut D) -> Result<(), Failed>
    requires ready { IsReady slots.old.target slots.old }
    requires sure { slots.old.doubtful ≡ false }
    requires there { IsTarget slots.old }
    ensures slots { MatchResult result (λ _. slots.new ≡ with_target slots.old.target slots.old) (λ _. slots.new ≡ doubted (ajar slots.old.target slots.old)) }
    ensures sound { KeepsSound slots.old slots.new (D.moment disk.old) (D.moment disk.new) }
    ensures opens { LeavesOpening slots.old (ajar slots.old.target slots.old) (D.moment disk.old) (D.moment disk.new) }
    ensures durable { OnOk result (IsDurable (D.moment disk.old) (D.moment disk.new)) }
    ensures writes { OnlyPuts (gate_place slots.old.target slots.old) 1 (D.moment disk.old) (D.moment disk.new) }
    ensures cause { FailsWithCause result (D.moment disk.old) (D.moment disk.new) }
{
    match slots.target {
        Target::Root => match slots.other {
            RootSlot::Written(root) => open_root(slots, disk, root),
            _ => unreachable!(),
        },
        Target::Record => match slots.next {
            NextEntry::Written(at) => open_entry(slots, disk, at),
            _ => unreachable!(),
        },
    }
}
