//! A database's file.
ghost use Rattle.std.specs.Prelude.{◌≡◌, ℕ, List, ◌<◌, ◌+◌, true, false, IsTrue, IfSome, IfOk, IfErr, OnOk, Ok, Err, MatchResult};
ghost use Rattle.page_chain.specs.Disk.{FailsWithCause, Only};
ghost use Rattle.page_chain.specs.Places.{body_of, other};
ghost use Rattle.page_chain.specs.Puts.{OnlyPuts, OnlySyncs};
ghost use Rattle.page_chain.specs.Standing.{entry_gate, gate_place, IsTarget, IsShut, IsReady, IsShutRoot};
ghost use Rattle.page_chain.specs.Standing.{IsShutEntry, IsSound, KeepsSound, LeavesOpening, IsDurable};
ghost use Rattle.page_chain.specs.Steps.{target_slot, aimed, shut, doubted, with_target, ajar};
ghost use Rattle.page_chain.specs.declared.slots.slots.slots.RootSlot.TheVariants as roots;
ghost use Rattle.page_chain.specs.declared.slots.slots.slots.NextEntry.TheVariants as entries;
ghost use Rattle.page_chain.specs.declared.slots.slots.slots.Target.TheVariants as targets;
ghost use Rattle.page_file.specs.Inner.Aims.{target_of, IsAim};
ghost use Rattle.page_file.specs.OpeningOpened.{IsOpened, AreFresh, HasCause};

use crate::opening::open_slots;
use page_chain::{Disk, Failed, OpenCause, RecordAt, Root, Side, Slot, Slots, Target};
use std::marker::Model;

fn target_of(slot: Slot) -> Target
    ensures { result ≡ target_of slot }
{
    match slot {
        Slot::A => Target::Root,
        Slot::B => Target::Root,
        Slot::Log(_) => Target::Record,
    }
}

/// A database's file on a disk, with what is known of its slots.
#[derive(Drop)]
pub struct PageFile<D: Disk> {
    pub(crate) disk: D,
    pub(crate) slots: Slots,
}

impl<D: Disk> Model for PageFile<D> {
    ghost use Rattle.page_file.specs.FilesOpened.{OpenFile};

    ghost Value = { OpenFile D };

    ghost view = { λ f. record { disk = f.disk; slots = f.slots } };
}

impl<D: Disk> PageFile<D> {
    /// Opens a file. A disk that isn't opened is handed back.
    pub fn open(mut disk: D) -> Result<PageFile<D>, (OpenCause, D)>
        ensures opened { IfSome (D.moment disk).state.seen (λ seen. MatchResult result (λ file. IsOpened seen (Ok file.slots)) (λ x. IsOpened seen (Err x.0))) }
        ensures durable { IfOk result (λ file. IsTrue (D.moment disk).state.honest
            → IfSome (D.moment disk).state.seen (λ seen. Only seen (D.moment file.disk).may_leave)) }
        ensures sound { IsTrue (D.moment disk).state.honest
            → IfSome (D.moment disk).state.seen (λ seen. IfOk result (λ file. IsSound file.slots seen (D.moment file.disk).may_leave)) }
        ensures fresh { IfOk result (λ file. AreFresh file.slots) }
        ensures reads { MatchResult result
            (λ file. OnlySyncs (D.moment disk) (D.moment file.disk))
            (λ x. OnlySyncs (D.moment disk) (D.moment x.1)) }
        ensures cause { IfErr result (λ x. HasCause x.0 (D.moment disk).state (D.moment x.1).state) }
    {
        match open_slots(&mut disk) {
            Ok(slots) => Ok(PageFile { disk, slots }),
            Err(fault) => Err((fault, disk)),
        }
    }

    /// The current root.
    pub fn root(&self) -> Root
        ensures { result ≡ self.now.slots.current.root }
    {
        self.slots.current.root
    }

    /// What the next commit is to open.
    pub fn target(&self) -> Slot
        ensures { result ≡ target_slot self.now.slots.target self.now.slots }
    {
        self.slots.target_slot()
    }

    /// The root slot that isn't current.
    pub fn other_root(&self) -> Slot
        ensures { result ≡ target_slot targets.Root self.now.slots }
    {
        match self.slots.current.side.other() {
            Side::A => Slot::A,
            Side::B => Slot::B,
        }
    }

    /// The log.
    pub fn records(&self) -> &[RecordAt]
        ensures { result.now ≡ self.now.slots.records }
    {
        self.slots.records.as_slice()
    }

    /// How often the disk has failed, but for want of memory.
    pub fn faults(&self) -> u64
        ensures { result ≡ (D.moment self.now.disk).state.faults }
    {
        self.disk.faults()
    }

    /// How often the disk has found no memory.
    pub fn wants(&self) -> u64
        ensures { result ≡ (D.moment self.now.disk).state.wants }
    {
        self.disk.wants()
    }

    /// Hands the disk back as it is.
    pub fn close(self) -> D
        ensures { result ≡ self.disk }
    {
        let PageFile { disk, slots: _ } = self;
        disk
    }

    /// Another slot becomes the target: the other root slot, or the next log entry.
    pub fn aim(&mut self, slot: Slot)
        requires sure { self.old.slots.doubtful ≡ false }
        requires slot { IsAim slot self.old.slots }
        ensures slots { self.new.slots ≡ aimed (target_of slot) self.old.slots }
        ensures disk { self.new.disk ≡ self.old.disk }
        ensures sound { (seen : List ℕ) → IsSound self.old.slots seen (D.moment self.old.disk).may_leave
            → IsSound self.new.slots seen (D.moment self.new.disk).may_leave }
    {
        let target = target_of(slot);
        self.slots.aim(target);
    }

    /// Closes the target on the disk.
    pub fn close_slot(&mut self) -> Result<(), Failed>
        requires { IsTarget self.old.slots }
        ensures slots { MatchResult result (λ _. self.new.slots ≡ shut self.old.slots.target self.old.slots) (λ _. self.new.slots ≡ doubted self.old.slots) }
        ensures sound { KeepsSound self.old.slots self.new.slots (D.moment self.old.disk) (D.moment self.new.disk) }
        ensures opens { LeavesOpening self.old.slots self.old.slots (D.moment self.old.disk) (D.moment self.new.disk) }
        ensures durable { OnOk result (IsDurable (D.moment self.old.disk) (D.moment self.new.disk)) }
        ensures writes { OnlyPuts (gate_place self.old.slots.target self.old.slots) 1 (D.moment self.old.disk) (D.moment self.new.disk) }
        ensures quiet { IsShut self.old.slots.target self.old.slots → OnlySyncs (D.moment self.old.disk) (D.moment self.new.disk) }
        ensures cause { FailsWithCause result (D.moment self.old.disk) (D.moment self.new.disk) }
    {
        page_chain::close_slot(&mut self.slots, &mut self.disk)
    }

    /// Writes the root that the target is to open.
    pub fn write_root(&mut self, root: Root) -> Result<(), Failed>
        requires closed { IsShutRoot self.old.slots.other }
        requires sure { self.old.slots.doubtful ≡ false }
        requires target { self.old.slots.target ≡ targets.Root }
        requires newer { self.old.slots.current.root.sequence < root.sequence }
        ensures slots { MatchResult result (λ _. self.new.slots ≡ record (self.old.slots) { other = roots.Written root })
            (λ _. self.new.slots ≡ record (self.old.slots) { other = roots.Closed; doubtful = true }) }
        ensures sound { KeepsSound self.old.slots self.new.slots (D.moment self.old.disk) (D.moment self.new.disk) }
        ensures opens { LeavesOpening self.old.slots (record (self.old.slots) { other = roots.Closed }) (D.moment self.old.disk) (D.moment self.new.disk) }
        ensures durable { OnOk result (IsDurable (D.moment self.old.disk) (D.moment self.new.disk)) }
        ensures writes { OnlyPuts (body_of (other self.old.slots.current.side)) 24 (D.moment self.old.disk) (D.moment self.new.disk) }
        ensures cause { FailsWithCause result (D.moment self.old.disk) (D.moment self.new.disk) }
    {
        page_chain::write_root(&mut self.slots, &mut self.disk, root)
    }

    /// Writes where the record lies that the target is to open.
    pub fn write_record(&mut self, at: RecordAt) -> Result<(), Failed>
        requires closed { IsShutEntry self.old.slots.next }
        requires sure { self.old.slots.doubtful ≡ false }
        requires target { self.old.slots.target ≡ targets.Record }
        requires there { IsTarget self.old.slots }
        ensures slots { MatchResult result (λ _. self.new.slots ≡ record (self.old.slots) { next = entries.Written at })
            (λ _. self.new.slots ≡ record (self.old.slots) { next = entries.Closed; doubtful = true }) }
        ensures sound { KeepsSound self.old.slots self.new.slots (D.moment self.old.disk) (D.moment self.new.disk) }
        ensures opens { LeavesOpening self.old.slots (record (self.old.slots) { next = entries.Closed }) (D.moment self.old.disk) (D.moment self.new.disk) }
        ensures durable { OnOk result (IsDurable (D.moment self.old.disk) (D.moment self.new.disk)) }
        ensures writes { OnlyPuts (entry_gate self.old.slots + 8) 12 (D.moment self.old.disk) (D.moment self.new.disk) }
        ensures cause { FailsWithCause result (D.moment self.old.disk) (D.moment self.new.disk) }
    {
        page_chain::write_record(&mut self.slots, &mut self.disk, at)
    }

    /// Opens the target, once what it is to open is on the disk.
    pub fn open_slot(&mut self) -> Result<(), Failed>
        requires ready { IsReady self.old.slots.target self.old.slots }
        requires sure { self.old.slots.doubtful ≡ false }
        requires there { IsTarget self.old.slots }
        ensures slots { MatchResult result (λ _. self.new.slots ≡ with_target self.old.slots.target self.old.slots)
            (λ _. self.new.slots ≡ doubted (ajar self.old.slots.target self.old.slots)) }
        ensures sound { KeepsSound self.old.slots self.new.slots (D.moment self.old.disk) (D.moment self.new.disk) }
        ensures opens { LeavesOpening self.old.slots (ajar self.old.slots.target self.old.slots) (D.moment self.old.disk) (D.moment self.new.disk) }
        ensures durable { OnOk result (IsDurable (D.moment self.old.disk) (D.moment self.new.disk)) }
        ensures writes { OnlyPuts (gate_place self.old.slots.target self.old.slots) 1 (D.moment self.old.disk) (D.moment self.new.disk) }
        ensures cause { FailsWithCause result (D.moment self.old.disk) (D.moment self.new.disk) }
    {
        page_chain::open_slot(&mut self.slots, &mut self.disk)
    }
}
