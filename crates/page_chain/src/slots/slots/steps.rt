//! What the calls make of the slots.
ghost use Rattle.std.specs.Prelude.{◌≡◌, ◌≤◌, ◌<◌, ◌+◌, ◌*◌, length, MatchBool};
ghost use Rattle.page_chain.specs.Places.{other};
ghost use Rattle.page_chain.specs.Standing.{entry_gate, gate_place, IsShut};
ghost use Rattle.page_chain.specs.Steps.{target_slot, emptied_root, emptied_entry, emptied, aimed, shut_root, shut_entry, shut, with_root, with_record};
ghost use Rattle.page_chain.specs.declared.slots.slots.slots.Target.TheVariants as targets;

use crate::slots::layout::{Format, LOG_ENTRIES, OpenRoot, RecordAt, Records, Root, Side, Slot};
use crate::slots::slots::{NextEntry, RootSlot, Slots, Target};

impl RootSlot {
    fn emptied(self) -> RootSlot
        ensures { result ≡ emptied_root self }
    {
        match self {
            RootSlot::Written(_) => RootSlot::Closed,
            other => other,
        }
    }

    fn shut(self) -> RootSlot
        ensures { result ≡ shut_root self }
    {
        match self {
            RootSlot::Older => RootSlot::Closed,
            RootSlot::Opening(root) => RootSlot::Written(root),
            other => other,
        }
    }
}

impl NextEntry {
    fn emptied(self) -> NextEntry
        ensures { result ≡ emptied_entry self }
    {
        match self {
            NextEntry::Written(_) => NextEntry::Closed,
            other => other,
        }
    }

    fn shut(self) -> NextEntry
        ensures { result ≡ shut_entry self }
    {
        match self {
            NextEntry::Opening(at) => NextEntry::Written(at),
            other => other,
        }
    }
}

impl Slots {
    /// The target as a slot.
    pub fn target_slot(&self) -> Slot
        ensures { result ≡ target_slot self.now.target self.now }
    {
        match self.target {
            Target::Record => Slot::Log(self.records.len() as u32),
            Target::Root => match self.current.side.other() {
                Side::A => Slot::A,
                Side::B => Slot::B,
            },
        }
    }

    /// Where the gate of the next log entry stands.
    pub(crate) fn entry_gate(&self) -> u64
        ensures { result ≡ entry_gate self.now }
    {
        4096 * self.current.root.log as u64 + 64 * self.records.len() as u64
    }

    /// Where the target's gate stands.
    pub(crate) fn gate(&self) -> u64
        ensures { result ≡ gate_place self.now.target self.now }
    {
        match self.target {
            Target::Root => self.current.side.other().gate() as u64,
            Target::Record => self.entry_gate(),
        }
    }

    /// Another slot becomes the target.
    pub fn aim(&mut self, target: Target)
        ensures { self.new ≡ aimed target self.old }
    {
        self.target = target;
        self.other = self.other.emptied();
        self.next = self.next.emptied();
        self.zeroed = None;
    }

    /// What was written for the target doesn't count any more.
    pub fn empty(&mut self)
        ensures { self.new ≡ emptied self.old }
    {
        self.other = self.other.emptied();
        self.next = self.next.emptied();
    }

    pub(crate) fn shut(&mut self)
        ensures { self.new ≡ shut self.old.target self.old }
    {
        match self.target {
            Target::Root => self.other = self.other.shut(),
            Target::Record => self.next = self.next.shut(),
        }
        self.doubtful = false;
    }

    pub(crate) fn take_root(&mut self, root: Root)
        ensures { self.new ≡ with_root root self.old }
    {
        *self = Slots {
            current: OpenRoot {
                side: self.current.side.other(),
                format: Format::Two,
                root,
            },
            records: Records::new(),
            target: Target::Record,
            other: RootSlot::Older,
            next: NextEntry::Closed,
            doubtful: false,
            zeroed: None,
        };
    }

    pub(crate) fn take_record(&mut self, at: RecordAt)
        requires { length self.old.records < 64 }
        ensures { self.new ≡ with_record at self.old }
    {
        self.records.push(at);
        self.target = if self.records.len() < LOG_ENTRIES {
            Target::Record
        } else {
            Target::Root
        };
        self.next = NextEntry::Closed;
        self.zeroed = None;
    }

    /// Whether the target's gate may stand open.
    pub(crate) fn may_stand_open(&self) -> bool
        ensures { MatchBool result (¬ IsShut self.now.target self.now) (IsShut self.now.target self.now) }
    {
        match self.target {
            Target::Root => matches!(self.other, RootSlot::Older | RootSlot::Opening(_)),
            Target::Record => matches!(self.next, NextEntry::Opening(_)),
        }
    }
}
