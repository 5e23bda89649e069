//! The calls of a disk, for contracts alone.
ghost use Rattle.std.specs.Prelude.{◌≡◌, ◌++◌, ◌∷◌, []};

use crate::in_memory::device_call::DeviceCall;
use std::marker::Model;
use std::mem::replace;
use std::snapshot::Snapshot;

/// A call and those before it. Of these there is a snapshot, which only contracts read: it takes no memory.
pub(crate) enum Calls {
    Nothing,
    After {
        before: Snapshot<Calls>,
        call: DeviceCall,
    },
}

impl Drop for Calls {
    fn drop(self) {
        match self {
            Calls::Nothing => {}
            Calls::After { before: _, call: _ } => {}
        }
    }
}

/// Calls in order, for contracts alone: at run time it is empty.
#[derive(Drop)]
pub(crate) struct CallHistory {
    calls: Snapshot<Calls>,
}

impl Model for CallHistory {
    ghost use Rattle.std.specs.Prelude.{List};
    ghost use Rattle.afl_outside.specs.declared.in_memory.device_call.DeviceCall.{DeviceCall};
    ghost use Rattle.afl_outside.specs.Inner.CallHistory.{calls_in};

    ghost Value = { List DeviceCall };

    ghost view = { λ t. calls_in t.calls.value };
}

impl CallHistory {
    pub(crate) fn new() -> CallHistory
        ensures { result ≡ [] }
    {
        CallHistory {
            calls: Snapshot::of(&Calls::Nothing),
        }
    }

    pub(crate) fn push(&mut self, call: DeviceCall)
        ensures { self.new ≡ self.old ++ call ∷ [] }
    {
        let before = replace(&mut self.calls, Snapshot::of(&Calls::Nothing));
        let calls = Calls::After { before, call };
        self.calls = Snapshot::of(&calls);
        drop(calls);
    }
}
