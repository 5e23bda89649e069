//! A bell that threads ring and one thread awaits. No promise rests on it.

use std::sync::{Condvar, Mutex, Wait};

#[derive(Drop)]
struct State {
    rung: bool,
    closed: bool,
}

/// A bell.
#[derive(Drop)]
pub struct Bell {
    state: Mutex<State>,
    changed: Condvar,
}

/// Why a wait for a bell ended.
#[derive(Clone, Copy)]
pub enum Ring {
    Rung,
    Closed,
}

impl Bell {
    /// A bell that was neither rung nor closed.
    pub fn new() -> Bell {
        Bell {
            state: Mutex::new(State {
                rung: false,
                closed: false,
            }),
            changed: Condvar::new(),
        }
    }

    /// Rings it.
    pub fn ring<R: Wait>(&self, rt: &R) {
        let mut state = self.state.lock(rt);
        state.rung = true;
        self.changed.notify_all();
    }

    /// Closes it for good: each wait then ends, once it was told of what was rung before.
    pub fn close<R: Wait>(&self, rt: &R) {
        let mut state = self.state.lock(rt);
        state.closed = true;
        self.changed.notify_all();
    }

    /// Waits until the bell was rung since the last such call, or is closed.
    pub fn await_bell<R: Wait>(&self, rt: &R) -> Ring {
        let mut state = self.changed.wait_while(rt, self.state.lock(rt), |state| {
            !state.rung && !state.closed
        });
        if state.rung {
            state.rung = false;
            return Ring::Rung;
        }
        Ring::Closed
    }
}
