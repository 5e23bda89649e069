//! A bell that one thread rings and another awaits.

use std::sync::Wait;
use std::thread::{Threads, join};
use test_kit::{Transcript, push_words};
use turn_lock::{Bell, Ring};

fn word(ring: Ring) -> &'static str {
    match ring {
        Ring::Rung => "rung",
        Ring::Closed => "closed",
    }
}

/// Adds what is told of a bell that another thread rings, and then of the same bell, once it is closed.
pub(crate) fn push_bells<R: Threads + Wait + Sync>(rt: &R, out: &mut Transcript) {
    let bell = Bell::new();
    let (_, ring) = join(rt, || bell.ring(rt), || bell.await_bell(rt));
    bell.close(rt);
    let last = bell.await_bell(rt);
    push_words(out, &["bell: ", word(ring), "\nbell: ", word(last), "\n"]);
}
