//! What calls of a disk cost.

use crate::watch::Watch;
use afl_outside::DeviceCall;
use test_kit::{Transcript, push_count, push_numbered, push_word};

/// How many bytes a page has.
const PAGE: u64 = 4096;

/// Adds a write: of a whole page as `p3`, else as `p2+8:1`, which is one byte at byte 8 of page 2.
fn push_write(out: &mut Transcript, at: u64, length: u64) {
    let (page, place) = (at / PAGE, at % PAGE);
    if place == 0 && length == PAGE {
        push_numbered(out, " p", page, "");
    } else {
        push_numbered(out, " p", page, "+");
        push_numbered(out, "", place, ":");
        push_count(out, length);
    }
}

/// Adds a write or a sync.
fn push_call(out: &mut Transcript, call: &DeviceCall) {
    match call {
        DeviceCall::Write { at, bytes } => push_write(out, *at, bytes.len() as u64),
        DeviceCall::Sync { done: true } => push_word(out, " sync"),
        DeviceCall::Sync { done: false } => push_word(out, " failed-sync"),
        DeviceCall::Length | DeviceCall::Read { .. } => {}
    }
}

fn reads_in(calls: &[DeviceCall]) -> u64 {
    let mut reads: u64 = 0;
    for call in calls {
        if matches!(call, DeviceCall::Read { .. }) {
            reads = reads.saturating_add(1);
        }
    }
    reads
}

/// Adds how many reads there are, and then each write and each sync in order.
fn push_calls(out: &mut Transcript, calls: &[DeviceCall]) {
    push_numbered(out, "", reads_in(calls), " reads;");
    for call in calls {
        push_call(out, call);
    }
}

/// Adds what the calls from one on cost.
pub fn push_costs(out: &mut Transcript, watch: &Watch, from: usize) {
    match watch.disk.try_borrow() {
        Ok(disk) => {
            let calls = disk.calls();
            push_calls(out, &calls[from.min(calls.len())..]);
        }
        Err(_) => {}
    }
}
