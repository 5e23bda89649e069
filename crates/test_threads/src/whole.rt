//! Two sessions over one store that is shared, each on a thread of its own: from the databases to what is left.

use crate::threads::stored_by_two;
use array_store::Limits;
use cell_values::{Bytes, Memory};
use std::alloc::Global;
use std::sync::Wait;
use std::thread::Threads;
use test_disks::{new_database, opened, read_over, with_change};
use test_kit::Transcript;
use test_quiet::{Answer, SilentDisk};
use test_stores::tallied;

/// Adds all that a store holds that is opened over the disk.
fn push_held(out: &mut Transcript, disk: SilentDisk, limits: Limits) {
    let held = match read_over(out.alloc(), disk, limits) {
        Ok(Ok(lines)) => Answer::Lines(lines),
        Ok(Err(fault)) => Answer::Unread(fault),
        Err(cause) => Answer::Unopened(cause),
    };
    held.tell(out);
}

fn push_run<R: Threads + Wait + Sync>(
    rt: &R,
    out: &mut Transcript,
    file: Bytes,
    limits: Limits,
    count: u32,
) {
    match opened(out.alloc(), SilentDisk::new(file), limits) {
        Ok(store) => match stored_by_two(rt, out.alloc(), store, count) {
            Ok(store) => {
                let disk = tallied(out, store, 2);
                push_held(out, disk, limits);
            }
            Err(Memory) => out.note_short(),
        },
        Err(cause) => Answer::Unopened(cause).tell(out),
    }
}

/// A database with the arrays A and B.
fn database_of_two<R: Threads + Sync>(rt: &R, alloc: Global) -> Result<Bytes, Memory> {
    let empty = new_database(alloc)?;
    let file = with_change(rt, alloc, empty, "create array A <v:int64>[i=0:0,1,0]")?;
    with_change(rt, alloc, file, "create array B <v:int64>[i=0:0,1,0]")
}

/// Adds what comes of two sessions that make so many commits each, the one of A and the other of B, beside a thread that reaps.
pub fn push_threads<R: Threads + Wait + Sync>(
    rt: &R,
    out: &mut Transcript,
    limits: Limits,
    count: u32,
) {
    match database_of_two(rt, out.alloc()) {
        Ok(file) => push_run(rt, out, file, limits, count),
        Err(Memory) => out.note_short(),
    }
}
