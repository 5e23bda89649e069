//! A store that three sessions share, from its database on.
ghost use Rattle.std.specs.Prelude.{◌≡◌, [], IfOk};
ghost use Rattle.test_stores.specs.Runs.{IsRun};

use array_store::Limits;
use cell_values::{Bytes, Memory};
use snapshot_manager::{Shared, Store};
use std::alloc::Global;
use std::thread::Threads;
use test_disks::{let_go_store, new_database, opened, with_change};
use test_quiet::{Answer, SilentDisk};
use test_stores::{Run, seated};

/// A store in which nothing was done yet is shared among three sessions.
fn shared_by_three(alloc: Global, store: Store<SilentDisk>) -> Result<Run, Memory>
    requires entries { store.ledger.entries ≡ [] }
    requires notes { store.ledger.notes ≡ [] }
    ensures { IfOk result IsRun }
{
    let Ok(room) = Vec::with_capacity(alloc, 4) else {
        let_go_store(store);
        return Err(Memory);
    };
    match Shared::new(alloc, store, 3) {
        Ok((shared, seats)) => Ok(seated(shared, seats, room)),
        Err((Memory, store)) => {
            drop(room);
            let_go_store(store);
            Err(Memory)
        }
    }
}

/// The array A at version 1: its first chunk has cells, and its second one has none.
const FIRST: &str = "store(filter(build(<v:int64>[i=0:3,2,0], i), i < 2), A)";

/// A store over these bytes, that three sessions share.
fn shared_over(alloc: Global, bytes: Bytes, limits: Limits) -> Result<Run, Answer>
    ensures { IfOk result IsRun }
{
    match opened(alloc, SilentDisk::new(bytes), limits) {
        Ok(store) => match shared_by_three(alloc, store) {
            Ok(run) => Ok(run),
            Err(Memory) => Err(Answer::Memory),
        },
        Err(cause) => Err(Answer::Unopened(cause)),
    }
}

/// A store with the array A at version 1, that three sessions share.
pub fn shared_database<R: Threads + Sync>(
    rt: &R,
    alloc: Global,
    limits: Limits,
) -> Result<Run, Answer>
    ensures { IfOk result IsRun }
{
    match new_database(alloc) {
        Ok(empty) => match with_change(rt, alloc, empty, FIRST) {
            Ok(file) => shared_over(alloc, file, limits),
            Err(Memory) => Err(Answer::Memory),
        },
        Err(Memory) => Err(Answer::Memory),
    }
}
