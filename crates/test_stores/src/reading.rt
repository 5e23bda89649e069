//! What a version holds under a session's pin of a shared store.
ghost use Rattle.std.specs.Prelude.{◌≡◌};
ghost use Rattle.cell_values.specs.Schemas.{IsValid};
ghost use Rattle.store_state.specs.Calls.{chunks_at, IsLeafOf};
ghost use Rattle.snapshot_manager.specs.Seats.{store_seen, HoldsPin, IsIdle, IsSeatOf};
ghost use Rattle.test_stores.specs.Visits.{IsPinOf};

use afl_outside::Disk;
use cell_values::{ChunkAt, List, Memory, Row};
use logical_plan::Leaf;
use snapshot_manager::{Seat, Shared};
use std::alloc::Global;
use std::sync::Wait;
use store_ledger::Pinned;
use store_state::ReadFault;
use test_quiet::{Answer, add_read, lines_of, named_leaf};

/// Adds the rows of a version, chunk by chunk.
fn add_chunks<D: Disk, R: Wait>(
    rt: &R,
    alloc: Global,
    shared: &Shared<D>,
    seat: &mut Seat<D>,
    pinned: &Pinned,
    leaf: &Leaf,
    numbers: &[ChunkAt],
    rows: &mut List<Row>,
) -> Result<(), ReadFault>
    requires seat { IsSeatOf shared.now seat.old × IsIdle seat.old }
    requires pin { HoldsPin D.moment shared.now seat.old pinned.now }
    requires leaf { IsLeafOf pinned.now.names leaf.now }
    requires valid { IsValid leaf.now.schema }
    requires numbers { numbers.now ≡ chunks_at (store_seen D.moment shared.now seat.old) pinned.now.place leaf.now }
    ensures seat { IsSeatOf shared.now seat.new × IsIdle seat.new }
    ensures pin { HoldsPin D.moment shared.now seat.new pinned.now }
{
    for at in numbers {
        let chunk = shared.read_chunk(rt, alloc, seat, pinned, leaf, at)?;
        add_read(rows, leaf, Ok(Some(chunk)))?;
    }
    Ok(())
}

/// Rows of a version, if all were read, as an answer.
fn told(alloc: Global, leaf: &Leaf, rows: List<Row>, read: Result<(), ReadFault>) -> Answer {
    match read {
        Ok(()) => match lines_of(alloc, leaf, rows) {
            Ok(lines) => Answer::Lines(lines),
            Err(fault) => Answer::Unread(fault),
        },
        Err(fault) => Answer::Unread(fault),
    }
}

/// The cells of the version that a word names, under a session's pin: its attributes' names, and its cells in lines.
pub(crate) fn told_cells<D: Disk, R: Wait>(
    rt: &R,
    alloc: Global,
    shared: &Shared<D>,
    seat: &mut Seat<D>,
    pinned: &Pinned,
    word: &str,
) -> Answer
    requires seat { IsSeatOf shared.now seat.old × IsIdle seat.old }
    requires pin { IsPinOf D.moment shared.now seat.old pinned.now }
    ensures seat { IsSeatOf shared.now seat.new × IsIdle seat.new }
    ensures pin { IsPinOf D.moment shared.now seat.new pinned.now }
{
    match named_leaf(alloc, &pinned.names, word) {
        Some(leaf) => match shared.listed(rt, alloc, seat, pinned, &leaf) {
            Ok(numbers) => {
                let mut rows = List::new(alloc);
                let chunks = numbers.as_slice();
                let read = add_chunks(rt, alloc, shared, seat, pinned, &leaf, chunks, &mut rows);
                told(alloc, &leaf, rows, read)
            }
            Err(Memory) => Answer::Unread(ReadFault::Memory),
        },
        None => Answer::Unknown,
    }
}
