//! What the versions of a store hold.
ghost use Rattle.std.specs.Prelude.{◌≡◌, ℕ, List, IfOk, IfSome, IsTrue};
ghost use Rattle.arrayvec.specs.ArrayVec.{ArrayVec};
ghost use Rattle.cell_values.specs.Schemas.{IsValid};
ghost use Rattle.chunk_source.specs.Source.{is_among};
ghost use Rattle.store_ledger.specs.Ledger.{IsOpenPin};
ghost use Rattle.store_state.specs.Calls.{IsLeafOf};
ghost use Rattle.test_quiet.specs.Cells.{IsRead};
ghost use Rattle.test_disks.specs.Holds.{LeavesAll};

use afl_outside::Disk;
use array_geom::Chunk;
use array_store::Store;
use cell_values::{Bytes, ChunkAt, List, Memory, copy_numbers};
use logical_plan::Leaf;
use std::alloc::Global;
use store_ledger::Pinned;
use store_state::ReadFault;
use test_quiet::{add_read, lines_of};

/// The number at a place among those that were listed; none past the last one.
fn number_at(
    numbers: Result<List<ChunkAt>, Memory>,
    place: usize,
) -> Result<Option<ChunkAt>, ReadFault>
    ensures { (chunks : List (ArrayVec ℕ)) → IfOk numbers (λ numbers. numbers ≡ chunks)
        → IfOk result (λ found. IfSome found (λ at. IsTrue (is_among at chunks))) }
{
    match numbers {
        Ok(numbers) => match numbers.get(place) {
            Some(at) => Ok(Some(copy_numbers(at))),
            None => Ok(None),
        },
        Err(Memory) => Err(ReadFault::Memory),
    }
}

/// The chunk at a place among those of a version; none past the last one.
fn chunk_at<D: Disk>(
    alloc: Global,
    store: &mut Store<D>,
    pinned: &Pinned,
    leaf: &Leaf,
    place: usize,
) -> Result<Option<Chunk>, ReadFault>
    requires open { IsOpenPin store.old.ledger pinned.now }
    requires leaf { IsLeafOf pinned.now.names leaf.now }
    ensures read { IfOk result (λ read. IfSome read (IsRead leaf.now.schema)) }
    ensures open { IsOpenPin store.new.ledger pinned.now }
    ensures all { LeavesAll store.old.ledger store.new.ledger }
{
    let numbers = store.listed(alloc, pinned, leaf);
    match number_at(numbers, place) {
        Ok(Some(at)) => match store.read_chunk(alloc, pinned, leaf, &at) {
            Ok(chunk) => Ok(Some(chunk)),
            Err(fault) => Err(fault),
        },
        Ok(None) => Ok(None),
        Err(fault) => Err(fault),
    }
}

fn count<D: Disk>(alloc: Global, store: &Store<D>, pinned: &Pinned, leaf: &Leaf) -> usize
    requires open { IsOpenPin store.now.ledger pinned.now }
    requires leaf { IsLeafOf pinned.now.names leaf.now }
{
    match store.listed(alloc, pinned, leaf) {
        Ok(numbers) => numbers.len(),
        Err(Memory) => 0,
    }
}

/// What a version holds under a pin: its attributes' names, and its cells in lines, chunk by chunk.
pub(crate) fn cells<D: Disk>(
    alloc: Global,
    store: &mut Store<D>,
    pinned: &Pinned,
    leaf: &Leaf,
) -> Result<Bytes, ReadFault>
    requires open { IsOpenPin store.old.ledger pinned.now }
    requires leaf { IsLeafOf pinned.now.names leaf.now }
    requires valid { IsValid leaf.now.schema }
    ensures { LeavesAll store.old.ledger store.new.ledger }
{
    let mut rows = List::new(alloc);
    for place in 0..count(alloc, store, pinned, leaf) {
        let found = chunk_at(alloc, store, pinned, leaf, place);
        match add_read(&mut rows, leaf, found) {
            Ok(_) => {}
            Err(fault) => return Err(fault),
        }
    }
    lines_of(alloc, leaf, rows)
}
