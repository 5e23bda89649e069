//! What the next commit opens, and its sequence number.
ghost use Rattle.std.specs.Prelude.{◌≡◌, ◌≤◌, ◌<◌, ◌+◌, ◌-◌, ◌^◌, IfSome, None};
ghost use Rattle.file_meaning.specs.Opening.{sequence_of};
ghost use Rattle.prepared_commits.specs.Standings.{current_slots};

use afl_outside::Disk;
use page_chain::{Slot, Target};
use page_file::PageFile;

/// What the next commit opens.
pub(crate) fn target_of<D: Disk>(file: &PageFile<D>) -> Target
    ensures { result ≡ file.now.slots.target }
{
    match file.target() {
        Slot::A => Target::Root,
        Slot::B => Target::Root,
        Slot::Log(_) => Target::Record,
    }
}

/// The sequence number of the next commit; none where the database has the last one that there is.
pub(crate) fn next_sequence<D: Disk>(file: &PageFile<D>) -> Option<u64>
    ensures next { IfSome result (λ next. (next ≡ sequence_of (current_slots file.now.slots) + 1) × (next < 2 ^ 64)) }
    ensures end { result ≡ None → 2 ^ 64 - 1 ≤ sequence_of (current_slots file.now.slots) }
{
    let sequence = file
        .root()
        .sequence
        .checked_add(file.records().len() as u64)?;
    sequence.checked_add(1)
}
