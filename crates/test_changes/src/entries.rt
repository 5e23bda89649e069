//! The worked entries, the oldest first: a history has the newest first.
ghost use Rattle.std.specs.Prelude.{◌≡◌, [], IfOk, OnOk, take, reverse};
ghost use Rattle.event_core.specs.Worked.{worked, worked_on};

use crate::worked::{removed, stored};
use cell_values::{List, Memory};
use event_core::Entry;
use std::alloc::Global;

/// The first three: session 0 pins, stores an array, and unpins.
fn add_store(entries: &mut List<Entry>) -> Result<(), Memory>
    requires { entries.old ≡ [] }
    ensures { OnOk result (entries.new ≡ take 3 (reverse worked)) }
{
    let alloc = entries.allocator();
    entries.push(Entry::Pin { session: 0 })?;
    entries.push(stored(alloc)?)?;
    entries.push(Entry::Unpin { session: 0 })
}

/// The first seven: both sessions pin, session 0 removes the array, and a reap.
fn add_removal(entries: &mut List<Entry>) -> Result<(), Memory>
    requires { entries.old ≡ take 3 (reverse worked) }
    ensures { OnOk result (entries.new ≡ reverse worked) }
{
    let alloc = entries.allocator();
    entries.push(Entry::Pin { session: 1 })?;
    entries.push(Entry::Pin { session: 0 })?;
    entries.push(removed(alloc)?)?;
    entries.push(Entry::Reap)
}

/// All ten: both sessions unpin, and a second reap.
fn add_last(entries: &mut List<Entry>) -> Result<(), Memory>
    requires { entries.old ≡ reverse worked }
    ensures { OnOk result (entries.new ≡ reverse worked_on) }
{
    entries.push(Entry::Unpin { session: 1 })?;
    entries.push(Entry::Unpin { session: 0 })?;
    entries.push(Entry::Reap)
}

/// The worked entries.
pub(crate) fn worked_entries(alloc: Global) -> Result<List<Entry>, Memory>
    ensures { IfOk result (λ entries. entries ≡ reverse worked_on) }
{
    let mut entries = List::new(alloc);
    add_store(&mut entries)?;
    add_removal(&mut entries)?;
    add_last(&mut entries)?;
    Ok(entries)
}
