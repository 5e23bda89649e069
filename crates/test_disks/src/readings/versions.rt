//! All that a store holds.
ghost use Rattle.plan_changes.specs.Stored.{AreStored};
ghost use Rattle.store_ledger.specs.Ledger.{IsOpenPin};
ghost use Rattle.test_disks.specs.Holds.{HasNoPins};

use crate::readings::reading::cells;
use afl_outside::Disk;
use array_store::Store;
use cell_values::{Bytes, Memory};
use logical_plan::NameEntry;
use std::alloc::{AllocError, Global};
use store_ledger::{PinFault, Pinned};
use store_state::ReadFault;
use test_quiet::leaf_of;

fn or_memory(added: Result<(), Memory>) -> Result<(), ReadFault> {
    match added {
        Ok(()) => Ok(()),
        Err(Memory) => Err(ReadFault::Memory),
    }
}

/// Adds the name of an array with a word before it, and a number behind that.
fn push_head(
    text: &mut Bytes,
    before: &str,
    entry: &NameEntry,
    between: &str,
    number: u32,
) -> Result<(), Memory> {
    match format!(in text.allocator(); "{between}{number}\n") {
        Ok(tail) => text
            .extend(before.as_bytes())
            .and(text.extend(entry.name.as_slice()))
            .and(text.extend(tail.as_bytes())),
        Err(AllocError) => Err(Memory),
    }
}

/// Adds a version's name, and then its cells.
fn add_version<D: Disk>(
    text: &mut Bytes,
    store: &mut Store<D>,
    pinned: &Pinned,
    entry: &NameEntry,
    version: u32,
) -> Result<(), ReadFault>
    requires open { IsOpenPin store.old.ledger pinned.now }
    requires stored { AreStored pinned.now.names }
    ensures { IsOpenPin store.new.ledger pinned.now }
{
    or_memory(push_head(text, "", entry, "@", version))?;
    match leaf_of(&pinned.names, &entry.name, version) {
        Some(leaf) => match cells(text.allocator(), store, pinned, &leaf) {
            Ok(lines) => or_memory(text.extend(lines.as_slice())),
            Err(fault) => Err(fault),
        },
        None => Err(ReadFault::Memory),
    }
}

/// Adds an array's name, the number of its next version, and all its versions.
fn add_array<D: Disk>(
    text: &mut Bytes,
    store: &mut Store<D>,
    pinned: &Pinned,
    entry: &NameEntry,
) -> Result<(), ReadFault>
    requires open { IsOpenPin store.old.ledger pinned.now }
    requires stored { AreStored pinned.now.names }
    ensures { IsOpenPin store.new.ledger pinned.now }
{
    or_memory(push_head(text, "array ", entry, ", next ", entry.next))?;
    for version in entry.versions.as_slice() {
        add_version(text, store, pinned, entry, *version)?;
    }
    Ok(())
}

fn add_arrays<D: Disk>(
    text: &mut Bytes,
    store: &mut Store<D>,
    pinned: &Pinned,
) -> Result<(), ReadFault>
    requires open { IsOpenPin store.old.ledger pinned.now }
    requires stored { AreStored pinned.now.names }
    ensures { IsOpenPin store.new.ledger pinned.now }
{
    for entry in pinned.names.arrays.as_slice() {
        add_array(text, store, pinned, entry)?;
    }
    Ok(())
}

/// All arrays of a store without pins, with all cells of all versions, under a pin.
pub(crate) fn whole<D: Disk>(alloc: Global, store: &mut Store<D>) -> Result<Bytes, ReadFault>
    requires { HasNoPins store.old.ledger }
{
    let mut text = Bytes::new(alloc);
    store.names();
    match store.pin(0) {
        Ok(pinned) => {
            let added = add_arrays(&mut text, store, &pinned);
            store.unpin(pinned);
            match added {
                Ok(()) => Ok(text),
                Err(fault) => Err(fault),
            }
        }
        Err(PinFault::HistoryFull { .. } | PinFault::Memory) => Err(ReadFault::Memory),
    }
}
