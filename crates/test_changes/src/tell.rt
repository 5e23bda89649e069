//! What is told of a core.

use cell_values::{List, Memory};
use event_core::{Core, CorePin, VersionPages};
use logical_plan::Names;
use test_catalogs::{push_counted, push_named, push_numbers};
use test_kit::{Transcript, push_word};
use version_reaper::{PageSet, live};

pub(crate) fn push_names(out: &mut Transcript, names: &Names) {
    for array in names.arrays.as_slice() {
        push_named(out, "  array ", &array.name);
        push_counted(out, ", next ", u64::from(array.next));
        push_numbers(out, ", versions:", &array.versions);
    }
}

fn push_versions(out: &mut Transcript, versions: &[VersionPages]) {
    for version in versions {
        push_named(out, "  version ", &version.name);
        push_counted(out, "@", u64::from(version.version));
        push_numbers(out, ", pages:", &version.pages);
    }
}

fn push_pins(out: &mut Transcript, pins: &[CorePin]) {
    for pin in pins {
        push_counted(out, "pin of session ", u64::from(pin.session));
        push_counted(out, " at place ", pin.place);
        push_word(out, ", which keeps\n");
        push_names(out, &pin.names);
        push_versions(out, pin.pages.as_slice());
    }
}

/// Adds the pages of versions to some lists.
fn keep_versions(lists: &mut Vec<List<u32>>, versions: &[VersionPages]) -> Result<(), Memory> {
    for version in versions {
        lists.push(version.pages.copy()?)?;
    }
    Ok(())
}

/// Adds the pages of the catalogue, of the versions that can be named, and of those that could be when a pin began.
fn keep_named(lists: &mut Vec<List<u32>>, core: &Core) -> Result<(), Memory> {
    lists.push(core.catalogue.copy()?)?;
    keep_versions(lists, core.pages.as_slice())?;
    for pin in core.pins.as_slice() {
        keep_versions(lists, pin.pages.as_slice())?;
    }
    Ok(())
}

/// The pages that are live.
fn live_in(core: &Core) -> Result<PageSet, Memory> {
    let alloc = core.catalogue.allocator();
    let mut lists = Vec::new(alloc);
    let set = match keep_named(&mut lists, core) {
        Ok(()) => live(alloc, lists.as_slice(), core.limit),
        Err(Memory) => Err(Memory),
    };
    drop(lists);
    set
}

/// Adds the pages of a set.
fn push_set(out: &mut Transcript, set: &PageSet, limit: u32) {
    push_word(out, "live:");
    for page in 1..limit {
        if set.has(page) {
            push_counted(out, " ", u64::from(page));
        }
    }
    push_word(out, "\n");
}

/// Adds the pages that are live.
fn push_live(out: &mut Transcript, core: &Core) {
    match live_in(core) {
        Ok(set) => {
            push_set(out, &set, core.limit);
            drop(set);
        }
        Err(Memory) => out.note_short(),
    }
}

pub(crate) fn push_core(out: &mut Transcript, core: &Core) {
    push_counted(out, "entries ", core.entries);
    push_counted(out, ", limit ", u64::from(core.limit));
    push_word(out, "\n");
    push_names(out, &core.names);
    push_versions(out, core.pages.as_slice());
    push_pins(out, core.pins.as_slice());
    push_live(out, core);
    push_numbers(out, "free:", &core.free);
}
