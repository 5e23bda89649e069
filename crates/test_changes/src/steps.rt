//! Entries one by one.
ghost use Rattle.std.specs.Prelude.{◌≡◌, ◌<◌, ◌-◌, ◌^◌, IsTrue, OnOk, reverse};
ghost use Rattle.plan_changes.specs.Allowed.{names_allow};
ghost use Rattle.event_core.specs.Allowed.{IsBase, is_allowed};
ghost use Rattle.event_core.specs.Replay.{core_after, core_allows};
ghost use Rattle.event_core.specs.Worked.{worked_base, worked_on};

use crate::entries::worked_entries;
use crate::tell::{push_core, push_names};
use crate::worked::start;
use cell_values::{List, Memory};
use event_core::{Core, Entry, Used, fresh_pages, run_events, step};
use logical_plan::Names;
use plan_changes::{Change, changed_names};
use test_catalogs::{push_counted, push_numbers};
use test_kit::{Transcript, push_word};

/// The names that a change leaves.
fn left(names: &Names, change: &Change) -> Result<Names, Memory>
    requires { IsTrue (names_allow names.now change.now) }
{
    changed_names(names.copy()?, change)
}

/// Adds the fresh pages of a commit, and the names that it leaves.
fn push_change(out: &mut Transcript, core: &Core, change: &Change, used: &Used)
    requires { IsTrue (names_allow core.now.names change.now) }
{
    match fresh_pages(core, change, used) {
        Ok(pages) => {
            push_numbers(out, "a commit, fresh pages:", &pages);
            drop(pages);
        }
        Err(Memory) => out.note_short(),
    }
    match left(&core.names, change) {
        Ok(names) => {
            push_names(out, &names);
            drop(names);
        }
        Err(Memory) => out.note_short(),
    }
}

/// Adds which session pins or unpins.
fn push_session(out: &mut Transcript, session: u32, does: &str) {
    push_counted(out, "session ", u64::from(session));
    push_word(out, does);
}

/// Adds what an entry is.
fn push_entry(out: &mut Transcript, core: &Core, entry: &Entry)
    requires { IsTrue (core_allows core.now entry.now) }
{
    match entry {
        Entry::Pin { session } => push_session(out, *session, " pins\n"),
        Entry::Unpin { session } => push_session(out, *session, " unpins\n"),
        Entry::Commit { change, used, .. } => push_change(out, core, change, used),
        Entry::Reap => push_word(out, "a reap\n"),
    }
}

/// Adds an entry, and the core after it.
fn push_step(out: &mut Transcript, core: &mut Core, entry: &Entry) -> Result<(), Memory>
    requires room { core.old.entries < 2 ^ 64 - 1 }
    requires allowed { IsTrue (core_allows core.old entry.now) }
    ensures { OnOk result (core.new ≡ core_after core.old entry.now) }
{
    push_entry(out, core, entry);
    *core = step(core, entry)?;
    push_core(out, core);
    Ok(())
}

/// Adds each entry, the oldest first, and the core after it.
fn push_steps(out: &mut Transcript, base: &Core, entries: &[Entry]) -> Result<(), Memory>
    requires base { IsBase base.now }
    requires allowed { IsTrue (is_allowed base.now (reverse entries.now)) }
{
    let mut core = base.copy()?;
    for entry in entries {
        push_step(out, &mut core, entry)?;
    }
    Ok(())
}

/// Adds what entries make of the base at once.
fn push_at_once(out: &mut Transcript, base: &Core, entries: &[Entry])
    requires base { IsBase base.now }
    requires allowed { IsTrue (is_allowed base.now (reverse entries.now)) }
{
    match run_events(base, entries) {
        Ok(core) => {
            push_core(out, &core);
            drop(core);
        }
        Err(Memory) => out.note_short(),
    }
}

/// Adds the base, each of the worked entries over it, and what the first seven of them make of it at once.
fn push_worked(out: &mut Transcript, base: &Core, entries: &mut List<Entry>)
    requires base { base.now ≡ worked_base }
    requires entries { entries.old ≡ reverse worked_on }
{
    push_core(out, base);
    let told = push_steps(out, base, entries.as_slice());
    out.note(told.is_ok());
    push_word(out, "the first seven at once\n");
    entries.truncate(7);
    push_at_once(out, base, entries.as_slice());
}

/// Adds what the worked entries make of a base.
fn push_over(out: &mut Transcript, base: &Core)
    requires { base.now ≡ worked_base }
{
    match worked_entries(out.alloc()) {
        Ok(mut entries) => {
            push_worked(out, base, &mut entries);
            drop(entries);
        }
        Err(Memory) => out.note_short(),
    }
}

/// Adds what each of the worked entries makes of names, pins and pages.
pub(crate) fn push_entries(out: &mut Transcript) {
    push_word(out, "### entries\n");
    match start(out.alloc()) {
        Ok(base) => {
            push_over(out, &base);
            drop(base);
        }
        Err(Memory) => out.note_short(),
    }
}
