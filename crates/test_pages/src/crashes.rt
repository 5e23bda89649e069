//! Commits in which a call of the disk fails, and what a crash leaves of them.
ghost use Rattle.std.specs.Prelude.{OnErr};
ghost use Rattle.page_file.specs.OpeningOpened.{AreFresh};
ghost use Rattle.page_chain.specs.Standing.{IsTarget};

use crate::files::new_file;
use crate::images::{RECORD, Seen, catalogue_of, seen_behind};
use afl_outside::{Disk, Failed, MemDisk};
use cell_values::{Bytes, List, Memory};
use page_file::PageFile;
use std::alloc::Global;
use test_kit::{
    Transcript, commit_base, commit_record, disk_bytes, disk_of, open, push_count, push_word,
    push_words,
};

/// A commit, with the pages that it writes.
#[derive(Clone, Copy)]
enum Commit {
    Base { page: u32, log: u32 },
    Record { page: u32 },
}

/// What a commit comes to.
#[derive(Clone, Copy)]
enum Outcome {
    NotOpened,
    NotDone,
    Done,
}

/// A file, the sequence with which it opens, and a commit to it.
#[derive(Drop)]
struct Case {
    file: Bytes,
    sequence: u64,
    commit: Commit,
    content: Bytes,
}

fn make_commit<D: Disk>(file: &mut PageFile<D>, what: Commit, content: &[u8]) -> Result<(), Failed>
    requires { AreFresh file.old.slots }
    ensures { OnErr result (IsTarget file.new.slots) }
{
    match what {
        Commit::Base { page, log } => commit_base(file, page, log, content),
        Commit::Record { page } => commit_record(file, page, content),
    }
}

/// Commits to a file. Where that fails, the target is closed after it if `closes` says so.
fn commit_and_close<D: Disk>(
    file: &mut PageFile<D>,
    what: Commit,
    content: &[u8],
    closes: bool,
) -> Outcome
    requires { AreFresh file.old.slots }
{
    match make_commit(file, what, content) {
        Ok(()) => Outcome::Done,
        Err(Failed) => {
            if closes {
                let _ = file.close_slot();
            }
            Outcome::NotDone
        }
    }
}

/// Opens a file and commits to it, and hands its disk back.
fn commit_on<D: Disk>(disk: D, what: Commit, content: &[u8], closes: bool) -> (Outcome, D) {
    match open(disk) {
        Err((_, disk)) => (Outcome::NotOpened, disk),
        Ok(mut file) => {
            let outcome = commit_and_close(&mut file, what, content, closes);
            (outcome, file.close())
        }
    }
}

/// Makes the commit on a disk whose call of this number fails.
fn attempt(
    alloc: Global,
    case: &Case,
    fails: Option<u64>,
    closes: bool,
) -> Result<(Outcome, MemDisk), Memory> {
    let disk = disk_of(alloc, case.file.copy()?, fails)?;
    Ok(commit_on(disk, case.commit, case.content.as_slice(), closes))
}

/// The file behind the commit.
fn committed(alloc: Global, case: &Case) -> Result<Bytes, Memory> {
    let (_, disk) = attempt(alloc, case, None, false)?;
    disk_bytes(&disk)
}

fn push_seen(out: &mut Transcript, seen: Seen) {
    let old = if seen.old { "o" } else { "" };
    let new = if seen.new { "n" } else { "" };
    let format = if seen.new_in_format_one { "f" } else { "" };
    let wrong = if seen.wrong { "x" } else { "" };
    push_words(out, &[" ", old, new, format, wrong]);
}

/// Adds what the images open as, for each moment behind so many calls or more.
fn push_moments(out: &mut Transcript, disk: &MemDisk, from: usize, before: u64) {
    for calls in from..disk.calls().len().saturating_add(1) {
        match seen_behind(out.alloc(), disk, calls, before) {
            Ok(seen) => push_seen(out, seen),
            Err(Memory) => out.note_short(),
        }
    }
}

/// Adds what a commit leaves whose target is closed behind it where it wasn't done, from so many calls on.
fn push_closed(out: &mut Transcript, case: &Case, fails: Option<u64>, from: usize) {
    match attempt(out.alloc(), case, fails, true) {
        Ok((_, disk)) => {
            push_moments(out, &disk, from, case.sequence);
            drop(disk);
        }
        Err(Memory) => out.note_short(),
    }
}

/// Adds what came of a commit. Where it wasn't done it is tried again, with the target closed at the end.
fn push_outcome(
    out: &mut Transcript,
    case: &Case,
    fails: Option<u64>,
    outcome: Outcome,
    disk: &MemDisk,
) {
    let word = match outcome {
        Outcome::NotOpened => "not opened:",
        Outcome::NotDone => "not done:",
        Outcome::Done => "done:",
    };
    push_word(out, word);
    push_moments(out, disk, 0, case.sequence);
    if outcome == Outcome::NotDone {
        push_word(out, ", then closed:");
        push_closed(out, case, fails, disk.calls().len().saturating_add(1));
    }
    push_word(out, "\n");
}

/// Makes the commit, and adds what comes of it.
fn push_attempt(out: &mut Transcript, case: &Case, fails: Option<u64>) {
    match attempt(out.alloc(), case, fails, false) {
        Ok((outcome, disk)) => {
            push_outcome(out, case, fails, outcome, &disk);
            drop(disk);
        }
        Err(Memory) => out.note_short(),
    }
}

/// The commit with no call failing, and with each of so many calls failing in turn.
fn push_commit(out: &mut Transcript, case: &Case, calls: u64) {
    push_word(out, "no call fails, ");
    push_attempt(out, case, None);
    for call in 0..calls {
        push_word(out, "call ");
        push_count(out, call);
        push_word(out, " fails, ");
        push_attempt(out, case, Some(call));
    }
}

fn push_case(out: &mut Transcript, title: &str, case: Result<Case, Memory>, calls: u64) {
    push_words(out, &[title, "\n"]);
    match case {
        Ok(case) => {
            push_commit(out, &case, calls);
            drop(case);
        }
        Err(Memory) => out.note_short(),
    }
}

fn base_on(alloc: Global, file: Bytes, sequence: u64, page: u32, log: u32) -> Result<Case, Memory> {
    let content = catalogue_of(alloc, sequence.saturating_add(1))?;
    Ok(Case {
        file,
        sequence,
        commit: Commit::Base { page, log },
        content,
    })
}

fn first_record(alloc: Global) -> Result<Case, Memory> {
    Ok(Case {
        file: new_file(alloc)?,
        sequence: 1,
        commit: Commit::Record { page: 3 },
        content: List::from_slice(alloc, &RECORD)?,
    })
}

fn first_base(alloc: Global) -> Result<Case, Memory> {
    base_on(alloc, new_file(alloc)?, 1, 3, 4)
}

/// The file behind the first base.
fn behind_base(alloc: Global) -> Result<Bytes, Memory> {
    let base = first_base(alloc)?;
    let file = committed(alloc, &base);
    drop(base);
    file
}

fn second_base(alloc: Global) -> Result<Case, Memory> {
    base_on(alloc, behind_base(alloc)?, 2, 5, 6)
}

/// Adds for each commit and each call that fails what the images open as, after each number of calls: o as before the commit, n with the
/// slot that was committed, f with its root in format 1, x anything else.
pub(crate) fn push_crashes(out: &mut Transcript) {
    push_word(out, "### crashes\n");
    let alloc = out.alloc();
    push_case(out, "a record", first_record(alloc), 9);
    push_case(out, "a base", first_base(alloc), 10);
    push_case(out, "a base over an open slot", second_base(alloc), 11);
}
