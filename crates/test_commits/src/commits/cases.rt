//! Changes of stores, and what comes of them where a call of the disk fails.

use crate::commits::moments::{LIMITS, Versions, push_moments};
use cell_values::{Bytes, Memory};
use std::alloc::Global;
use std::thread::Threads;
use test_disks::{QuietDisk, Watch, answered, held_in, new_database, old_database, with_change};
use test_kit::{Transcript, disk_of, push_numbered, push_word, push_words};

/// A file, a change of it, and what it holds before and after that.
#[derive(Drop)]
struct Case<'a> {
    file: Bytes,
    change: &'a str,
    versions: Versions,
}

/// What a file holds. One that can't be read as a store counts as want of memory.
fn text_of(alloc: Global, file: Bytes) -> Result<Bytes, Memory> {
    held_in(alloc, file, LIMITS)?.ok_or(Memory)
}

/// What a file holds before a change, and with it.
fn versions_of<R: Threads + Sync>(
    rt: &R,
    alloc: Global,
    file: &Bytes,
    change: &str,
) -> Result<Versions, Memory> {
    let changed = with_change(rt, alloc, file.copy()?, change)?;
    let after = text_of(alloc, changed)?;
    let before = text_of(alloc, file.copy()?)?;
    Ok(Versions { before, after })
}

/// A file that was made, and what it holds before and after a change.
fn case_of<'a, R: Threads + Sync>(
    rt: &R,
    alloc: Global,
    made: Result<Bytes, Memory>,
    change: &'a str,
) -> Result<Case<'a>, Memory> {
    let file = made?;
    let versions = versions_of(rt, alloc, &file, change)?;
    Ok(Case {
        file,
        change,
        versions,
    })
}

/// A disk with a case's file, whose call of this number fails, and what others see of it.
fn disk_over(
    alloc: Global,
    case: &Case<'_>,
    fails: Option<u64>,
) -> Result<(QuietDisk, Watch), Memory> {
    let disk = disk_of(alloc, case.file.copy()?, fails)?;
    QuietDisk::watched(alloc, disk)
}

/// Adds what the change is answered where the call of this number fails, and what a stop behind each of its calls leaves. How many calls
/// there were is the answer.
fn push_attempt<R: Threads + Sync>(
    rt: &R,
    out: &mut Transcript,
    case: &Case<'_>,
    fails: Option<u64>,
) -> usize {
    match disk_over(out.alloc(), case, fails) {
        Ok((disk, watch)) => {
            answered(rt, out.alloc(), disk, LIMITS, case.change).tell(out);
            push_moments(out, &watch, &case.versions)
        }
        Err(Memory) => {
            out.note_short();
            0
        }
    }
}

/// What comes of the change where the call of this number fails.
fn told_failing<R: Threads + Sync>(
    rt: &R,
    alloc: Global,
    case: &Case<'_>,
    call: usize,
) -> Result<String, Memory> {
    let mut told = Transcript::new(alloc);
    push_attempt(rt, &mut told, case, Some(call as u64));
    told.finish()
}

/// What comes of the change where a call fails, of this number or of those behind it.
#[derive(Drop)]
struct Failing {
    from: usize,
    told: String,
}

impl Failing {
    /// Adds it for the calls up to this number.
    fn push(&self, out: &mut Transcript, to: usize) {
        if self.from == to {
            push_numbered(out, "call ", to as u64, " fails: ");
        } else {
            push_numbered(out, "calls ", self.from as u64, " to ");
            push_numbered(out, "", to as u64, " fail, each alone: ");
        }
        push_word(out, self.told.as_str());
    }

    /// Goes on to the call of this number. Where another thing comes of it, what came of those before is added.
    fn go_on(&mut self, out: &mut Transcript, call: usize, told: String) {
        if call > 0 && told.as_str() != self.told.as_str() {
            self.push(out, call - 1);
            self.from = call;
        }
        self.told = told;
    }
}

/// Adds what comes of the change where each of so many calls fails. Calls of which the same comes are told at once.
fn push_failing<R: Threads + Sync>(rt: &R, out: &mut Transcript, case: &Case<'_>, calls: usize) {
    let mut failing = Failing {
        from: 0,
        told: String::new(out.alloc()),
    };
    for call in 0..calls {
        match told_failing(rt, out.alloc(), case, call) {
            Ok(told) => failing.go_on(out, call, told),
            Err(Memory) => out.note_short(),
        }
    }
    failing.push(out, calls.saturating_sub(1));
}

/// Adds what comes of a change of a file, if that was made.
fn push_change<R: Threads + Sync>(
    rt: &R,
    out: &mut Transcript,
    title: &str,
    made: Result<Bytes, Memory>,
    change: &str,
) {
    match case_of(rt, out.alloc(), made, change) {
        Ok(case) => {
            push_words(out, &["## ", title, "\nno call fails: "]);
            let calls = push_attempt(rt, out, &case, None);
            push_failing(rt, out, &case, calls);
        }
        Err(Memory) => out.note_short(),
    }
}

const FIRST: &str = "store(build(<v:int64>[i=0:2,2,0], i), A)";

const SECOND: &str = "store(build(<v:int64>[i=0:2,2,0], i+10), A)";

const BOTH: &str =
    "store(build(<v:int64>[i=0:2,2,0], i), A)\nstore(build(<v:int64>[i=0:2,2,0], i+10), A)";

const REMOVAL: &str = "remove_versions(A, 2)";

const CREATED: &str = "create array B <v:int64>[i=0:0,1,0]";

/// A database with the change of each line.
fn with_changes<R: Threads + Sync>(rt: &R, alloc: Global, changes: &str) -> Result<Bytes, Memory> {
    let mut file = new_database(alloc)?;
    for change in changes.lines() {
        file = with_change(rt, alloc, file, change)?;
    }
    Ok(file)
}

/// A database in whose log no entry is left.
fn with_full_log<R: Threads + Sync>(rt: &R, alloc: Global) -> Result<Bytes, Memory> {
    let mut changes = Transcript::new(alloc);
    for number in 0..64u64 {
        push_numbered(
            &mut changes,
            "create array A",
            number,
            " <v:int64>[i=0:0,1,0]\n",
        );
    }
    with_changes(rt, alloc, changes.finish()?.as_str())
}

/// Adds each case.
pub(crate) fn push_cases<R: Threads + Sync>(rt: &R, out: &mut Transcript) {
    let alloc = out.alloc();
    push_change(rt, out, SECOND, with_changes(rt, alloc, FIRST), SECOND);
    push_change(rt, out, REMOVAL, with_changes(rt, alloc, BOTH), REMOVAL);
    let full = with_full_log(rt, alloc);
    push_change(rt, out, "the 65th commit", full, CREATED);
    let migration = "the first commit to a file of format 1";
    push_change(rt, out, migration, old_database(alloc), CREATED);
}
