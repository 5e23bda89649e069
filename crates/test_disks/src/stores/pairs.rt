//! Two sessions over one store, step by step.
ghost use Rattle.std.specs.Prelude.{IfOk};
ghost use Rattle.test_disks.specs.Holds.{IsHold, LeavesAll, LeavesOthers};
ghost use Rattle.test_disks.specs.Pairs.{IsPair};

use crate::readings::cells;
use crate::stores::commits::{changed, once};
use crate::stores::opening::{let_go_store, opened};
use crate::stores::pins::{pin_of, pinned, reaped, unpinned};
use array_store::{Limits, Store};
use cell_values::{Memory, Name};
use logical_plan::Names;
use plan_changes::entry_named;
use std::alloc::Global;
use std::mem::replace;
use std::thread::Threads;
use test_kit::{Transcript, name_of, push_numbered};
use test_quiet::{Answer, Hold, QuietDisk, Step, Watch, named_leaf, pair_of, step_of};

/// A store, and what two sessions have of it.
pub struct SessionPair {
    pub store: Store<QuietDisk>,
    pub first: Hold,
    pub second: Hold,
}

impl Drop for SessionPair {
    fn drop(self) {
        let SessionPair {
            store,
            first: _,
            second: _,
        } = self;
        let_go_store(store);
    }
}

/// The store over a disk that is watched, as it is opened now.
pub fn pair_over(alloc: Global, watch: &Watch, limits: Limits) -> Result<SessionPair, Answer>
    ensures { IfOk result IsPair }
{
    match QuietDisk::over(watch) {
        Ok(disk) => match opened(alloc, disk, limits) {
            Ok(store) => Ok(SessionPair {
                store,
                first: Hold::Free,
                second: Hold::Free,
            }),
            Err(cause) => Err(Answer::Unopened(cause)),
        },
        Err(Memory) => Err(Answer::Memory),
    }
}

/// The cells of a version under a session's pin.
fn told_cells(
    alloc: Global,
    store: &mut Store<QuietDisk>,
    session: u32,
    held: &Hold,
    word: &str,
) -> Answer
    requires { IsHold store.old.ledger session held.now }
    ensures { LeavesAll store.old.ledger store.new.ledger }
{
    let Some(pinned) = pin_of(held) else {
        return Answer::HasNoPin;
    };
    match named_leaf(alloc, &pinned.names, word) {
        Some(leaf) => match cells(alloc, store, pinned, &leaf) {
            Ok(lines) => Answer::Lines(lines),
            Err(fault) => Answer::Unread(fault),
        },
        None => Answer::Unknown,
    }
}

/// The numbers of an array's versions, if one has the name.
fn numbers_of(names: &Names, name: &Name) -> Answer {
    match entry_named(&names.arrays, name) {
        Some(entry) => match entry.versions.copy() {
            Ok(numbers) => Answer::Numbers(numbers),
            Err(Memory) => Answer::Unknown,
        },
        None => Answer::Unknown,
    }
}

/// The numbers of an array's versions under a session's pin.
fn told_versions(alloc: Global, held: &Hold, word: &str) -> Answer {
    match pin_of(held) {
        Some(pinned) => match name_of(alloc, word.as_bytes()) {
            Ok(name) => numbers_of(&pinned.names, &name),
            Err(Memory) => Answer::Unknown,
        },
        None => Answer::HasNoPin,
    }
}

/// What a step of a session is answered that has this of the store.
fn take_step<R: Threads + Sync>(
    rt: &R,
    alloc: Global,
    store: &mut Store<QuietDisk>,
    session: u32,
    held: &mut Hold,
    step: Step<'_>,
) -> Answer
    requires { IsHold store.old.ledger session held.old }
    ensures own { IsHold store.new.ledger session held.new }
    ensures others { LeavesOthers session store.old.ledger store.new.ledger }
{
    match step {
        Step::Pin => pinned(store, session, held),
        Step::Unpin => unpinned(store, session, replace(held, Hold::Free)),
        Step::Change(text) => {
            let had = replace(held, Hold::Free);
            let (has, answer) = changed(rt, alloc, store, session, had, text.as_bytes());
            *held = has;
            answer
        }
        Step::Cells(word) => told_cells(alloc, store, session, held, word),
        Step::Versions(word) => told_versions(alloc, held, word),
        Step::Renew(_) => Answer::Unknown,
    }
}

/// What a step of a session is answered.
fn answer_to<R: Threads + Sync>(
    rt: &R,
    alloc: Global,
    pair: &mut SessionPair,
    session: u32,
    step: Step<'_>,
) -> Answer
    requires { IsPair pair.old }
    ensures { IsPair pair.new }
{
    match session {
        0 => take_step(rt, alloc, &mut pair.store, 0, &mut pair.first, step),
        1 => take_step(rt, alloc, &mut pair.store, 1, &mut pair.second, step),
        _ => Answer::Unknown,
    }
}

fn create_one<R: Threads + Sync>(
    rt: &R,
    alloc: Global,
    pair: &mut SessionPair,
    number: u32,
) -> Answer
    requires { IsPair pair.old }
    ensures { IsPair pair.new }
{
    let Ok(text) = format!(in alloc; "create array A{number} <v:int64>[i=0:0,1,0]") else {
        return Answer::Memory;
    };
    match &pair.first {
        Hold::Free => once(rt, alloc, &mut pair.store, 0, text.as_bytes()),
        _ => Answer::HasPin,
    }
}

/// Creates an array for each number from one up to another, each in a commit of its own, as long as that is done.
fn create_all<R: Threads + Sync>(
    rt: &R,
    alloc: Global,
    pair: &mut SessionPair,
    range: &str,
) -> Answer
    requires { IsPair pair.old }
    ensures { IsPair pair.new }
{
    let (from, to) = pair_of(range);
    for number in from..to {
        let answer = create_one(rt, alloc, pair, number);
        if !matches!(&answer, Answer::Done) {
            return answer;
        }
    }
    Answer::Done
}

/// What a line is.
#[derive(Clone, Copy)]
enum Line<'a> {
    OfSession { session: u32, step: Step<'a> },
    /// The numbers of arrays that are created.
    Create(&'a str),
    Reap,
    Unknown,
}

fn line_of(line: &str) -> Line<'_> {
    match step_of(line) {
        Some((session, step)) => Line::OfSession { session, step },
        None => match line.strip_prefix("create ") {
            Some(range) => Line::Create(range),
            None if line == "reap" => Line::Reap,
            None => Line::Unknown,
        },
    }
}

/// What a line is answered, as `pin 0`, `change 0 TEXT`, `create 5 9` or `reap`.
pub fn answer_of_pair<R: Threads + Sync>(
    rt: &R,
    alloc: Global,
    pair: &mut SessionPair,
    line: &str,
) -> Answer
    requires { IsPair pair.old }
    ensures { IsPair pair.new }
{
    match line_of(line) {
        Line::OfSession { session, step } => answer_to(rt, alloc, pair, session, step),
        Line::Create(range) => create_all(rt, alloc, pair, range),
        Line::Reap => reaped(&mut pair.store),
        Line::Unknown => Answer::Unknown,
    }
}

/// Adds numbers, each with a text behind it.
fn push_all(out: &mut Transcript, counts: &[(u64, &str)]) {
    for (count, behind) in counts {
        push_numbered(out, "", *count, behind);
    }
}

/// Adds how many pages nobody can name, and how many entries and notes there are.
pub fn push_counts(out: &mut Transcript, pair: &mut SessionPair)
    requires { IsPair pair.old }
    ensures { IsPair pair.new }
{
    let free = pair.store.free_pages();
    let entries = pair.store.history().len() as u64;
    let notes = pair.store.notes();
    push_all(
        out,
        &[
            (u64::from(free), " pages free, "),
            (entries, " entries, "),
            (notes, " notes\n"),
        ],
    );
}
