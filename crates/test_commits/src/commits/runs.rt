//! Steps of two sessions over a store in memory.
//!
//! Behind each title a line makes a disk and opens a store over it: `new 64 100` an empty database of so many pages, whose history may
//! have so many entries, and `format1 64 100` one of format 1. `open` closes the store and opens it again over what the disk holds.
//! `pin 0`, `unpin 0`, `change 0 TEXT`, `cells 0 A@1` and `versions 0 A` are steps of a session, 0 or 1; `create 5 9` are a pin of session
//! 0, a change that creates `A5`, and an unpin, and so on up to `A8`. `reap` and `counts` are about all. `calls` tells what the disk's calls
//! since the last such line, or `mark`, cost, `fail 3` that the third call from now fails, and `bytes 512 8` which bytes stand at a place.
ghost use Rattle.test_disks.specs.Pairs.{IsPair};

use crate::commits::bench::{Bench, WatchedDisk};
use std::alloc::Global;
use std::thread::Threads;
use test_disks::{Answer, answer_of_pair, count_of, push_counts};
use test_kit::{Transcript, begin_answer};

/// What a line is about.
#[derive(Clone, Copy)]
enum Word {
    Disk,
    Opening,
    Counts,
    Calls,
    Mark,
    Failing,
    Bytes,
    Sessions,
}

/// What a line is about that begins with a word.
fn word_of(word: &str) -> Word {
    match word {
        "new" | "format1" => Word::Disk,
        "open" => Word::Opening,
        "counts" => Word::Counts,
        "calls" => Word::Calls,
        "mark" => Word::Mark,
        "fail" => Word::Failing,
        "bytes" => Word::Bytes,
        _ => Word::Sessions,
    }
}

/// What a line is answered that makes a disk, opens the store anew, or is a step of sessions.
fn answer_of<R: Threads + Sync>(
    rt: &R,
    alloc: Global,
    bench: &mut Bench,
    word: Word,
    line: &str,
) -> Answer
    requires { IsPair bench.old.pair }
    ensures { IsPair bench.new.pair }
{
    match word {
        Word::Disk => bench.renew(alloc, line),
        Word::Opening => bench.reopen(alloc),
        _ => answer_of_pair(rt, alloc, &mut bench.pair, line),
    }
}

/// Adds the answer to a line about the disk.
fn push_told(out: &mut Transcript, disk: &mut WatchedDisk, word: Word, text: &str) {
    match word {
        Word::Calls => disk.push_calls(out),
        Word::Failing => disk.watch.fail(u64::from(count_of(text))),
        Word::Bytes => disk.push_bytes(out, text),
        _ => disk.mark(),
    }
}

/// Adds the answer to a line.
fn push_answer<R: Threads + Sync>(rt: &R, out: &mut Transcript, bench: &mut Bench, line: &str)
    requires { IsPair bench.old.pair }
    ensures { IsPair bench.new.pair }
{
    let (word, text) = line.split_once(' ').unwrap_or((line, ""));
    let word = word_of(word);
    match word {
        Word::Counts => push_counts(out, &mut bench.pair),
        Word::Calls | Word::Mark | Word::Failing | Word::Bytes => {
            push_told(out, &mut bench.disk, word, text);
        }
        _ => answer_of(rt, out.alloc(), bench, word, line).tell(out),
    }
}

/// Adds each line, with its answer.
fn push_steps<R: Threads + Sync>(rt: &R, out: &mut Transcript, bench: &mut Bench, steps: &str)
    requires { IsPair bench.old.pair }
{
    for line in steps.lines() {
        if begin_answer(out, line) {
            push_answer(rt, out, bench, line);
        }
    }
}

/// Adds the lines of a text with their answers. Until a line makes a disk there is one with an empty database.
pub(crate) fn push_runs<R: Threads + Sync>(rt: &R, out: &mut Transcript, text: &str) {
    match Bench::of(out.alloc(), "new 64 100") {
        Ok(mut bench) => push_steps(rt, out, &mut bench, text),
        Err(answer) => answer.tell(out),
    }
}
