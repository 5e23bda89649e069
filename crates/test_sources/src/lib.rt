//! What sources of an array of two cells give: for programs of tests that have tables of such cases. Titles, which begin with `##`, are
//! printed as they are; each other line is printed behind `> `, above its answer.
//!
//! `leaf` and `filter` read the array from a source in memory whose calls with these numbers, from 0, fail, or, behind
//! `sure`, from one that never fails: alone in chunks of two places, and under a filter in chunks of one place, of two and of
//! all. `store`, `insert`, `begin` and `fault` store an array, and put one into the array, into one without versions, and one
//! with a fault into the array. They tell the chunks, and which chunks were asked for. `operator` executes one of `sort`, `rank`,
//! `cumulate`, `transpose`, `reverse`, `unpack`, `xgrid`, `merge` and `concat` over the array in chunks of two places, `doubtful`
//! over a filter of it with one cell, which is in doubt. `workers` shares eight pieces among so many workers, and holds the first
//! piece until another has come.
#![tactic(auto)]

ghost use Rattle.std.specs.Prelude.{◌≡◌, None};
ghost use Rattle.chunk_source.specs.Source.{Reads};
ghost use Rattle.test_sources.specs.Example.{leaf};

mod changes;
mod example;
mod layout;
mod leaves;
mod operators;
mod plans;
mod show;
mod workers;

use cell_values::Memory;
use changes::{case_of, push_case};
use chunk_source::ChunkSource;
use example::{failing_source, sure_source};
use layout::{Layout, layout_of};
use leaves::push_stored;
use operators::{Input, operator_of, push_operator};
use plans::push_filter;
use show::push_asked;
use std::thread::Threads;
use test_kit::{Transcript, begin_answer, push_words};
use workers::push_workers;

/// Reads or changes the array of a source that has it.
fn push_asking<S: ChunkSource, R: Threads + Sync>(
    rt: &R,
    out: &mut Transcript,
    source: &mut S,
    word: &str,
    layout: Layout,
)
    requires undamaged { (S.state source.old).damaged ≡ None }
    requires reads { Reads (S.state source.old) (leaf layout) }
{
    match word {
        "leaf" => push_stored(out, source, layout),
        "filter" => push_filter(rt, out, source, layout),
        case => push_case(rt, out, source, case_of(case), layout),
    }
}

/// Reads or changes the array from a source whose calls of these numbers fail.
fn push_failing<R: Threads + Sync>(
    rt: &R,
    out: &mut Transcript,
    word: &str,
    layout: Layout,
    fails: &str,
) {
    match failing_source(out.alloc(), layout, fails) {
        Ok(mut source) => {
            push_asking(rt, out, &mut source, word, layout);
            push_asked(out, source.asked());
            drop(source);
        }
        Err(Memory) => out.note_short(),
    }
}

/// Reads or changes the array from a source that never fails.
fn push_sure<R: Threads + Sync>(rt: &R, out: &mut Transcript, word: &str, layout: Layout) {
    match sure_source(out.alloc(), layout) {
        Ok(mut source) => {
            push_asking(rt, out, &mut source, word, layout);
            push_asked(out, source.asked());
            drop(source);
        }
        Err(Memory) => out.note_short(),
    }
}

/// Executes an operator over the array, or over one with a cell in doubt.
fn push_operated<R: Threads + Sync>(rt: &R, out: &mut Transcript, input: Input, word: &str) {
    match failing_source(out.alloc(), Layout::Pairs, "") {
        Ok(mut source) => {
            push_operator(rt, out, &mut source, operator_of(word), input);
            push_asked(out, source.asked());
            drop(source);
        }
        Err(Memory) => out.note_short(),
    }
}

/// The first word of a text, and what stands behind it.
fn front_of(text: &str) -> (&str, &str) {
    text.split_once(' ').unwrap_or((text, ""))
}

/// Adds the answer to a line.
fn push_answer<R: Threads + Sync>(rt: &R, out: &mut Transcript, line: &str) {
    let (word, behind) = front_of(line);
    match word {
        "workers" => push_workers(rt, out, behind),
        "leaf" => push_failing(rt, out, word, Layout::Pairs, behind),
        "operator" => push_operated(rt, out, Input::Stored, behind),
        "doubtful" => push_operated(rt, out, Input::Doubtful, behind),
        "sure" => {
            let (word, layout) = front_of(behind);
            push_sure(rt, out, word, layout_of(layout))
        }
        word => {
            let (layout, fails) = front_of(behind);
            push_failing(rt, out, word, layout_of(layout), fails)
        }
    }
}

/// Adds titles, and lines with their answers.
fn push_lines<R: Threads + Sync>(rt: &R, out: &mut Transcript, text: &str) {
    for line in text.lines() {
        if begin_answer(out, line) {
            push_answer(rt, out, line);
        }
    }
}

/// Adds the title of a table of sources, and its lines with their answers; nothing where the title is another one.
pub fn push_source_table<R: Threads + Sync>(rt: &R, out: &mut Transcript, title: &str, text: &str) {
    if title == "sources" {
        push_words(out, &["### ", title, "\n"]);
        push_lines(rt, out, text);
    }
}
