//! What commits of sessions over stores in memory, and turns and threads below them, are answered, what they cost and what a stop leaves: for
//! programs of tests that have tables of such cases.
//!
//! In a table a line that begins with `##` is a title, and is printed as it is; each other line is printed behind `> `, above what comes of it.
#![tactic(auto)]

mod bells;
mod commits;
mod entries;
mod seats;
mod steps;
mod turns;

use bells::push_bells;
use commits::{push_cases, push_runs};
use seats::push_seats;
use std::sync::Wait;
use std::thread::Threads;
use steps::push_shared;
use test_kit::{Transcript, push_words};
use turns::{ENTRIES, MARKS, push_turns};

/// A table of cases.
#[derive(Clone, Copy)]
enum Table {
    SharedSteps,
    Seats,
    Turns,
    Steps,
    Stops,
}

/// The table below a title.
fn table_of(title: &str) -> Option<Table> {
    match title {
        "steps of three sessions" => Some(Table::SharedSteps),
        "sessions on threads" => Some(Table::Seats),
        "turns" => Some(Table::Turns),
        "steps" => Some(Table::Steps),
        "stops" => Some(Table::Stops),
        _ => None,
    }
}

/// Adds the title of a table of commits, turns or threads, and what comes of its lines; nothing where the title is another one.
pub fn push_commit_table<R: Threads + Wait + Sync>(
    rt: &R,
    out: &mut Transcript,
    title: &str,
    text: &str,
) {
    if let Some(table) = table_of(title) {
        push_words(out, &["### ", title, "\n"]);
        match table {
            Table::SharedSteps => push_shared(rt, out, text),
            Table::Seats => push_seats(rt, out, text),
            Table::Turns => {
                push_turns(rt, out, &MARKS);
                push_turns(rt, out, &ENTRIES);
                push_bells(rt, out);
            }
            Table::Steps => push_runs(rt, out, text),
            Table::Stops => push_cases(rt, out),
        }
    }
}
