//! Tells for each line of standard input what calls on an object give, in memory or real.
//!
//! A line that begins with `##` is a title, and is printed as it is; each other line is printed behind `> `, above its answer.
#![tactic(auto)]

mod answers;
mod disks;
mod objects;
mod real;
mod shelves;
mod streams;
mod words;

use afl_host::HostShelf;
use afl_outside::{Gate, OpenGate, Point, Shelf};
use cell_values::Memory;
use objects::push_object;
use std::{fs, io};
use test_kit::{Transcript, begin_answer, input};

/// Adds titles, and lines with their answers.
fn push_lines<S: Shelf>(out: &mut Transcript, shelf: &mut S, text: &str) {
    for line in text.lines() {
        if begin_answer(out, line) {
            push_object(out, shelf, line);
        }
    }
}

/// What is told of lines over a shelf of the system, whose files are removed again.
fn told_of(rt: HostRuntime, text: &str) -> Result<String, Memory> {
    let mut out = Transcript::new(rt.alloc());
    let mut shelf = HostShelf::new(rt);
    push_lines(&mut out, &mut shelf, text);
    drop(shelf);
    let _ = fs::remove_file(&rt, "said");
    let _ = fs::remove_file(&rt, "page");
    out.finish()
}

fn main(rt: HostRuntime) -> io::Result<()> {
    OpenGate.pass(0, Point::Statement(0));
    let text = input(&rt)?;
    let told = told_of(rt, text.as_str());
    drop(text);
    match told {
        Ok(told) => print!(rt; "{told}"),
        Err(Memory) => println!(rt; "no memory"),
    }
}
