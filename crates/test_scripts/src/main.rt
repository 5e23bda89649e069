//! Prints what the program's top call makes of tables of scripts, of command lines, of sessions side by side and of calls that fail.
//!
//! Standard input has the tables, each behind `### ` and its title.
#![tactic(auto)]

use cell_values::Memory;
use std::io;
use std::sync::Wait;
use std::thread::Threads;
use std::time::Clock;
use test_kit::{Transcript, input};
use test_runs::push_run_table;

/// What is told of the tables: for each its title, and what comes of its lines.
fn told_of<R: AllocGlobal + Threads + Wait + Clock + Sync>(
    rt: &R,
    text: &str,
) -> Result<String, Memory> {
    let mut out = Transcript::new(rt.alloc());
    for table in text.split("### ") {
        let (title, lines) = table.split_once('\n').unwrap_or((table, ""));
        push_run_table(rt, &mut out, title, lines);
    }
    out.finish()
}

fn main(rt: HostRuntime) -> io::Result<()> {
    let text = input(&rt)?;
    let told = told_of(&rt, text.as_str());
    drop(text);
    match told {
        Ok(told) => print!(rt; "{told}"),
        Err(Memory) => println!(rt; "no memory"),
    }
}
