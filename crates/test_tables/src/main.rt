//! Prints what comes of tables of cases: of calls on values, of texts, of files, catalogues and sources, and of commits, turns and threads.
//!
//! Standard input has the tables, each behind a line that begins with `### ` and has its title. Each title is printed with what the library
//! that knows it makes of the lines.
#![tactic(auto)]

use anyhow::Result;
use cell_values::Memory;
use std::io::Read;
use std::str::from_utf8;
use std::sync::Wait;
use std::thread::Threads;
use test_catalogs::push_catalog_table;
use test_changes::push_change_table;
use test_commits::push_commit_table;
use test_kit::Transcript;
use test_language::push_language_table;
use test_pages::push_page_table;
use test_sources::push_source_table;
use test_values::push_value_table;

/// Adds the title of a table, and what comes of its lines.
fn push_table<R: Threads + Wait + Sync>(rt: &R, out: &mut Transcript, title: &str, lines: &[u8]) {
    let text = from_utf8(lines).unwrap_or("");
    push_value_table(out, title, text);
    push_language_table(out, title, lines);
    push_page_table(out, title);
    push_catalog_table(out, title, text);
    push_change_table(out, title);
    push_source_table(rt, out, title, text);
    push_commit_table(rt, out, title, text);
}

/// Adds for each table its title, and what comes of its lines.
fn push_tables<R: Threads + Wait + Sync>(rt: &R, out: &mut Transcript, text: &[u8]) {
    let mut title: &[u8] = &[];
    let mut start = 0usize;
    let mut end = 0usize;
    for line in text.split_inclusive(|byte| *byte == b'\n') {
        let behind = end.saturating_add(line.len());
        if let Some(next) = line.strip_prefix(b"### ".as_slice()) {
            let name = from_utf8(title).unwrap_or("");
            push_table(rt, out, name, text.get(start..end).unwrap_or(&[]));
            title = next.strip_suffix(b"\n".as_slice()).unwrap_or(next);
            start = behind;
        }
        end = behind;
    }
    let name = from_utf8(title).unwrap_or("");
    push_table(rt, out, name, text.get(start..).unwrap_or(&[]));
}

fn main(rt: HostRuntime) -> Result<()> {
    let mut input = rt.reader();
    let mut text = Vec::new(rt.alloc());
    input.read_to_end(&mut text)?;
    let mut out = Transcript::new(rt.alloc());
    push_tables(&rt, &mut out, text.as_slice());
    match out.finish() {
        Ok(told) => {
            let printed = print!(rt; "{told}");
            drop(told);
            Ok(printed?)
        }
        Err(Memory) => Ok(println!(rt; "no memory")?),
    }
}
