//! Runs of a command line over files in memory.

use crate::capped::CappedShelf;
use crate::files::{device_of, shelf_of};
use crate::order::Ordered;
use crate::told::push_report;
use afl_run::{Arg, Report, let_go_report, run};
use cell_values::{Bytes, Memory};
use std::alloc::{AllocError, Global};
use std::sync::Wait;
use std::thread::Threads;
use std::time::Clock;
use test_kit::{Transcript, disk_bytes};

/// Adds the words of a command line.
fn push_args(words: &mut Vec<Arg>, alloc: Global, line: &str) -> Result<(), AllocError> {
    for word in line.split_whitespace() {
        words.push(Arg::new(String::from_str(alloc, word)?))?;
    }
    Ok(())
}

/// What comes of the words of a command line over these files, whose sessions pass the stops of the words `order` in their order, and
/// whether they kept it. There is one kind of gate, so that the product is compiled for one.
fn report_in_order<R: AllocGlobal + Threads + Wait + Clock + Sync>(
    rt: &R,
    words: &[Arg],
    shelf: CappedShelf,
    order: &str,
) -> Result<(Report<CappedShelf>, bool), Memory> {
    match Ordered::new(rt, rt.alloc(), order) {
        Ok(gate) => {
            let report = run(rt, rt.alloc(), words, shelf, &gate);
            Ok((report, gate.is_kept()))
        }
        Err(AllocError) => {
            drop(shelf);
            Err(Memory)
        }
    }
}

/// What comes of a command line over these files, in an order of stops, and whether it was kept.
pub(crate) fn report_of<R: AllocGlobal + Threads + Wait + Clock + Sync>(
    rt: &R,
    line: &str,
    shelf: CappedShelf,
    order: &str,
) -> Result<(Report<CappedShelf>, bool), Memory> {
    let mut words = Vec::new(rt.alloc());
    match push_args(&mut words, rt.alloc(), line) {
        Ok(()) => report_in_order(rt, words.as_slice(), shelf, order),
        Err(AllocError) => {
            drop(shelf);
            Err(Memory)
        }
    }
}

/// What comes of a command line over files that were made.
pub(crate) fn report_over<R: AllocGlobal + Threads + Wait + Clock + Sync>(
    rt: &R,
    line: &str,
    shelf: Result<CappedShelf, Memory>,
) -> Result<Report<CappedShelf>, Memory> {
    let (report, _) = report_of(rt, line, shelf?, "")?;
    Ok(report)
}

/// The bytes of the device that a run has left.
pub(crate) fn file_left(alloc: Global, report: &Report<CappedShelf>) -> Result<Bytes, Memory> {
    match &report.disk {
        Some(disk) => disk_bytes(disk),
        None => Ok(Bytes::new(alloc)),
    }
}

/// The bytes of the device that a command line leaves, run over files that were made.
pub(crate) fn file_behind<R: AllocGlobal + Threads + Wait + Clock + Sync>(
    rt: &R,
    line: &str,
    shelf: Result<CappedShelf, Memory>,
) -> Result<Bytes, Memory> {
    let report = report_over(rt, line, shelf)?;
    let left = file_left(rt.alloc(), &report);
    let_go_report(report);
    left
}

/// The file of a new database.
fn new_file<R: AllocGlobal + Threads + Wait + Clock + Sync>(rt: &R) -> Result<Bytes, Memory> {
    file_behind(rt, "init db", device_of(rt.alloc(), 0, &[]))
}

/// A new database, and the script of this name that a text stands for.
pub(crate) fn new_shelf<R: AllocGlobal + Threads + Wait + Clock + Sync>(
    rt: &R,
    name: &str,
    text: &str,
) -> Result<CappedShelf, Memory> {
    shelf_of(new_file(rt)?, &[name], &[text])
}

/// Runs a command line over files that were made, and tells what comes of it: the device too, if that is wanted.
pub(crate) fn push_run<R: AllocGlobal + Threads + Wait + Clock + Sync>(
    rt: &R,
    out: &mut Transcript,
    line: &str,
    shelf: Result<CappedShelf, Memory>,
    tells_device: bool,
) {
    match report_over(rt, line, shelf) {
        Ok(report) => {
            push_report(out, &report, tells_device);
            let_go_report(report);
        }
        Err(Memory) => out.note_short(),
    }
}
