//! Sessions over a device.
ghost use Rattle.std.specs.Prelude.{◌≡◌, ◌≢◌, ◌≤◌, All, Some, length};
ghost use Rattle.page_chain.specs.Puts.{OnlySyncs};
ghost use Rattle.run_opening.specs.Names.{HaveOwnNames, stream_names};
ghost use Rattle.run_opening.specs.Notice.{status_of};
ghost use Rattle.afl_run.specs.Run.{RunsScripts};
ghost use Rattle.afl_run.specs.Inner.Streams.{IsAsBegun, RunsOn};

use crate::over::run_over;
use crate::report::{Report, unrun};
use afl_outside::{Disk, Gate, Shelf};
use command_words::Arg;
use run_opening::{Limits, StoreRun, open_device, open_streams, status};
use session_threads::Options;
use std::alloc::Global;
use std::sync::Wait;
use std::thread::Threads;

/// Opens the device, the streams of the scripts, and the store, and answers each script in a session of its own.
pub(crate) fn run_scripts<F: Shelf, R: Threads + Wait + Sync, G: Gate>(
    rt: &R,
    alloc: Global,
    device: &Arg,
    scripts: &[Arg],
    limits: Limits,
    options: Options,
    shelf: F,
    gate: &G,
) -> Report<F>
    requires workers { (1 ≤ options.workers) × (options.workers ≤ 64) }
    requires count { (1 ≤ length scripts.now) × (length scripts.now ≤ 16) }
    requires names { HaveOwnNames scripts.now }
    requires apart { All (λ name. device.now ≢ name) (stream_names scripts.now) }
    ensures status { result.status ≡ status_of result.notice }
    ensures generated { result.generated ≡ None }
    ensures runs { RunsScripts options.style F.Device.moment F.S.state F.K.state (F.state shelf) (F.state result.shelf) result.notice result.history result.sessions
        result.free_pages device.now scripts.now limits.pages limits.history result.disk }
{
    let mut shelf = shelf;
    match open_device(&mut shelf, device.as_str()) {
        Ok(disk) => run_on(rt, alloc, disk, scripts, limits, options, shelf, gate),
        Err(notice) => unrun(alloc, notice, None, shelf),
    }
}

/// The same, once the device is opened.
fn run_on<F: Shelf, R: Threads + Wait + Sync, G: Gate>(
    rt: &R,
    alloc: Global,
    disk: F::Device,
    scripts: &[Arg],
    limits: Limits,
    options: Options,
    shelf: F,
    gate: &G,
) -> Report<F>
    requires workers { (1 ≤ options.workers) × (options.workers ≤ 64) }
    requires count { (1 ≤ length scripts.now) × (length scripts.now ≤ 16) }
    requires names { HaveOwnNames scripts.now }
    requires begun { IsAsBegun (F.Device.moment disk).state }
    ensures status { result.status ≡ status_of result.notice }
    ensures generated { result.generated ≡ None }
    ensures runs { RunsOn options.style F.Device.moment F.S.state F.K.state (F.state shelf) (F.state result.shelf) result.notice result.history result.sessions
        result.free_pages disk scripts.now limits.pages limits.history result.disk }
{
    let mut shelf = shelf;
    match open_streams(alloc, scripts, &mut shelf) {
        Ok(streams) => {
            let run = run_over(rt, alloc, disk, limits, options, streams, gate);
            report_of(run, shelf)
        }
        Err(notice) => {
            is_unmoved(&disk);
            unrun(alloc, notice, Some(disk), shelf)
        }
    }
}

/// A disk that is left alone is one that was only read.
fn is_unmoved<D: Disk>(disk: &D)
    ensures { OnlySyncs (D.moment disk.now) (D.moment disk.now) }
{
    let _disk = disk;
}

fn report_of<F: Shelf>(run: StoreRun<F::Device, F::S, F::K>, shelf: F) -> Report<F>
    ensures status { result.status ≡ status_of result.notice }
    ensures generated { result.generated ≡ None }
    ensures notice { result.notice ≡ run.notice }
    ensures history { result.history ≡ run.history }
    ensures sessions { result.sessions ≡ run.sessions }
    ensures free_pages { result.free_pages ≡ run.free_pages }
    ensures disk { result.disk ≡ Some run.disk }
    ensures shelf { result.shelf ≡ shelf }
{
    let StoreRun {
        notice,
        history,
        sessions,
        free_pages,
        disk,
    } = run;
    Report {
        status: status(notice),
        notice,
        history,
        sessions,
        generated: None,
        free_pages,
        disk: Some(disk),
        shelf,
    }
}
