//! A disk that is watched, and a store over it with two sessions.
ghost use Rattle.std.specs.Prelude.{IfOk};
ghost use Rattle.test_disks.specs.Pairs.{IsPair};

use cell_values::Memory;
use std::alloc::Global;
use store_opening::Limits;
use test_disks::{
    Answer, SessionPair, Watch, limits_of, new_database, old_database, pair_of, pair_over,
    push_costs,
};
use test_kit::{Transcript, disk_of, push_hex, push_word};

/// A disk that is watched, and how much a store over it may use.
#[derive(Drop)]
pub(crate) struct WatchedDisk {
    pub(crate) watch: Watch,
    limits: Limits,
    /// How many calls there were when their costs were told.
    told: usize,
}

/// A disk that is watched, and a store over it.
#[derive(Drop)]
pub(crate) struct Bench {
    pub(crate) disk: WatchedDisk,
    pub(crate) pair: SessionPair,
}

/// A disk with an empty database of a format.
fn watched(alloc: Global, format: &str) -> Result<Watch, Memory> {
    let made = match format {
        "format1" => old_database(alloc),
        _ => new_database(alloc),
    };
    Watch::new(alloc, disk_of(alloc, made?, None)?)
}

/// So many bytes from a place on, as many as there are.
fn part_of(bytes: &[u8], at: usize, count: usize) -> &[u8] {
    let (_, behind) = bytes.split_at(at.min(bytes.len()));
    let (part, _) = behind.split_at(count.min(behind.len()));
    part
}

impl WatchedDisk {
    /// What the calls up to now cost isn't told any more.
    pub(crate) fn mark(&mut self) {
        self.told = self.watch.count();
    }

    /// Adds what the calls cost that were not told yet.
    pub(crate) fn push_calls(&mut self, out: &mut Transcript) {
        push_costs(out, &self.watch, self.told);
        push_word(out, "\n");
        self.mark();
    }

    /// Adds the bytes at a place, by a text as `512 8`.
    pub(crate) fn push_bytes(&self, out: &mut Transcript, text: &str) {
        let (at, count) = pair_of(text);
        match self.watch.bytes() {
            Ok(bytes) => {
                push_hex(out, part_of(bytes.as_slice(), at as usize, count as usize));
                drop(bytes);
            }
            Err(Memory) => out.note_short(),
        }
        push_word(out, "\n");
    }
}

impl Bench {
    /// The disk that a line makes, as `new 64 100`, with a store over it.
    pub(crate) fn of(alloc: Global, line: &str) -> Result<Bench, Answer>
        ensures { IfOk result (λ bench. IsPair bench.pair) }
    {
        let (format, numbers) = line.split_once(' ').unwrap_or((line, ""));
        let limits = limits_of(numbers);
        match watched(alloc, format) {
            Ok(watch) => match pair_over(alloc, &watch, limits) {
                Ok(pair) => {
                    let disk = WatchedDisk {
                        watch,
                        limits,
                        told: 0,
                    };
                    Ok(Bench { disk, pair })
                }
                Err(answer) => Err(answer),
            },
            Err(Memory) => Err(Answer::Memory),
        }
    }

    /// Begins anew with the disk that a line makes.
    pub(crate) fn renew(&mut self, alloc: Global, line: &str) -> Answer
        requires { IsPair self.old.pair }
        ensures { IsPair self.new.pair }
    {
        match Bench::of(alloc, line) {
            Ok(bench) => {
                *self = bench;
                Answer::Done
            }
            Err(answer) => answer,
        }
    }

    /// Opens the store anew over what the disk holds.
    pub(crate) fn reopen(&mut self, alloc: Global) -> Answer
        requires { IsPair self.old.pair }
        ensures { IsPair self.new.pair }
    {
        match pair_over(alloc, &self.disk.watch, self.disk.limits) {
            Ok(pair) => {
                self.pair = pair;
                Answer::Done
            }
            Err(answer) => answer,
        }
    }
}
