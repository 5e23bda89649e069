//! Pieces of work that several threads share.
ghost use Rattle.std.specs.Prelude.{⊤};

use afl_outside::{Gate, Point};
use cell_values::{List, Memory};
use chunk_workers::{Crew, Work, over_pieces};
use std::alloc::Global;
use std::sync::atomic::{AtomicU64, Ordering};
use std::thread;
use std::thread::Threads;
use test_kit::{Transcript, push_word};

/// Twice a number.
#[derive(Drop)]
struct Doubles;

impl Work<u32, u64> for Doubles {
    ghost accepts = { λ work piece. ⊤ };

    ghost gives = { λ work piece made. ⊤ };

    fn size(&self, _piece: &u32) -> usize {
        2_000
    }

    fn work(&self, piece: u32) -> Result<u64, Memory> {
        Ok(u64::from(piece) * 2)
    }
}

/// Holds the first piece until another has come, or for ten million turns.
#[derive(Drop)]
struct HeldFirst {
    came: AtomicU64,
    let_go: AtomicU64,
}

impl Gate for HeldFirst {
    fn pass(&self, _session: u32, point: Point) {
        match point {
            Point::Chunk(0) => {
                for _ in 0..10_000_000u32 {
                    if self.came.load(Ordering::SeqCst) > 0 {
                        self.let_go.store(1, Ordering::SeqCst);
                        return;
                    }
                    thread::yield_now();
                }
            }
            _ => {
                self.came.fetch_add(1, Ordering::SeqCst);
            }
        }
    }
}

fn eight_pieces(alloc: Global) -> Result<List<u32>, Memory> {
    let mut pieces = List::new(alloc);
    for k in 0..8u32 {
        pieces.push(k)?;
    }
    Ok(pieces)
}

/// Whether the first of eight pieces was let go by another.
fn is_let_go<R: Threads + Sync>(rt: &R, alloc: Global, workers: u32) -> Result<bool, Memory> {
    let pieces = eight_pieces(alloc)?;
    let gate = HeldFirst {
        came: AtomicU64::new(0),
        let_go: AtomicU64::new(0),
    };
    let mut crew = Crew {
        rt,
        workers,
        session: 3,
        gate: &gate,
        pieces: 0,
    };
    let made = over_pieces(&mut crew, pieces, &Doubles)?;
    Ok(made.len() == 8 && gate.let_go.load(Ordering::SeqCst) == 1)
}

/// Adds whether so many workers were at work at once.
pub(crate) fn push_workers<R: Threads + Sync>(rt: &R, out: &mut Transcript, word: &str) {
    let workers = word.parse::<u32>().unwrap_or(0);
    match is_let_go(rt, out.alloc(), workers) {
        Ok(true) => push_word(out, "the first piece waited until another had come\n"),
        Ok(false) => push_word(out, "the first piece waited in vain\n"),
        Err(Memory) => out.note_short(),
    }
}
