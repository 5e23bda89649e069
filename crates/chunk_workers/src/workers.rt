//! Work on many pieces, some of them at a time.
ghost use Rattle.std.specs.Prelude.{◌≡◌, ◌<◌, ◌≤◌, ◌+◌, ◌-◌, ◌^◌, ◌++◌, [], ◌∷◌, length, map, min, take, drop, IfOk, OnOk, MatchResult};
ghost use Rattle.std.specs.List.{AllByRecursion, AllZip, flat_map};

use crate::crew::Crew;
use crate::share::{share, worth};
use crate::work::Work;
use afl_outside::{Gate, Point};
use cell_values::{List, Memory};
use std::alloc::{AllocError, Global};
use std::thread::{Threads, map_vec};

/// About how many cells pieces are the work of.
fn size_of_all<P, M, W: Work<P, M>>(pieces: &[P], work: &W) -> usize
    requires { AllByRecursion (W.accepts work.now) pieces.now }
{
    let mut rest = pieces;
    let mut size = 0usize;
    while let Some((piece, further)) = rest.split_first() {
        size = size.saturating_add(work.size(piece));
        rest = further;
    }
    size
}

/// What becomes of each piece, one after the other. The gate is passed before each; the first one's number is `first`.
fn in_turn<P: Drop, M: Drop, W: Work<P, M>, G: Gate>(
    pieces: List<P>,
    work: &W,
    first: u64,
    session: u32,
    gate: &G,
) -> Result<List<M>, Memory>
    requires { AllByRecursion (W.accepts work.now) pieces }
    ensures { IfOk result (AllZip (W.gives work.now) pieces) }
{
    let mut made = List::with_capacity(pieces.allocator(), pieces.len())?;
    let mut number = first;
    for piece in pieces.into_vec() {
        gate.pass(session, Point::Chunk(number));
        push_work(&mut made, work, piece)?;
        number = number.wrapping_add(1);
    }
    Ok(made)
}

/// What becomes of a piece, behind what became of those before it.
fn push_work<P, M: Drop, W: Work<P, M>>(
    made: &mut List<M>,
    work: &W,
    piece: P,
) -> Result<(), Memory>
    requires { W.accepts work.now piece }
    ensures { OnOk result ((one : M) × W.gives work.now piece one × (made.new ≡ made.old ++ one ∷ [])) }
{
    match work.work(piece) {
        Ok(one) => made.push(one),
        Err(Memory) => Err(Memory),
    }
}

/// The first pieces, and the others.
fn cut<P: Drop>(pieces: List<P>, at: usize) -> Result<(List<P>, List<P>), Memory>
    requires { at ≤ length pieces }
    ensures low { IfOk result (λ parts. parts.0 ≡ take at pieces) }
    ensures high { IfOk result (λ parts. parts.1 ≡ drop at pieces) }
{
    let mut low = pieces.into_vec();
    match low.split_off(at) {
        Ok(high) => Ok((List::from_vec(low), List::from_vec(high))),
        Err(_) => {
            drop(low);
            Err(Memory)
        }
    }
}

/// What became of the first pieces, and behind it what became of the others.
fn joined<M: Drop>(
    low: Result<List<M>, Memory>,
    high: Result<List<M>, Memory>,
) -> Result<List<M>, Memory>
    ensures { IfOk result (λ made. MatchResult low (λ x. MatchResult high (λ y. made ≡ x ++ y) (λ _. ⊥)) (λ _. ⊥)) }
{
    match low {
        Ok(made) => with_others(made, high),
        Err(Memory) => {
            drop(high);
            Err(Memory)
        }
    }
}

fn with_others<M: Drop>(made: List<M>, others: Result<List<M>, Memory>) -> Result<List<M>, Memory>
    ensures { IfOk result (λ all. MatchResult others (λ more. all ≡ made ++ more) (λ _. ⊥)) }
{
    let mut all = made;
    match others {
        Ok(more) => match all.append(more) {
            Ok(()) => Ok(all),
            Err(Memory) => {
                drop(all);
                Err(Memory)
            }
        },
        Err(Memory) => {
            drop(all);
            Err(Memory)
        }
    }
}

/// Pieces that one thread works on, one after the other; the first one's number is `first`.
#[derive(Drop)]
struct Run<P> {
    first: u64,
    pieces: List<P>,
}

/// Adds a run of the pieces for each worker, in the order of the pieces; the first one's number is `first`.
fn add_runs<P: Drop>(
    runs: &mut List<Run<P>>,
    pieces: List<P>,
    workers: u32,
    first: u64,
) -> Result<(), Memory>
    ensures { OnOk result (flat_map (λ run. run.pieces) runs.new ≡ flat_map (λ run. run.pieces) runs.old ++ pieces) }
{
    if workers < 2 {
        return runs.push(Run { first, pieces });
    }
    let few = workers / 2;
    let at = share(pieces.len(), few, workers);
    let (low, high) = cut(pieces, at)?;
    match add_runs(runs, low, few, first) {
        Ok(()) => add_runs(runs, high, workers - few, first.wrapping_add(at as u64)),
        Err(Memory) => {
            drop(high);
            Err(Memory)
        }
    }
}

/// A run of the pieces for each worker, in the order of the pieces.
fn in_runs<P: Drop>(pieces: List<P>, workers: u32, first: u64) -> Result<Vec<Run<P>>, Memory>
    ensures { IfOk result (λ runs. flat_map (λ run. run.pieces) runs.items ≡ pieces) }
{
    let mut runs = pieces.another();
    add_runs(&mut runs, pieces, workers, first)?;
    Ok(runs.into_vec())
}

/// What becomes of the pieces of each run, which may have a thread of its own.
fn worked<R: Threads + Sync, P: Send + Drop, M: Send + Drop, W: Work<P, M>, G: Gate>(
    rt: &R,
    runs: Vec<Run<P>>,
    work: &W,
    session: u32,
    gate: &G,
) -> Result<Vec<Result<List<M>, Memory>>, AllocError>
    requires { AllByRecursion (λ run. AllByRecursion (W.accepts work.now) run.pieces) runs.items }
    ensures { IfOk result (λ parts. AllZip (λ run part. IfOk part (AllZip (W.gives work.now) run.pieces)) runs.items parts.items) }
{
    let each = move |run: Run<P>| -> Result<List<M>, Memory>
        requires { AllByRecursion (W.accepts work.now) run.pieces }
        ensures { IfOk result (AllZip (W.gives work.entry.now) run.pieces) }
    {
        let Run { first, pieces } = run;
        in_turn(pieces, work, first, session, gate)
    };
    map_vec(rt, runs, &each)
}

/// What became of the pieces of all runs, one behind the other.
fn all_joined<M: Drop>(
    alloc: Global,
    parts: Vec<Result<List<M>, Memory>>,
) -> Result<List<M>, Memory>
    ensures { IfOk result (λ made. (lists : _) × (parts.items ≡ map (λ list. Ok list) lists) × (made ≡ flat_map (λ list. list) lists)) }
{
    let mut all: Result<List<M>, Memory> = Ok(List::new(alloc));
    for part in parts {
        all = joined(all, part);
    }
    all
}

/// What becomes of each piece, where each worker has a run of the pieces.
fn in_parts<R: Threads + Sync, P: Send + Drop, M: Send + Drop, W: Work<P, M>, G: Gate>(
    rt: &R,
    pieces: List<P>,
    workers: u32,
    work: &W,
    first: u64,
    session: u32,
    gate: &G,
) -> Result<List<M>, Memory>
    requires { AllByRecursion (W.accepts work.now) pieces }
    ensures { IfOk result (AllZip (W.gives work.now) pieces) }
{
    if workers < 2 {
        return in_turn(pieces, work, first, session, gate);
    }
    let alloc = pieces.allocator();
    let runs = in_runs(pieces, workers, first)?;
    let parts = worked(rt, runs, work, session, gate)?;
    all_joined(alloc, parts)
}

/// What becomes of each piece, in the order of the pieces. At most as many threads as the crew has workers are at work, the caller's
/// among them, each on one piece after the other, and fewer where there is little work; where no thread can be made the caller's
/// does it all. The gate is passed before each piece, with the pieces' numbers. Want of memory at one piece is the answer.
pub fn over_pieces<R: Threads + Sync, P: Send + Drop, M: Send + Drop, W: Work<P, M>, G: Gate>(
    crew: &mut Crew<'_, R, G>,
    pieces: List<P>,
    work: &W,
) -> Result<List<M>, Memory>
    requires { AllByRecursion (W.accepts work.now) pieces }
    ensures each { IfOk result (AllZip (W.gives work.now) pieces) }
    ensures known { (f : P → M) → ((piece : P) (made : M) → W.gives work.now piece made → made ≡ f piece) → IfOk result (λ made. made ≡ map f pieces) }
    ensures counted { crew.new.pieces ≡ min (crew.old.pieces + length pieces) (2 ^ 64 - 1) }
    ensures same { (crew.new.workers ≡ crew.old.workers) × (crew.new.session ≡ crew.old.session) }
{
    let first = crew.pieces;
    crew.pieces = first.saturating_add(pieces.len() as u64);
    let cells = size_of_all::<P, M, W>(pieces.as_slice(), work);
    let workers = worth(pieces.len(), cells, crew.workers);
    in_parts(
        crew.rt,
        pieces,
        workers,
        work,
        first,
        crew.session,
        crew.gate,
    )
}
