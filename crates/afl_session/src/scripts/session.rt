//! A session, from the bytes of its script to the texts of its replies.
ghost use Rattle.std.specs.Prelude.{◌≡◌, ℕ, List, [], ◌++◌, ◌+◌, ◌<◌, ◌≤◌, ◌^◌, length, MatchResult, None};
ghost use Rattle.afl_lexer.specs.Inner.Standing.{StandsAfter, told};
ghost use Rattle.snapshot_manager.specs.Seats.{last_place, seen, session_of, start, HoldsNone, IsIdle, IsSeatOf};
ghost use Rattle.afl_session.specs.Inner.Serving.{EndsServing, GoesOn, HasTaken, IsServing, Reached, StopsWithin, end_of, reached};
ghost use Rattle.afl_session.specs.Marked.{IsMarked};
ghost use Rattle.afl_session.specs.Session.{Serves};

use crate::scripts::statements::answer_statement;
use crate::scripts::streams::Stopped;
use afl_lexer::{SplitStep, Splitter};
use afl_outside::{Disk, Failed, Gate, Sink, Source};
use cell_values::List;
use run_opening::{Mark, SessionEnd, SessionReport};
use session_answers::Options;
use snapshot_manager::{Seat, Shared};
use std::alloc::Global;
use std::sync::Wait;
use std::thread::Threads;

/// How many bytes are read at a time.
const PIECE: usize = 4096;

/// A session between two bytes of its script.
#[derive(Drop)]
struct Session<K> {
    alloc: Global,
    splitter: Splitter,
    sink: K,
    marks: Vec<Mark>,
}

impl Stopped {
    fn end(self) -> SessionEnd
        ensures { result ≡ end_of self }
    {
        match self {
            Stopped::Fault => SessionEnd::Sink,
            Stopped::Memory => SessionEnd::Memory,
        }
    }
}

impl<K: Sink> Session<K> {
    /// Answers the statement that the splitter told, if it told one.
    fn take_step<D: Disk, R: Threads + Wait + Sync, G: Gate>(
        &mut self,
        rt: &R,
        shared: &Shared<D>,
        seat: Seat<D>,
        step: SplitStep,
        options: &Options,
        gate: &G,
    ) -> (Result<(), Stopped>, Seat<D>)
        requires seat { IsSeatOf shared.now seat × IsIdle seat }
        requires none { HoldsNone D.moment shared.now seat }
        requires workers { (1 ≤ options.now.workers) × (options.now.workers ≤ 64) }
        ensures seat { IsSeatOf shared.now result.1 × IsIdle result.1 }
        ensures session { session_of result.1 ≡ session_of seat }
        ensures none { HoldsNone D.moment shared.now result.1 }
        ensures splitter { self.new.splitter ≡ self.old.splitter }
        ensures goes_on { (session : ℕ) → session_of seat ≡ session
            → GoesOn (IsMarked options.now.style D.moment (start D.moment shared.now) session)
            (reached (seen seat) (last_place seat) (K.state self.old.sink)) (reached (seen result.1) (last_place result.1) (K.state self.new.sink))
            self.old.marks.items self.new.marks.items (told step self.old.splitter) result.0 }
    {
        let (from, to, bytes) = self.splitter.piece();
        let (alloc, sink, marks) = (self.alloc, &mut self.sink, &mut self.marks);
        match step {
            SplitStep::More | SplitStep::Blank => (Ok(()), seat),
            SplitStep::Piece => {
                answer_statement(
                    rt,
                    alloc,
                    shared,
                    seat,
                    from,
                    to,
                    Some(bytes),
                    sink,
                    marks,
                    options,
                    gate,
                )
            }
            SplitStep::TooLong => {
                answer_statement(
                    rt, alloc, shared, seat, from, to, None, sink, marks, options, gate,
                )
            }
        }
    }

    /// Takes the next bytes of the script.
    fn take_bytes<D: Disk, R: Threads + Wait + Sync, G: Gate>(
        &mut self,
        rt: &R,
        shared: &Shared<D>,
        seat: Seat<D>,
        bytes: &[u8],
        options: &Options,
        gate: &G,
    ) -> (Result<(), Stopped>, Seat<D>)
        requires seat { IsSeatOf shared.now seat × IsIdle seat }
        requires none { HoldsNone D.moment shared.now seat }
        requires workers { (1 ≤ options.now.workers) × (options.now.workers ≤ 64) }
        requires script { (script : List ℕ) × StandsAfter script self.old.splitter × (length script + length bytes.now < 2 ^ 63) }
        ensures seat { IsSeatOf shared.now result.1 × IsIdle result.1 }
        ensures session { session_of result.1 ≡ session_of seat }
        ensures none { HoldsNone D.moment shared.now result.1 }
        ensures serving { (session : ℕ) (first : Reached) (script : List ℕ) → session_of seat ≡ session
            → IsServing (IsMarked options.now.style D.moment (start D.moment shared.now) session) first
            (reached (seen seat) (last_place seat) (K.state self.old.sink)) script self.old.splitter self.old.marks.items
            → MatchResult result.0
            (λ _. IsServing (IsMarked options.now.style D.moment (start D.moment shared.now) session) first
            (reached (seen result.1) (last_place result.1) (K.state self.new.sink)) (script ++ bytes.now) self.new.splitter self.new.marks.items)
            (StopsWithin (IsMarked options.now.style D.moment (start D.moment shared.now) session) first
            (reached (seen result.1) (last_place result.1) (K.state self.new.sink)) script bytes.now self.new.marks.items) }
    {
        let mut seat = seat;
        for byte in bytes {
            let step = self.splitter.push(*byte);
            let (taken, back) = self.take_step(rt, shared, seat, step, options, gate);
            seat = back;
            match taken {
                Ok(()) => {}
                Err(stopped) => return (Err(stopped), seat),
            }
        }
        (Ok(()), seat)
    }

    /// Takes the script's end.
    fn take_end<D: Disk, R: Threads + Wait + Sync, G: Gate>(
        &mut self,
        rt: &R,
        shared: &Shared<D>,
        seat: Seat<D>,
        options: &Options,
        gate: &G,
    ) -> (SessionEnd, Seat<D>)
        requires seat { IsSeatOf shared.now seat × IsIdle seat }
        requires none { HoldsNone D.moment shared.now seat }
        requires workers { (1 ≤ options.now.workers) × (options.now.workers ≤ 64) }
        ensures seat { IsSeatOf shared.now result.1 × IsIdle result.1 }
        ensures session { session_of result.1 ≡ session_of seat }
        ensures none { HoldsNone D.moment shared.now result.1 }
        ensures ends { (session : ℕ) (first : Reached) (script : List ℕ) → session_of seat ≡ session
            → IsServing (IsMarked options.now.style D.moment (start D.moment shared.now) session) first
            (reached (seen seat) (last_place seat) (K.state self.old.sink)) script self.old.splitter self.old.marks.items
            → EndsServing (IsMarked options.now.style D.moment (start D.moment shared.now) session) first
            (reached (seen result.1) (last_place result.1) (K.state self.new.sink)) script self.new.marks.items result.0 }
    {
        let step = self.splitter.finish();
        let (taken, seat) = self.take_step(rt, shared, seat, step, options, gate);
        match taken {
            Ok(()) => (SessionEnd::Whole, seat),
            Err(stopped) => (stopped.end(), seat),
        }
    }

    /// Takes the next piece of the script, an empty one at its end. Tells how the session ended, if it ended there.
    fn take_piece<D: Disk, R: Threads + Wait + Sync, G: Gate>(
        &mut self,
        rt: &R,
        shared: &Shared<D>,
        seat: Seat<D>,
        bytes: &[u8],
        options: &Options,
        gate: &G,
    ) -> (Option<SessionEnd>, Seat<D>)
        requires seat { IsSeatOf shared.now seat × IsIdle seat }
        requires none { HoldsNone D.moment shared.now seat }
        requires workers { (1 ≤ options.now.workers) × (options.now.workers ≤ 64) }
        requires script { (script : List ℕ) × StandsAfter script self.old.splitter × (length script + length bytes.now < 2 ^ 63) }
        ensures seat { IsSeatOf shared.now result.1 × IsIdle result.1 }
        ensures session { session_of result.1 ≡ session_of seat }
        ensures none { HoldsNone D.moment shared.now result.1 }
        ensures more { result.0 ≡ None → 0 < length bytes.now }
        ensures taken { (session : ℕ) (first : Reached) (script : List ℕ) → session_of seat ≡ session
            → IsServing (IsMarked options.now.style D.moment (start D.moment shared.now) session) first
            (reached (seen seat) (last_place seat) (K.state self.old.sink)) script self.old.splitter self.old.marks.items
            → HasTaken (IsMarked options.now.style D.moment (start D.moment shared.now) session) first
            (reached (seen result.1) (last_place result.1) (K.state self.new.sink)) script bytes.now self.new.splitter self.new.marks.items result.0 }
    {
        if bytes.is_empty() {
            let (end, seat) = self.take_end(rt, shared, seat, options, gate);
            return (Some(end), seat);
        }
        let (taken, seat) = self.take_bytes(rt, shared, seat, bytes, options, gate);
        match taken {
            Ok(()) => (None, seat),
            Err(stopped) => (Some(stopped.end()), seat),
        }
    }
}

/// Answers the script of a source, from its start to its end.
fn converse<D: Disk, S: Source, K: Sink, R: Threads + Wait + Sync, G: Gate>(
    rt: &R,
    shared: &Shared<D>,
    seat: Seat<D>,
    source: &mut S,
    session: &mut Session<K>,
    options: &Options,
    gate: &G,
) -> (SessionEnd, Seat<D>)
    requires seat { IsSeatOf shared.now seat × IsIdle seat }
    requires none { HoldsNone D.moment shared.now seat }
    requires workers { (1 ≤ options.now.workers) × (options.now.workers ≤ 64) }
    requires begun { StandsAfter [] session.old.splitter }
    requires marks { session.old.marks.items ≡ [] }
    ensures seat { IsSeatOf shared.now result.1 × IsIdle result.1 }
    ensures session { session_of result.1 ≡ session_of seat }
    ensures none { HoldsNone D.moment shared.now result.1 }
    ensures serves { Serves (IsMarked options.now.style D.moment (start D.moment shared.now) (session_of seat)) (seen seat) (last_place seat)
        (seen result.1) (S.state source.old) (S.state source.new) (K.state session.old.sink) (K.state session.new.sink) session.new.marks.items result.0 }
{
    let mut seat = seat;
    let mut piece = [0u8; PIECE];
    'pieces: loop {
        let count = match source.read(&mut piece) {
            Ok(count) => count,
            Err(Failed) => return (SessionEnd::Source, seat),
        };
        let (end, back) = session.take_piece(rt, shared, seat, &piece[..count], options, gate);
        seat = back;
        match end {
            Some(end) => return (end, seat),
            None => {}
        }
    }
}

/// Answers the statements of a script over a store that is shared, as they end, and writes the texts of their replies. The room of a
/// statement's mark is there before it is answered; where there is none the session ends.
pub fn serve<D: Disk, S: Source, K: Sink, R: Threads + Wait + Sync, G: Gate>(
    rt: &R,
    alloc: Global,
    shared: &Shared<D>,
    seat: Seat<D>,
    source: S,
    sink: K,
    splitter: Splitter,
    options: &Options,
    gate: &G,
) -> (SessionReport<S, K>, Seat<D>)
    requires seat { IsSeatOf shared.now seat × IsIdle seat }
    requires none { HoldsNone D.moment shared.now seat }
    requires workers { (1 ≤ options.now.workers) × (options.now.workers ≤ 64) }
    requires begun { StandsAfter [] splitter }
    ensures seat { IsSeatOf shared.now result.1 × IsIdle result.1 }
    ensures session { session_of result.1 ≡ session_of seat }
    ensures none { HoldsNone D.moment shared.now result.1 }
    ensures serves { Serves (IsMarked options.now.style D.moment (start D.moment shared.now) (session_of seat)) (seen seat) (last_place seat)
        (seen result.1) (S.state source) (S.state result.0.source) (K.state sink) (K.state result.0.sink) result.0.marks result.0.end }
{
    let mut source = source;
    let mut session = Session {
        alloc,
        splitter,
        sink,
        marks: Vec::new(alloc),
    };
    let (end, seat) = converse(rt, shared, seat, &mut source, &mut session, options, gate);
    let report = SessionReport {
        source,
        sink: session.sink,
        marks: List::from_vec(session.marks),
        end,
    };
    (report, seat)
}
