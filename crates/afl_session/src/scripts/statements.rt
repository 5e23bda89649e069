//! Statements, answered one after another.
ghost use Rattle.std.specs.Prelude.{◌≡◌, ℕ, [], ◌∷◌, ◌++◌, ◌-◌, ◌<◌, ◌≤◌, length, option_map, take, vec_capacity, vec_len, IfSome, IsErrOf, OnErr, OnOk};
ghost use Rattle.afl_outside.specs.Counts.{Rose};
ghost use Rattle.afl_outside.specs.Sink.{Takes};
ghost use Rattle.snapshot_manager.specs.Seats.{last_place, seen, session_of, start, HoldsNone, IsIdle, IsSeatOf};
ghost use Rattle.afl_session.specs.Inner.Serving.{GoesOn, mark_at, reached, statement_at};
ghost use Rattle.afl_session.specs.Marked.{AnswersText, IsMarked, IsReplyOf, IsTooLongReply, written_for};
ghost use Rattle.run_opening.specs.Outcomes.{is_want};

use crate::scripts::streams::{Stopped, write_whole};
use afl_outside::{Disk, Gate, Sink};
use result_print::Refusal;
use run_opening::Mark;
use session_answers::{Options, Reply, answer, refusal_or_want};
use snapshot_manager::{Seat, Shared};
use std::alloc::{AllocError, Global};
use std::sync::Wait;
use std::thread::Threads;

/// The reply to a statement between these places, which has no text where it is too long, and this number.
fn reply_to<D: Disk, R: Threads + Wait + Sync, G: Gate>(
    rt: &R,
    alloc: Global,
    shared: &Shared<D>,
    seat: Seat<D>,
    from: u64,
    to: u64,
    text: Option<&[u8]>,
    number: u64,
    options: &Options,
    gate: &G,
) -> (Reply, Seat<D>)
    requires seat { IsSeatOf shared.now seat × IsIdle seat }
    requires none { HoldsNone D.moment shared.now seat }
    requires length { IfSome text (λ t. length t.now ≤ 1048576) }
    requires workers { (1 ≤ options.now.workers) × (options.now.workers ≤ 64) }
    ensures seat { IsSeatOf shared.now result.1 × IsIdle result.1 }
    ensures session { session_of result.1 ≡ session_of seat }
    ensures none { HoldsNone D.moment shared.now result.1 }
    ensures last { last_place result.1 ≡ result.0.place }
    ensures answered { IsReplyOf (AnswersText options.now.style D.moment (start D.moment shared.now) (session_of seat)) (seen seat) (seen result.1)
        (last_place seat) (to - from) (option_map (λ t. t.now) text.entry) result.0 }
{
    match text {
        Some(text) => answer(rt, alloc, shared, seat, text, number, options, gate),
        None => too_long(alloc, shared, seat, from, to),
    }
}

/// How many bytes stand between two places.
fn length_between(from: u64, to: u64) -> u64
    ensures { result ≡ to - from }
{
    to.saturating_sub(from)
}

/// The reply to a statement of too many bytes between these places. Its session keeps the reply's place.
fn too_long<D: Disk>(
    alloc: Global,
    shared: &Shared<D>,
    seat: Seat<D>,
    from: u64,
    to: u64,
) -> (Reply, Seat<D>)
    requires seat { IsSeatOf shared.now seat × IsIdle seat }
    requires none { HoldsNone D.moment shared.now seat }
    ensures seat { IsSeatOf shared.now result.1 × IsIdle result.1 }
    ensures session { session_of result.1 ≡ session_of seat }
    ensures none { HoldsNone D.moment shared.now result.1 }
    ensures last { last_place result.1 ≡ result.0.place }
    ensures answered { IsTooLongReply (seen seat) (seen result.1) (last_place seat) (to - from) result.0 }
{
    let _ = shared;
    let mut seat = seat;
    let last = seat.last();
    let count = seat.seen();
    let bytes = length_between(from, to);
    let reply = refusal_or_want(alloc, Refusal::TooLong { bytes }, last, count);
    seat.keep_last(reply.place);
    (reply, seat)
}

/// Whether no memory was found for a reply.
fn is_want(reply: &Reply) -> bool
    ensures { result ≡ is_want reply.now.refusal }
{
    matches!(reply.refusal, Some(Refusal::Memory))
}

/// Writes the text of a reply, or the line that no memory was found for it.
fn write_reply<K: Sink>(sink: &mut K, reply: &Reply) -> Result<(), Stopped>
    ensures ok { OnOk result (Takes (K.state sink.old) (K.state sink.new) (written_for reply.now)) }
    ensures err { OnErr result ((n : ℕ) × Takes (K.state sink.old) (K.state sink.new) (take n (written_for reply.now))) }
    ensures fault { IsErrOf result Stopped.Fault → Rose (K.state sink.old).faults (K.state sink.new).faults }
    ensures memory { IsErrOf result Stopped.Memory → Rose (K.state sink.old).wants (K.state sink.new).wants }
{
    if is_want(reply) {
        write_whole(sink, b"error: memory\n")
    } else {
        write_whole(sink, reply.text.as_slice())
    }
}

fn keep_mark(marks: &mut Vec<Mark>, from: u64, to: u64, reply: Reply)
    requires { vec_len marks.old < vec_capacity marks.old }
    ensures { marks.new.items ≡ marks.old.items ++ mark_at from to reply ∷ [] }
{
    let Reply {
        text,
        refusal,
        place,
    } = reply;
    drop(text);
    marks.push_reserved(Mark {
        start: from,
        end: to,
        place,
        refusal,
    });
}

/// Answers a statement, for whose mark there is room: it is the one of the number that counts those before it.
fn answer_marked<D: Disk, K: Sink, R: Threads + Wait + Sync, G: Gate>(
    rt: &R,
    alloc: Global,
    shared: &Shared<D>,
    seat: Seat<D>,
    from: u64,
    to: u64,
    text: Option<&[u8]>,
    sink: &mut K,
    marks: &mut Vec<Mark>,
    options: &Options,
    gate: &G,
) -> (Result<(), Stopped>, Seat<D>)
    requires seat { IsSeatOf shared.now seat × IsIdle seat }
    requires none { HoldsNone D.moment shared.now seat }
    requires length { IfSome text (λ t. length t.now ≤ 1048576) }
    requires workers { (1 ≤ options.now.workers) × (options.now.workers ≤ 64) }
    requires room { vec_len marks.old < vec_capacity marks.old }
    ensures seat { IsSeatOf shared.now result.1 × IsIdle result.1 }
    ensures session { session_of result.1 ≡ session_of seat }
    ensures none { HoldsNone D.moment shared.now result.1 }
    ensures goes_on { let statement = statement_at from to (option_map (λ t. t.now) text.entry) in
        (session : ℕ) → session_of seat ≡ session → GoesOn (IsMarked options.now.style D.moment (start D.moment shared.now) session)
        (reached (seen seat) (last_place seat) (K.state sink.old)) (reached (seen result.1) (last_place result.1) (K.state sink.new))
        marks.old.items marks.new.items (statement ∷ []) result.0 }
{
    let number = marks.len() as u64;
    let (reply, seat) = reply_to(
        rt, alloc, shared, seat, from, to, text, number, options, gate,
    );
    let written = write_reply(sink, &reply);
    keep_mark(marks, from, to, reply);
    (written, seat)
}

/// Answers a statement and keeps its mark, if there is room for that.
pub(crate) fn answer_statement<D: Disk, K: Sink, R: Threads + Wait + Sync, G: Gate>(
    rt: &R,
    alloc: Global,
    shared: &Shared<D>,
    seat: Seat<D>,
    from: u64,
    to: u64,
    text: Option<&[u8]>,
    sink: &mut K,
    marks: &mut Vec<Mark>,
    options: &Options,
    gate: &G,
) -> (Result<(), Stopped>, Seat<D>)
    requires seat { IsSeatOf shared.now seat × IsIdle seat }
    requires none { HoldsNone D.moment shared.now seat }
    requires length { IfSome text (λ t. length t.now ≤ 1048576) }
    requires workers { (1 ≤ options.now.workers) × (options.now.workers ≤ 64) }
    ensures seat { IsSeatOf shared.now result.1 × IsIdle result.1 }
    ensures session { session_of result.1 ≡ session_of seat }
    ensures none { HoldsNone D.moment shared.now result.1 }
    ensures goes_on { let statement = statement_at from to (option_map (λ t. t.now) text.entry) in
        (session : ℕ) → session_of seat ≡ session → GoesOn (IsMarked options.now.style D.moment (start D.moment shared.now) session)
        (reached (seen seat) (last_place seat) (K.state sink.old)) (reached (seen result.1) (last_place result.1) (K.state sink.new))
        marks.old.items marks.new.items (statement ∷ []) result.0 }
{
    match marks.reserve(1) {
        Ok(()) => answer_marked(
            rt, alloc, shared, seat, from, to, text, sink, marks, options, gate,
        ),
        Err(AllocError) => (Err(Stopped::Memory), seat),
    }
}
