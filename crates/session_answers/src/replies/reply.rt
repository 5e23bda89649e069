//! Replies with their places.
ghost use Rattle.std.specs.Prelude.{◌≡◌};
ghost use Rattle.session_answers.specs.Refusals.{IsUncommittedReply, IsUnreadReply, IsWant, Refuses, RefusesAt};
ghost use Rattle.session_answers.specs.Replies.{words_of};

use array_store::CommitFault;
use cell_values::{Bytes, Memory};
use chunk_source::ExecFault;
use result_print::Refusal;
use statement_replies::{Reply as Words, refuse};
use std::alloc::Global;

/// What a statement is answered.
#[derive(Drop)]
pub struct Reply {
    pub text: Bytes,
    pub refusal: Option<Refusal>,
    /// How many entries of the history come before the point at which it holds.
    pub place: u64,
}

/// A reply at a place.
pub fn at_place(words: Words, place: u64) -> Reply
    ensures words { words_of result ≡ words }
    ensures place { result.place ≡ place }
{
    Reply {
        text: words.text,
        refusal: words.refusal,
        place,
    }
}

/// The reply that no memory was found.
pub fn want(alloc: Global, place: u64) -> Reply
    ensures want { IsWant result }
    ensures place { result.place ≡ place }
{
    Reply {
        text: Bytes::new(alloc),
        refusal: Some(Refusal::Memory),
        place,
    }
}

/// The reply that refuses, at a place; or that no memory was found for it.
pub fn refusal_at(alloc: Global, refusal: Refusal, place: u64) -> Reply
    ensures words { Refuses refusal result }
    ensures place { result.place ≡ place }
{
    match refuse(alloc, refusal) {
        Ok(words) => at_place(words, place),
        Err(Memory) => want(alloc, place),
    }
}

/// The reply that refuses, at a place; or, when so many entries were seen, that no memory was found for it.
pub fn refusal_or_want(alloc: Global, refusal: Refusal, last: u64, seen: u64) -> Reply
    ensures { RefusesAt refusal last seen result }
{
    match refuse(alloc, refusal) {
        Ok(words) => at_place(words, last),
        Err(Memory) => want(alloc, seen),
    }
}

/// The reply where a source gave no answer.
pub fn unread(alloc: Global, fault: ExecFault, place: u64) -> Reply
    ensures words { IsUnreadReply fault result }
    ensures place { result.place ≡ place }
{
    match fault {
        ExecFault::Source => refusal_at(alloc, Refusal::Disk, place),
        ExecFault::Damaged { page } => refusal_at(alloc, Refusal::Damaged { page }, place),
        ExecFault::Memory => want(alloc, place),
    }
}

/// The reply where a change wasn't committed, when so many entries were seen.
pub fn uncommitted(alloc: Global, fault: CommitFault, seen: u64) -> Reply
    ensures { IsUncommittedReply seen fault result }
{
    match fault {
        CommitFault::SequenceEnd { place } => refusal_at(alloc, Refusal::SequenceEnd, place),
        CommitFault::Full {
            needed,
            free,
            place,
        } => refusal_at(alloc, Refusal::Full { needed, free }, place),
        CommitFault::Disk { place } => refusal_at(alloc, Refusal::Disk, place),
        CommitFault::Memory => want(alloc, seen),
    }
}
