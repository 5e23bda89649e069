//! What a run tells of its sessions.
ghost use Rattle.std.specs.Prelude.{◌≡◌, ◌≤◌, ◌<◌, ◌⊎◌, ℕ, length, position, All, Any, IfSome, IsTrue};
ghost use Rattle.std.specs.List.{list_any};
ghost use Rattle.run_opening.specs.Outcomes.{IsFirst, breaks_off, damage_in, damaged_page, first_damage, has_fault, has_refusal, lacks_memory, notice_of};
ghost use Rattle.run_opening.specs.Outcomes.{is_fault, is_refusal, is_stream_end, is_want};

use crate::reports::notices::Notice;
use crate::reports::reports::{Mark, SessionEnd, SessionReport};
use result_print::Refusal;

/// What is told of sessions that ended so. Want of memory comes before a fault of the disk, that before damage, that before a fault of a
/// stream, and that before a refusal.
pub fn notice_after<S, K>(sessions: &[SessionReport<S, K>]) -> Notice
    requires { length sessions.now ≤ 16 }
    ensures notice { result ≡ notice_of sessions.now }

    // Then each script was read to its end, and each statement accepted.
    ensures done { result ≡ Notice.Done → All (λ r. (r.end ≡ SessionEnd.Whole) × All (λ m. m.refusal ≡ None) r.marks) sessions.now }
    ensures refused { result ≡ Notice.Refused → All (λ r. r.end ≡ SessionEnd.Whole) sessions.now
        × Any (λ r. Any (λ m. IsTrue (is_refusal m.refusal)) r.marks) sessions.now }

    // The disk failed, or a page was damaged, where a reply says so.
    ensures disk { result ≡ Notice.Disk → Any (λ r. Any (λ m. m.refusal ≡ Some Refusal.Disk) r.marks) sessions.now }
    ensures damaged { (page : ℕ) → result ≡ Notice.Damaged page
        → Any (λ r. Any (λ m. m.refusal ≡ Some (Refusal.Damaged page)) r.marks) sessions.now }

    // The least session whose source or sink failed.
    ensures stream { (session : ℕ) → result ≡ Notice.Stream session
        → IsFirst (λ r. (r.end ≡ SessionEnd.Source) ⊎ (r.end ≡ SessionEnd.Sink)) session sessions.now }
{
    if is_any_without_memory(sessions) {
        return Notice::Memory;
    }
    if is_any_with_fault(sessions) {
        return Notice::Disk;
    }
    if let Some(page) = damage_of(sessions) {
        return Notice::Damaged { page };
    }
    match first_broken_off(sessions) {
        Some(session) => Notice::Stream { session },
        None if is_any_refused(sessions) => Notice::Refused,
        None => Notice::Done,
    }
}

/// Whether no memory was found for some session, or for one of its replies.
fn is_any_without_memory<S, K>(sessions: &[SessionReport<S, K>]) -> bool
    ensures { result ≡ list_any lacks_memory sessions.now }
{
    sessions.iter().any(|session| is_without_memory(session))
}

fn is_without_memory<S, K>(session: &SessionReport<S, K>) -> bool
    ensures { result ≡ lacks_memory session.now }
{
    session.end == SessionEnd::Memory || has_want(session.marks.as_slice())
}

fn has_want(marks: &[Mark]) -> bool
    ensures { result ≡ list_any (λ m. is_want m.refusal) marks.now }
{
    marks.iter().any(is_unanswered)
}

fn is_unanswered(mark: &Mark) -> bool
    ensures { result ≡ is_want mark.now.refusal }
{
    matches!(mark.refusal, Some(Refusal::Memory))
}

/// Whether the disk failed for some reply.
fn is_any_with_fault<S, K>(sessions: &[SessionReport<S, K>]) -> bool
    ensures { result ≡ list_any has_fault sessions.now }
{
    sessions
        .iter()
        .any(|session| meets_fault(session.marks.as_slice()))
}

fn meets_fault(marks: &[Mark]) -> bool
    ensures { result ≡ list_any (λ m. is_fault m.refusal) marks.now }
{
    marks.iter().any(is_of_disk)
}

fn is_of_disk(mark: &Mark) -> bool
    ensures { result ≡ is_fault mark.now.refusal }
{
    matches!(mark.refusal, Some(Refusal::Disk))
}

/// The page that the first reply tells of which finds one damaged.
fn damage_of<S, K>(sessions: &[SessionReport<S, K>]) -> Option<u32>
    ensures { result ≡ first_damage sessions.now }
{
    for session in sessions {
        if let Some(page) = damage_in(session.marks.as_slice()) {
            return Some(page);
        }
    }
    None
}

fn damage_in(marks: &[Mark]) -> Option<u32>
    ensures { result ≡ damage_in marks.now }
{
    for mark in marks {
        if let Some(page) = page_in(mark) {
            return Some(page);
        }
    }
    None
}

fn page_in(mark: &Mark) -> Option<u32>
    ensures { result ≡ damaged_page mark.now.refusal }
{
    match mark.refusal {
        Some(Refusal::Damaged { page }) => Some(page),
        _ => None,
    }
}

/// The first session whose source or sink failed.
fn first_broken_off<S, K>(sessions: &[SessionReport<S, K>]) -> Option<u32>
    requires { length sessions.now ≤ 16 }
    ensures { result ≡ position breaks_off sessions.now }
{
    match first_place(sessions) {
        Some(place) => Some(place as u32),
        None => None,
    }
}

fn first_place<S, K>(sessions: &[SessionReport<S, K>]) -> Option<usize>
    ensures place { result ≡ position breaks_off sessions.now }
    ensures within { IfSome result (λ place. place < length sessions.now) }
{
    sessions
        .iter()
        .position(|session| is_broken_off(session.end))
}

fn is_broken_off(end: SessionEnd) -> bool
    ensures { result ≡ is_stream_end end }
{
    matches!(end, SessionEnd::Source | SessionEnd::Sink)
}

/// Whether some statement was refused for another reason than want of memory, a fault of the disk or damage.
fn is_any_refused<S, K>(sessions: &[SessionReport<S, K>]) -> bool
    ensures { result ≡ list_any has_refusal sessions.now }
{
    sessions
        .iter()
        .any(|session| meets_refusal(session.marks.as_slice()))
}

fn meets_refusal(marks: &[Mark]) -> bool
    ensures { result ≡ list_any (λ m. is_refusal m.refusal) marks.now }
{
    marks.iter().any(is_refused)
}

fn is_refused(mark: &Mark) -> bool
    ensures { result ≡ is_refusal mark.now.refusal }
{
    match mark.refusal {
        None | Some(Refusal::Memory | Refusal::Disk | Refusal::Damaged { .. }) => false,
        Some(
            Refusal::TooLong { .. }
            | Refusal::Parse { .. }
            | Refusal::HistoryFull
            | Refusal::Typing { .. }
            | Refusal::Cell { .. }
            | Refusal::SequenceEnd
            | Refusal::Full { .. },
        ) => true,
    }
}
