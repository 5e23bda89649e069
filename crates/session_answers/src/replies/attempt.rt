//! What came of a statement that was read: its reply, or the change that it was.
ghost use Rattle.session_answers.specs.Inner.Attempts.{TellsRead};

use crate::replies::reply::{Reply, at_place, unread};
use array_geom::Changed;
use chunk_source::ExecFault;
use plan_changes::Change;
use statement_replies::{Outcome, Reply as Words};
use std::alloc::Global;

/// A change, the chunks that it writes, and the words that tell that it is made.
pub(crate) struct Attempt {
    pub(crate) change: Change,
    pub(crate) changed: Option<Changed>,
    pub(crate) words: Words,
}

/// The reply to a statement at this place, by what came of it; or the change that it is.
pub(crate) fn reply_read(
    alloc: Global,
    outcome: Result<Outcome, ExecFault>,
    place: u64,
) -> Result<Reply, Attempt>
    ensures { TellsRead place outcome result }
{
    match outcome {
        Ok(Outcome::Replied(words)) => Ok(at_place(words, place)),
        Ok(
            Outcome::Changes {
                change,
                changed,
                reply,
            },
        ) => Err(Attempt {
            change,
            changed,
            words: reply,
        }),
        Err(fault) => Ok(unread(alloc, fault, place)),
    }
}
