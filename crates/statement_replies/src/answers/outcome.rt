//! What comes of a statement.
ghost use Rattle.std.specs.Prelude.{◌≡◌};
ghost use Rattle.statement_replies.specs.Inner.Made.{offered};
ghost use Rattle.statement_replies.specs.Inner.RepliedOutcome.{replied};

use crate::replies::Reply;
use array_geom::Changed;
use cell_values::Memory;
use chunk_source::ExecFault;
use plan_changes::{Change, let_go_change};

/// What comes of a statement.
#[derive(Drop)]
pub enum Outcome {
    /// Its reply, where nothing changes: that of a query, a listing, or a refusal.
    Replied(Reply),
    /// A change that may be committed, the chunks that it writes, and its reply once it is.
    Changes {
        change: Change,
        changed: Option<Changed>,
        reply: Reply,
    },
}

/// The chunks that come with a change that has no fault, and its reply once it is committed.
pub(crate) struct Offer {
    pub(crate) changed: Option<Changed>,
    pub(crate) reply: Reply,
}

/// The outcome of a change that is offered or refused, or why there is none.
pub(crate) fn offered(
    change: Change,
    offer: Result<Result<Offer, Reply>, ExecFault>,
) -> Result<Outcome, ExecFault>
    ensures { result ≡ offered change offer }
{
    match offer {
        Ok(Ok(Offer { changed, reply })) => Ok(Outcome::Changes {
            change,
            changed,
            reply,
        }),
        Ok(Err(reply)) => {
            let_go_change(change);
            Ok(Outcome::Replied(reply))
        }
        Err(fault) => {
            let_go_change(change);
            Err(fault)
        }
    }
}

/// The outcome that a reply is, or the fault that memory is short.
pub(crate) fn replied(reply: Result<Reply, Memory>) -> Result<Outcome, ExecFault>
    ensures { result ≡ replied reply }
{
    match reply {
        Ok(reply) => Ok(Outcome::Replied(reply)),
        Err(Memory) => Err(ExecFault::Memory),
    }
}
