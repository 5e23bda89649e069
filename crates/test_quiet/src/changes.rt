//! Changes that texts are, with the chunks that come with them.
ghost use Rattle.std.specs.Prelude.{IfOk};
ghost use Rattle.plan_changes.specs.Stored.{AreStored};
ghost use Rattle.plan_changes.specs.Typed.{IsTypedFor};
ghost use Rattle.test_quiet.specs.Offers.{IsOffer};

use crate::answers::Answer;
use crate::chunks::chunks_of;
use crate::statements::statement;
use afl_types::Typed;
use array_geom::Changed;
use logical_plan::Names;
use plan_changes::{Change, let_go_change};
use std::alloc::Global;
use std::thread::Threads;

/// The change that a text is over some names, if it is one.
pub fn change_over(alloc: Global, text: &[u8], names: &Names) -> Result<Change, Answer>
    requires { AreStored names.now }
    ensures { IfOk result (IsTypedFor names.now) }
{
    match statement(alloc, text, names) {
        Ok(Typed::Change(change)) => Ok(change),
        Ok(other) => {
            drop(other);
            Err(Answer::NoChange)
        }
        Err(answer) => Err(answer),
    }
}

/// A change, with the chunks that come with it.
#[derive(Drop)]
pub struct Offer {
    pub change: Change,
    pub changed: Option<Changed>,
}

/// The change that a text is over some names, with the chunks that come with it.
pub fn offer_over<R: Threads + Sync>(
    rt: &R,
    alloc: Global,
    names: &Names,
    text: &[u8],
) -> Result<Offer, Answer>
    requires { AreStored names.now }
    ensures { IfOk result (IsOffer names.now) }
{
    match change_over(alloc, text, names) {
        Ok(change) => match chunks_of(rt, alloc, &change, names) {
            Ok(changed) => Ok(Offer { change, changed }),
            Err(answer) => {
                let_go_change(change);
                Err(answer)
            }
        },
        Err(answer) => Err(answer),
    }
}
