//! Commits under a session's pin.
ghost use Rattle.std.specs.Prelude.{◌≡◌, false, IfOk, IsTrue, Option};
ghost use Rattle.array_geom.specs.declared.chunk.Changed.{Changed};
ghost use Rattle.event_core.specs.Allowed.{is_pinned};
ghost use Rattle.event_core.specs.History.{names_at};
ghost use Rattle.plan_changes.specs.Stored.{AreStored};
ghost use Rattle.prepared_commits.specs.Prepared.{IsPreparedFor};
ghost use Rattle.store_ledger.specs.Ledger.{IsOpenPin, history, is_noted, is_tried};
ghost use Rattle.test_disks.specs.Holds.{IsHold, LeavesOthers, LeavesTried};
ghost use Rattle.test_quiet.specs.Offers.{IsOffer};
ghost use Rattle.test_quiet.specs.Quiet.{quiet_moment};

use crate::stores::pins::{pinned, unpinned};
use afl_outside::{Disk, Failed};
use array_geom::Changed;
use array_store::Store;
use cell_values::Name;
use plan_changes::{Change, changed_name, has_its_names, let_go_change, newest_of};
use prepared_commits::{PrepareFault, Prepared};
use std::alloc::Global;
use std::thread::Threads;
use store_ledger::Pinned;
use test_quiet::{Answer, Hold, Offer, QuietDisk, change_over, offer_over};

/// What was committed: the newest version, where the change made one.
fn done(store: &Store<QuietDisk>, made: Option<Name>) -> Answer {
    match made {
        Some(name) => {
            let version = newest_of(&store.names().arrays, &name);
            Answer::Made { name, version }
        }
        None => Answer::Done,
    }
}

fn sealed(store: &mut Store<QuietDisk>, prepared: Prepared, made: Option<Name>) -> Answer
    requires { (changed : Option Changed) × IsPreparedFor quiet_moment store.old changed prepared }
    ensures tried { LeavesTried prepared.session store.old.ledger store.new.ledger }
    ensures others { LeavesOthers prepared.session store.old.ledger store.new.ledger }
{
    match store.seal(prepared) {
        Ok(_) => done(store, made),
        Err(Failed) => {
            drop(made);
            Answer::Disk
        }
    }
}

fn answer_of(fault: PrepareFault) -> Answer {
    match fault {
        PrepareFault::SequenceEnd => Answer::SequenceEnd,
        PrepareFault::Full { needed, free } => Answer::Full { needed, free },
        PrepareFault::Memory => Answer::Memory,
    }
}

/// The name of the array of which a change makes a version.
fn made_by(change: &Change, changed: &Option<Changed>) -> Option<Name> {
    match changed {
        Some(_) => changed_name(change).copy().ok(),
        None => None,
    }
}

/// Commits what is offered under a session's pin. Over a quiet disk nothing is asked of what the database holds.
fn committed(alloc: Global, store: &mut Store<QuietDisk>, session: u32, offer: Offer) -> Answer
    requires pinned { IsTrue (is_pinned session (history store.old.ledger)) }
    requires tried { is_noted is_tried store.old.ledger session ≡ false }
    requires offer { IsOffer (names_at store.old.ledger.base (history store.old.ledger)) offer }
    ensures tried { LeavesTried session store.old.ledger store.new.ledger }
    ensures others { LeavesOthers session store.old.ledger store.new.ledger }
{
    let Offer { change, changed } = offer;
    has_its_names(&change);
    let made = made_by(&change, &changed);
    match store.prepare(alloc, session, change, changed) {
        Ok(prepared) => sealed(store, prepared, made),
        Err(fault) => {
            drop(made);
            answer_of(fault)
        }
    }
}

/// The change that a text is under a pin, if nothing of it was changed since, with the chunks that come with it.
fn offer_under<D: Disk, R: Threads + Sync>(
    rt: &R,
    alloc: Global,
    store: &Store<D>,
    pinned: &Pinned,
    text: &[u8],
) -> Result<Offer, Answer>
    requires open { IsOpenPin store.now.ledger pinned.now }
    requires stored { AreStored pinned.now.names }
    ensures { IfOk result (IsOffer (names_at store.now.ledger.base (history store.now.ledger))) }
{
    match change_over(alloc, text, &pinned.names) {
        Ok(change) => {
            let fresh = store.fresh(pinned, &change);
            let_go_change(change);
            if fresh {
                offer_over(rt, alloc, store.names(), text)
            } else {
                Err(Answer::Stale)
            }
        }
        Err(answer) => Err(answer),
    }
}

/// The change that a text is, committed under a session's pin, if nothing of it was changed since.
pub(crate) fn changed<R: Threads + Sync>(
    rt: &R,
    alloc: Global,
    store: &mut Store<QuietDisk>,
    session: u32,
    held: Hold,
    text: &[u8],
) -> (Hold, Answer)
    requires { IsHold store.old.ledger session held }
    ensures own { IsHold store.new.ledger session result.0 }
    ensures others { LeavesOthers session store.old.ledger store.new.ledger }
{
    match held {
        Hold::Free => (Hold::Free, Answer::HasNoPin),
        Hold::Tried(pinned) => (Hold::Tried(pinned), Answer::HasTried),
        Hold::Pinned(pinned) => match offer_under(rt, alloc, store, &pinned, text) {
            Ok(offer) => {
                let answer = committed(alloc, store, session, offer);
                (Hold::Tried(pinned), answer)
            }
            Err(answer) => (Hold::Pinned(pinned), answer),
        },
    }
}

/// A pin of a session that has none, the change that a text is, committed under it, and the unpin.
pub(crate) fn once<R: Threads + Sync>(
    rt: &R,
    alloc: Global,
    store: &mut Store<QuietDisk>,
    session: u32,
    text: &[u8],
) -> Answer
    requires { IsHold store.old.ledger session Hold.Free }
    ensures own { IsHold store.new.ledger session Hold.Free }
    ensures others { LeavesOthers session store.old.ledger store.new.ledger }
{
    let mut held = Hold::Free;
    let begun = pinned(store, session, &mut held);
    let (held, answer) = changed(rt, alloc, store, session, held, text);
    unpinned(store, session, held);
    if matches!(&begun, Answer::Done) {
        answer
    } else {
        begun
    }
}
