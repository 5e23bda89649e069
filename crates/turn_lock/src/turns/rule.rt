//! The rule of the lock's table, and the steps that keep it.
ghost use Rattle.std.specs.Prelude.{List, []};
ghost use Rattle.turn_lock.specs.Rule.{IsOneHistory};
ghost use Rattle.turn_lock.specs.Inner.Steps.{Draws, Looks, Counts, Serves, Arrives};
ghost use Rattle.turn_lock.specs.Inner.Views.{first_view, later_share, first_share, both_shares, spent_view};

use crate::turns::history::History;
use crate::turns::view::{Key, SeatView};
use atomic_table::{Join, Play, Split, TableRule};
use std::marker::{Brand, PhantomData};

pub struct OneHistory;

impl<V: History> TableRule<Option<V>, SeatView<V, V::Entry>, Key<V>> for OneHistory {
    ghost holds = { λ key. IsOneHistory V.origin V.entries V.owner key.first.value key.seats };

    ghost first = { λ key. first_view key.first.value key.seats };
}

/// A seat draws a ticket.
pub struct Draw;

impl<V: History> Play<Option<V>, SeatView<V, V::Entry>> for Draw {
    ghost then = { Draws };
}

/// A seat looks at the ticket served. Where it is the seat's own, the slot goes to the seat.
pub struct Look;

impl<V: History> Play<Option<V>, SeatView<V, V::Entry>> for Look {
    ghost then = { Looks V.origin V.entries V.owner };
}

/// The entries of the value that a turn has in hand.
pub trait InHand<E> {
    ghost entries: { List E };
}

impl<E> InHand<E> for Brand {
    ghost entries = { [] };
}

/// A turn makes known what it has in hand, by adding to the count.
pub struct Count<H>(PhantomData<H>);

impl<V: History, H: InHand<V::Entry>> Play<Option<V>, SeatView<V, V::Entry>> for Count<H> {
    ghost then = { Counts H.entries };
}

/// A turn ends: the slot goes home, and the next ticket is served.
pub struct Serve;

impl<V: History> Play<Option<V>, SeatView<V, V::Entry>> for Serve {
    ghost then = { Serves };
}

/// A seat with no number comes.
pub struct Arrive;

impl<V: History> Play<Option<V>, SeatView<V, V::Entry>> for Arrive {
    ghost then = { Arrives };
}

/// The first claim goes to a new seat.
pub struct Deal;

impl<V, E> Split<SeatView<V, E>> for Deal {
    ghost left = { later_share };

    ghost right = { first_share };
}

/// All claims of another seat are taken.
pub struct Gather;

impl<V, E> Join<SeatView<V, E>> for Gather {
    ghost both = { both_shares };

    ghost spent = { spent_view };
}
