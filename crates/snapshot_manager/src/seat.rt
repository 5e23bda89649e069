//! A session's place at a store that is shared.
ghost use Rattle.std.specs.Prelude.{◌≡◌};
ghost use Rattle.snapshot_manager.specs.Seats.{entry_count, last_place, read_count, session_of, with_last};

use afl_outside::Disk;
use array_store::{Store, let_go};
use turn_lock::TurnSeat;

/// A seat, for one thread at a time.
pub struct Seat<D: Disk> {
    pub(crate) turn_seat: TurnSeat<Store<D>>,
    /// How many of the events that it has seen are entries.
    pub(crate) entries: u64,
    pub(crate) last: u64,
    pub(crate) reads: u64,
}

impl<D: Disk> Drop for Seat<D> {
    fn drop(self) {
        let Seat {
            turn_seat,
            entries: _,
            last: _,
            reads: _,
        } = self;
        let_go(turn_seat);
    }
}

impl<D: Disk> Seat<D> {
    /// The session whose seat it is.
    pub fn session(&self) -> u32
        ensures { result ≡ session_of self.now }
    {
        self.turn_seat.number()
    }

    /// How many entries it has seen, notes not counted.
    pub fn seen(&self) -> u64
        ensures { result ≡ entry_count self.now }
    {
        self.entries
    }

    /// The place of its session's last reply.
    pub fn last(&self) -> u64
        ensures { result ≡ last_place self.now }
    {
        self.last
    }

    /// Keeps the place of a reply.
    pub fn keep_last(&mut self, place: u64)
        ensures { self.new ≡ with_last place self.old }
    {
        self.last = place;
    }

    // Its seat at the lock.
    pub(crate) fn into_turn_seat(self) -> TurnSeat<Store<D>>
        ensures { result ≡ self.turn_seat }
    {
        let Seat {
            turn_seat,
            entries: _,
            last: _,
            reads: _,
        } = self;
        turn_seat
    }

    /// How many chunks were asked for with it, up to the last value of a `u64`.
    pub fn reads(&self) -> u64
        ensures { result ≡ read_count self.now }
    {
        self.reads
    }
}
