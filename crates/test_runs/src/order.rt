//! The order in which sessions pass their points.

use afl_outside::{Gate, Point};
use std::alloc::{AllocError, Global};
use std::sync::{Condvar, Mutex, Wait};
use std::thread::sleep;
use std::time::{Clock, Duration};

/// How long a session is held at most.
const HELD_SECONDS: u64 = 20;

/// How long a session stays at a point where it lets other threads run.
const STAY_SECONDS: u64 = 2;

/// A point of a session: the letter of its kind, and the number of its statement or chunk.
#[derive(Clone, Copy, PartialEq, Eq, Drop)]
pub(crate) struct Stop {
    pub(crate) session: u32,
    letter: char,
    pub(crate) number: u64,
}

impl Stop {
    /// Whether a session stays here, before its statement of this number, and lets other threads run.
    pub(crate) fn is_stay(self) -> bool {
        self.letter == 'y'
    }

    /// The point before the statement of the same number, where a session stays.
    fn place(self) -> Stop {
        let letter = if self.is_stay() { 's' } else { self.letter };
        Stop {
            session: self.session,
            letter,
            number: self.number,
        }
    }
}

fn stop_at(session: u32, point: Point) -> Stop {
    let (letter, number) = match point {
        Point::Statement(number) => ('s', number),
        Point::Pinned(number) => ('p', number),
        Point::Computed(number) => ('c', number),
        Point::Chunk(number) => ('w', number),
    };
    Stop {
        session,
        letter,
        number,
    }
}

/// The stop of a word such as `0p2`. To one of another word nobody comes.
pub(crate) fn stop_of(word: &str) -> Stop {
    let letter = word.chars().nth(1).unwrap_or(' ');
    let (session, number) = word.split_once(letter).unwrap_or((word, ""));
    Stop {
        session: session.parse::<u32>().unwrap_or(u32::MAX),
        letter,
        number: number.parse::<u64>().unwrap_or(u64::MAX),
    }
}

/// A gate that lets sessions pass the stops of a list in its order, and all other points at once. Where one is held too long, all stops
/// are let go.
#[derive(Drop)]
pub(crate) struct Ordered<'a, R> {
    rt: &'a R,
    stops: Vec<Stop>,
    passed: Mutex<usize>,
    moved: Condvar,
}

impl<'a, R: Wait + Clock> Ordered<'a, R> {
    /// The gate of the stops that these words stand for.
    pub(crate) fn new(rt: &'a R, alloc: Global, words: &str) -> Result<Ordered<'a, R>, AllocError> {
        let stops: Vec<Stop> = words.split_whitespace().map(stop_of).collect(alloc)?;
        Ok(Ordered {
            rt,
            stops,
            passed: Mutex::new(0),
            moved: Condvar::new(),
        })
    }

    /// Waits until all stops before this place are passed, and then passes it.
    fn pass_place(&self, place: usize) {
        let (mut passed, end) = self.moved.wait_timeout_while(
            self.rt,
            self.passed.lock(self.rt),
            Duration::from_secs(HELD_SECONDS),
            |passed: &mut usize| *passed < place,
        );
        let next = if end.timed_out() {
            usize::MAX
        } else {
            place.saturating_add(1)
        };
        *passed = next.max(*passed);
        drop(passed);
        self.moved.notify_all();
    }

    /// Whether all stops were passed, and none of them was let go.
    pub(crate) fn is_kept(&self) -> bool {
        *self.passed.lock(self.rt) == self.stops.len()
    }
}

impl<'a, R: Wait + Clock + Sync> Gate for Ordered<'a, R> {
    fn pass(&self, session: u32, point: Point) {
        let stop = stop_at(session, point);
        for (place, other) in self.stops.iter().enumerate() {
            if other.place() == stop {
                if other.is_stay() {
                    sleep(self.rt, Duration::from_secs(STAY_SECONDS));
                }
                self.pass_place(place);
            }
        }
    }
}
