//! Commits of two sessions over a store in memory: their steps and what these cost, and what a stop at each moment leaves.
//!
//! What has to come follows from `docs/FORMAT.md` and from these rules:
//!
//! - A commit takes the first pages of the free list, which rises: a page for each payload, the directory's, then those of the record or
//!   of the next catalogue, and at last the new log page. Free are the pages that nobody could name at the opening, or at the last reap;
//!   where they are too few, a reap comes first.
//! - It syncs (after the gate's byte, where the slot may stand open), writes these pages in this order and the slot's body, syncs, writes
//!   the gate's byte and syncs.
//! - An opening syncs, asks the length once, and reads page 0, the log page, the catalogue, each record and each directory, and no
//!   payload. A pin, an unpin and a reap make no call. Until the gate is written an image opens as before, until the sync behind it either
//!   way, and then with the commit.

mod bench;
mod cases;
mod moments;
mod runs;

pub(crate) use cases::push_cases;
pub(crate) use runs::push_runs;
