//! The slots of a database's file: what is known of each, and the writes that close, fill and open them.

mod commits;
mod images;
mod puts;
mod slots;
mod steps;
mod torn;

pub use commits::{close_slot, open_slot, write_record, write_root};
pub use images::{images_open, images_open_as_current, opens_as_one_root, slots_lie_in_pages};
pub use slots::{NextEntry, RootSlot, Slots, Target};
pub use torn::puts_keep_pages;
