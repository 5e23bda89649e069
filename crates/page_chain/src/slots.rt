//! The slots of a database's file: where they and its log stand in the pages, what is known of each, and the writes that close, fill and open them.

mod layout;
mod slots;

pub use layout::{
    Format, LOG_ENTRIES, OpenRoot, PAGE, RecordAt, Records, Root, Side, Slot, current_in, log_in,
    record_body, root_body,
};
pub use slots::{
    NextEntry, RootSlot, Slots, Target, close_slot, images_open, images_open_as_current, open_slot,
    opens_as_one_root, puts_keep_pages, slots_lie_in_pages, write_record, write_root,
};
