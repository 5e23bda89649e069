//! Bytes that lie in pages of a disk: blobs and chains, in listed pages or in such as name one another; and the slots of a database's file, with what is known of each.
#![tactic(auto)]

mod blob;
mod chain;
mod fault;
mod page;
mod page_set;
mod run;
mod slots;
mod taken;
mod written;

pub use afl_outside::{Disk, Failed, has_risen};
pub use blob::{blob_pages, read_blob, write_blob};
pub use cell_values::{Bytes, List};
pub use chain::{Link, chain_pages, read_chain, write_chain};
pub use fault::{BlobFault, OpenCause};
pub use run::writes_follow;
pub use slots::{
    Format, LOG_ENTRIES, NextEntry, OpenRoot, PAGE, RecordAt, Records, Root, RootSlot, Side, Slot,
    Slots, Target, close_slot, current_in, images_open, images_open_as_current, log_in, open_slot,
    opens_as_one_root, puts_keep_pages, record_body, root_body, slots_lie_in_pages, write_record,
    write_root,
};
pub use taken::fewer_taken_pages;
pub use written::{
    blob_stays, chain_is_its_links, chain_stays, written_blob_is_read, written_chain_is_read,
};
