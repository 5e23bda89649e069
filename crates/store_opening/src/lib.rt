//! How a store is opened, and the base of its history, of what is found in its file.
#![tactic(auto)]

mod bases;
mod opening;

pub use bases::{base_of, bases_begin, bases_lie_apart, directories_are_counted};
pub use opening::{Limits, open};
pub use store_state::{
    Event, ReadFault, StoreParts, listed, listed_now, pin, read_chunk, read_now, reap, unpin,
};
