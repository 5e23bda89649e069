//! The real streams and files: each object tells its counts, and nothing else. And the words that a program was given.
#![tactic(auto)]

mod host_disk;
mod host_shelf;
mod host_sink;
mod host_source;
mod words;

pub use host_disk::HostDisk;
pub use host_shelf::HostShelf;
pub use host_sink::HostSink;
pub use host_source::HostSource;
pub use words::words_of;
