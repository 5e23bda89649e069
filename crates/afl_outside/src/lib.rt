//! What the database meets outside: sources, sinks, disks, shelves and gates; and such as stand in memory.
#![tactic(auto)]

mod counts;
mod disk;
mod gate;
mod in_memory;
mod shelf;
mod sink;
mod source;

pub use counts::has_risen;
pub use disk::Disk;
pub use gate::{Gate, OpenGate, Point};
pub use in_memory::{
    DeviceCall, MemDisk, MemFile, MemShelf, MemSink, MemSource, SureDisk, SureSink, SureSource,
};
pub use shelf::Shelf;
pub use sink::Sink;
pub use source::{Failed, Source};
