//! Sources, sinks, disks and shelves in memory.

mod call_history;
mod device_call;
mod disk_record;
mod files;
mod ghost_record;
mod images;
mod mem_disk;
mod mem_file;
mod mem_shelf;
mod mem_sink;
mod mem_source;
mod overlay;
mod pieces;
mod sure_disk;
mod sure_sink;
mod sure_source;
mod turns;

pub use device_call::DeviceCall;
pub use mem_disk::MemDisk;
pub use mem_file::MemFile;
pub use mem_shelf::MemShelf;
pub use mem_sink::MemSink;
pub use mem_source::MemSource;
pub use sure_disk::SureDisk;
pub use sure_sink::SureSink;
pub use sure_source::SureSource;
