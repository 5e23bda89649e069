//! How a store began.

use afl_outside::Disk;
use cell_values::{List, Name};
use chunk_map::Directory;
use event_core::Core;
use page_file::PageFile;

/// A version that the file had as it was opened.
#[derive(Drop)]
pub struct FirstVersion {
    pub name: Name,
    pub version: u32,
    pub directory: Directory,
}

/// How a store began. No value of it is made: it is what the origin of a store that is shared is seen as.
#[derive(Drop)]
pub struct Start<D: Disk> {
    /// The file as it was opened.
    pub opened: PageFile<D>,
    pub first: List<FirstVersion>,
    pub base: Core,
    /// How many entries its history may have.
    pub limit: u32,
}
