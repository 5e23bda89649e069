//! Sources of stored chunks: what one promises, arrays in memory as one, the array of a leaf, and the chunks of a leaf that meet a box.
#![tactic(auto)]

mod leaves;
mod memory;
mod reading;
mod sources;
mod validity;

pub use leaves::{
    known_rows_are_alike, known_rows_are_sound, known_rows_suffice, numbered_plans_mean_the_same,
    read_part,
};
pub use memory::{LeafArray, MemChunks, SureChunks};
pub use reading::ExecFault;
pub use sources::{Asked, ChunkSource, SourceFault};
pub use validity::{chunks_are_valid, sound_rows_have_sound_chunks};
