//! Chunks that are parts of arrays: what an operator makes of a chunk, chunks that are parts of rows, and arrays by their cores.
#![tactic(auto)]

mod chunks;
mod cores;
mod parts;

pub use chunks::{CellChange, Quick, change_chunk};
pub use cores::{
    arrays_are_their_cores, arrays_have_cells, cores_are_rows, valid_chunks_have_cells,
};
pub use parts::{
    ChunkOperator, arrays_are_sound, holds_cell, operators_are_local, parts_are_chunks, with_cells,
};
