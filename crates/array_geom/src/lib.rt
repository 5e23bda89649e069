//! Arrays in chunks: which coordinates belong to a chunk, and where each stands in the chunk's frame.
#![tactic(auto)]

mod boxes;
mod chunk;
mod cores;
mod frames;
mod grid;
mod laws;
mod letting;
mod margins;

pub use array_rows::{
    Attribute, Bounds, Bytes, Cell, Cells, ChunkAt, Code, Coord, Datum, Dimension, Form, Kind,
    List, Memory, Rows, Schema, copy_numbers,
};
pub use boxes::Boxes;
pub use chunk::{Changed, Chunk, ChunkedArray};
pub use cores::{chunk_of, chunks_meeting, core_box, has_core};
pub use frames::{frame, grid_of, place, position};
pub use grid::{Grid, Lengths};
pub use laws::{
    boxes_hold_coordinates, chunks_are_one_array, cores_are_parts, position_and_place_are_inverse,
};
pub use letting::let_go_changed;
pub use margins::margins_of;
