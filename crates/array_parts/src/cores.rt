//! Arrays by their cores, whether or not the margins agree with them.

mod laws;

pub use laws::{
    arrays_are_their_cores, arrays_have_cells, cores_are_rows, valid_chunks_have_cells,
};
