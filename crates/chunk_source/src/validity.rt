//! Laws of the chunks of whole arrays.

mod laws;

pub use laws::{chunks_are_valid, sound_rows_have_sound_chunks};
