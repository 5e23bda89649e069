//! The catalogue of the stored arrays and the records of its changes, as bytes: one spelling, and where the first wrong item
//! begins.

mod decoding;
mod encoding;
mod reading;
mod records;

pub use decoding::{BadCatalog, decode_catalog, decode_record};
pub use encoding::{encode_catalog, encode_record};
