//! Items of bytes that stand one after the other, and where the first wrong one begins: numbers, lists of pages, names and schemas.
#![tactic(auto)]

mod bytes;
mod page_lists;
mod schemas;

pub use bytes::{Stop, bytes_at, put_u32, put_u64, u8_at, u16_at, u32_at, u64_at};
pub use cell_values::{
    Bytes, ChunkAt, Copies, List, Memory, Name, Schema, compare_numbers, copy_numbers,
};
pub use page_lists::{pages, positive, put_count, put_pages};
pub use schemas::{name, put_name, put_schema, schema};
