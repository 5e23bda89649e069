//! Bytes as items that stand one after the other, and where the first wrong one begins.

mod fields;
mod stop;
mod writing;

pub use fields::{bytes_at, u8_at, u16_at, u32_at, u64_at};
pub use stop::Stop;
pub use writing::{put_u32, put_u64};
