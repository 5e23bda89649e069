//! How a store is opened.

mod opening;
mod reading;

pub use opening::{Limits, open};
