//! A log that several threads share: each appends its entries in turn, behind all that were appended before.

mod appending;
mod log;

pub(crate) use appending::append;
pub(crate) use log::{Entry, Log};
