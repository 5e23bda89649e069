//! How a run opens its store, and closes it after its sessions.

mod closing;
mod opening;

pub use closing::{StoreRun, close_store};
pub use opening::open_store;
