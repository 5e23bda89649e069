//! What a commit is prepared as, made of a catalogue, a table of versions and a ledger. No disk.

mod counting;
mod laying;
mod making;
mod ready;
mod room;

pub use laying::Layout;
pub use making::prepared_over;
