//! What the start and the events of a store tell of it, and what one turn of several sessions finds and adds.

mod laws;
mod seats;

pub use laws::{a_pin_sees_what_was, stores_are_told, stores_have_databases, turns_are_seen};
pub use seats::{let_go, let_go_all};
