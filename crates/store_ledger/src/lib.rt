//! The ledger of a store: its entries, its notes, and the room that open pins have reserved.
#![tactic(auto)]

mod commits;
mod laws;
mod ledger;
mod letting;
mod note;
mod noting;
mod pinned;
mod pinning;
mod reaping;

pub use commits::ReadyCommit;
pub use event_core::let_go_seen;
pub use laws::{
    events_only_grow, notes_are_within, notes_outlast, open_pins_outlast, pins_reserve_three,
    tried_gives_two_back, unpins_give_back,
};
pub use ledger::Ledger;
pub use letting::let_go_ledger;
pub use note::{Note, NoteKind};
pub use pinned::{PinFault, Pinned};
