//! What programs of tests do with stores that one of them has in hand: databases, steps of sessions, and what is read of a store.
#![tactic(auto)]

mod databases;
mod readings;
mod stores;

pub use databases::{answered, held_in, new_database, old_database, read_over, with_change};
pub use stores::{
    SessionPair, answer_of_pair, let_go_store, limits_of, opened, pair_over, push_counts,
};
pub use test_quiet::{
    Answer, Hold, Offer, QuietDisk, SilentDisk, Step, Watch, add_read, count_of, named_leaf,
    offer_over, pair_of, push_costs, step_of,
};
