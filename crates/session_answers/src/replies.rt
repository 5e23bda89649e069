//! The replies of sessions over a store that is shared: what each tells, at its place in the store's history.

mod attempt;
mod laws;
mod reply;

pub(crate) use attempt::{Attempt, reply_read};
pub use laws::{
    a_damaged_page_is_told, fresh_changes_are_said, pins_are_entered, replies_stay,
    some_replies_are_told,
};
pub use reply::{Reply, at_place, refusal_at, refusal_or_want, uncommitted, unread, want};
