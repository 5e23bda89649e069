//! How many pages a commit takes.

mod laws;

pub use laws::{
    a_history_is_legal_at_its_costs, commits_cost_their_pages, costs_follow_the_catalogue,
    lengths_hang_on_no_page, logs_come_round, payloads_cost_the_same_in_any_order,
    versions_share_pages_legally,
};
