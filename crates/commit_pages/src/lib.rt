//! What a commit of a change writes, and the pages that it takes, as many as it costs.
#![tactic(auto)]

mod counting;
mod pages;

pub use counting::{
    a_history_is_legal_at_its_costs, commits_cost_their_pages, costs_follow_the_catalogue,
    lengths_hang_on_no_page, logs_come_round, payloads_cost_the_same_in_any_order,
    versions_share_pages_legally,
};
pub use pages::{
    Laid, NewVersion, Written, an_insert_is_laid, commits_take_what_they_cost,
    commits_use_the_given_pages, directories_take_entries, draft, lay_base, lay_record,
    let_go_pages, let_go_written, needed_for_base, needed_for_record, new_versions_are_held,
    written_chunks_are_there,
};
