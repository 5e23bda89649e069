//! Which directory the present, or an open pin, sees of each version of an array; a core whose pins copy no pages; and what holds of histories, whatever the code does.
#![tactic(auto)]

mod first;
mod laws;
mod lean;
mod letting;
mod ready;
mod row;
mod table;

pub use event_core::{Core, Entry, Used};
pub use laws::{
    a_table_is_seen, bases_are_seen, entries_are_seen, forgetting_is_seen,
    later_directories_are_free, named_versions_are_seen, pins_see_their_versions,
};
pub use lean::{
    LeanCore, LeanPin, LeanReady, a_history_is_legal, a_history_shares_a_page,
    a_page_used_twice_is_refused, base_is_first_core, beginnings_are_kept, catalogues_stay_apart,
    core_follows_entries, core_tells_allowed, core_tells_pages, free_pages_are_within,
    legal_databases, legal_is_ordered, named_versions_have_pages, names_are_of_the_database,
    no_free_page_is_live, no_fresh_page_was_live, open_pins_are_these, open_pins_stay,
    ordered_is_allowed, ordered_names_are_stored, ordered_versions_have_pages, pages_are_conserved,
    pinned_pages_stay_live, ready_outlasts, reap_frees_the_rest, reap_keeps_free_pages,
    reaps_without_gain_change_nothing,
};
pub use letting::let_go_lean_ready;
pub use plan_changes::Change;
pub use ready::{ReadyVersion, Room};
pub use row::VersionRow;
pub use table::VersionTable;
