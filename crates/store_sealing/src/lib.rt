//! How a commit is prepared over a store, written and added to what the store keeps; what becomes of its images, and which cells it holds.
#![tactic(auto)]

mod preparing;
mod sealing;

pub use prepared_commits::commits_need_what_they_cost;
pub use preparing::prepare;
pub use sealing::{
    a_commit_is_ready, a_commit_is_written, a_store_may_be_written, both_may_occur,
    chunks_are_asked, commits_pass_by, found_versions_lie, images_have_stood, images_stand,
    laid_commits_stand, moments_go_on, next_images, opening_images, payloads_are_held, seal,
    sealed_cells_are_held, sealed_stores_are_kept, stopped_cells_are_held, stopped_stores_are_kept,
    unopened_images,
};
