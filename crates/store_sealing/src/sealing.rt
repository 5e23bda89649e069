//! How a commit that was prepared is written and added to what a store keeps; what the store keeps over it, what becomes of its images, and which cells it holds.

mod cells;
mod images;
mod sealing;
mod steps;

pub use cells::{
    a_commit_is_written, both_may_occur, chunks_are_asked, commits_pass_by, payloads_are_held,
    sealed_cells_are_held, stopped_cells_are_held,
};
pub use images::{
    a_store_may_be_written, found_versions_lie, images_have_stood, images_stand,
    laid_commits_stand, moments_go_on, next_images, opening_images, unopened_images,
};
pub use sealing::seal;
pub use steps::{a_commit_is_ready, sealed_stores_are_kept, stopped_stores_are_kept};
