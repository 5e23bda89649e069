//! What a commit lays of its change, in the pages that it is given, carries a file to the next database; what is found of a file, and what that costs.

mod costs;
mod given;
mod laid;
mod rows;
mod sizes;

pub use costs::{
    an_insert_is_over_its_file, found_catalogs_are_alike, found_directories_are_of_their_rows,
    found_files_are_over,
};
pub use given::{commits_may_use_free_pages, free_pages_differ};
pub use laid::{
    a_removal_is_laid, laid_bases_make_next, laid_commits_have_their_pages,
    laid_directories_have_cores, laid_records_make_next, opened_files_stand,
};
pub use rows::{
    directories_follow, first_rows_are_in_order, found_pages_are_of_versions, newest_are_last,
    pages_follow,
};
pub use sizes::{read_directories_are_as_long, read_payloads_are_as_long};
