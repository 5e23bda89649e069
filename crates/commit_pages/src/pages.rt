//! What a commit of a change writes, and the pages that it takes, as many as it costs. It knows no disk and no history.

mod laid;
mod laws;
mod needed;
mod version;
mod written;

pub use laid::{Laid, lay_base, lay_record, let_go_pages};
pub use laws::{
    an_insert_is_laid, commits_take_what_they_cost, commits_use_the_given_pages,
    directories_take_entries, new_versions_are_held, written_chunks_are_there,
};
pub use needed::{needed_for_base, needed_for_record};
pub use version::NewVersion;
pub use written::{Written, draft, let_go_written};
