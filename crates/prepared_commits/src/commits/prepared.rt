//! Prepared commits.

use crate::commits::{let_go_catalog, let_go_pages, let_go_version};
use cell_values::List;
use page_file::Placed;
use plan_changes::let_go_change;
use store_state::ReadyCommit;
use store_versions::ReadyVersion;
use version_catalog::Catalog;

/// A new base: its sequence number, and its log page.
#[derive(Clone, Copy)]
pub struct NewBase {
    pub sequence: u64,
    pub log: u32,
}

/// A commit with all memory that it needs. It has to be sealed or cancelled.
pub struct Prepared {
    pub session: u32,
    /// The payloads that are written, and the directory.
    pub blobs: List<Placed>,
    /// The record, or the next catalogue.
    pub chain: Placed,
    /// The new base, where the log has no room for one more record.
    pub base: Option<NewBase>,
    /// The next catalogue.
    pub catalog: Catalog,
    pub commit: ReadyCommit,
    /// The version that the change makes.
    pub version: Option<ReadyVersion>,
}

impl Prepared {
    /// Lets it go without a commit.
    pub fn cancel(self) {
        let Prepared {
            session: _,
            blobs,
            chain,
            base: _,
            catalog,
            commit,
            version,
        } = self;
        let_go_pages(blobs, chain);
        let_go_catalog(catalog);
        let_go_change(commit.into_change());
        let_go_version(version);
    }
}
