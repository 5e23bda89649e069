//! What is let go. That each can be let go is proved here once, and not again in each crate that calls this.

use crate::meaning::Found;
use version_catalog::Catalog;

/// Lets a catalogue go.
pub fn let_go_catalog(catalog: Catalog) {
    drop(catalog);
}

/// Lets go what was found.
pub fn let_go_found(found: Found) {
    let Found {
        chain,
        logged,
        catalog,
        directories,
    } = found;
    drop(chain);
    drop(logged);
    let_go_catalog(catalog);
    drop(directories);
}
