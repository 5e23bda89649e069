//! What entries make of names, pins and pages, and what changes make of the catalogue: for programs of tests that have tables of such
//! cases.
//!
//! The entries and the changes are worked lists, and have no lines.
#![tactic(auto)]

mod changes;
mod changing;
mod entries;
mod steps;
mod tell;
mod vectors;
mod worked;

use changes::push_changes;
use steps::push_entries;
use test_kit::Transcript;

/// Adds the title of the table of entries or of changes, and what comes of them; nothing where the title is another one.
pub fn push_change_table(out: &mut Transcript, title: &str) {
    match title {
        "entries" => push_entries(out),
        "changes" => push_changes(out),
        _ => {}
    }
}
