//! Reads and writes files of a few pages: chains and blobs; what files open as; and commits with each call of the disk failing in turn, what
//! is answered and what a crash leaves. For programs of tests: the tables have a title, and no lines.
#![tactic(auto)]

mod chains;
mod crashes;
mod files;
mod images;
mod opens;
mod rows;
mod writing;

use chains::push_chains;
use crashes::push_crashes;
use rows::push_rows;
use test_kit::Transcript;

/// Adds the title of a table of files of a few pages, and what comes of its cases; nothing where the title is another one.
pub fn push_page_table(out: &mut Transcript, title: &str) {
    match title {
        "chains" => push_chains(out),
        "files of few pages" => push_rows(out),
        "crashes" => push_crashes(out),
        _ => {}
    }
}
