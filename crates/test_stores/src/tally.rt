//! What the history of a store tells.

use array_store::Store;
use event_core::{Entry, let_go_entries};
use test_kit::{Transcript, push_numbered};
use test_quiet::SilentDisk;

/// How many of the entries are commits of a session.
fn commits_of(entries: &[Entry], by: u32) -> u64 {
    let mut commits = 0u64;
    for entry in entries {
        if matches!(entry, Entry::Commit { session, .. } if *session == by) {
            commits = commits.saturating_add(1);
        }
    }
    commits
}

/// Adds how many commits there are, and how many each session made.
fn push_tally(out: &mut Transcript, entries: &[Entry], sessions: u32) {
    let mut all = 0u64;
    for session in 0..sessions {
        let commits = commits_of(entries, session);
        push_numbered(out, "session ", u64::from(session), ": ");
        push_numbered(out, "", commits, " commits\n");
        all = all.saturating_add(commits);
    }
    push_numbered(out, "all: ", all, " commits\n");
}

/// Ends a store, and adds what its history tells. Its disk is the answer.
pub fn tallied(out: &mut Transcript, store: Store<SilentDisk>, sessions: u32) -> SilentDisk {
    let (disk, entries) = store.close();
    push_tally(out, entries.as_slice(), sessions);
    let_go_entries(entries);
    disk
}
