//! Commits in two halves: the first takes all memory, the second none.
ghost use Rattle.std.specs.Prelude.{◌≡◌, false, [], ◌∷◌, IfOk, IsTrue};
ghost use Rattle.store_versions.specs.Allowed.{names_allow};
ghost use Rattle.store_versions.specs.Entry.TheVariants.{Commit};
ghost use Rattle.event_core.specs.Allowed.{allows};
ghost use Rattle.store_versions.specs.History.{names_at};
ghost use Rattle.store_versions.specs.Legal.{has_committed};
ghost use Rattle.store_versions.specs.Ready.{IsReadyOver};
ghost use Rattle.store_versions.specs.Replay.{core_at};
ghost use Rattle.store_ledger.specs.Ledger.{has_room, history, with_entries};

use crate::Ledger;
use cell_values::Memory;
use event_core::let_go_used;
use plan_changes::let_go_change;
use std::marker::Model;
use store_versions::{Change, Entry, LeanReady, Used, let_go_lean_ready};

/// A commit that was made ready, with its change and its pages. Contracts see the core, the change and the pages that it was made for.
#[derive(Drop)]
pub struct ReadyCommit {
    ready: LeanReady,
    change: Change,
    used: Used,
}

impl Model for ReadyCommit {
    ghost use Rattle.std.specs.Prelude.{◌≡◌};
    ghost use Rattle.store_versions.specs.Ready.{ReadyFor};

    ghost Value = { ReadyFor };

    ghost use Rattle.logical_plan.specs.Lemmas.QueryCode.{query_code};
    ghost use Rattle.std.specs.Coded.{codes};

    ghost coded = { Prim.hlevel (codes, query_code) };

    ghost view = { λ r. r.ready };

    ghost invariant = { λ r. (r.change ≡ r.ready.change) × (r.used ≡ r.ready.used) };
}

impl ReadyCommit {
    /// The change that it is of.
    pub fn change(&self) -> &Change
        ensures { result.now ≡ self.now.change }
    {
        &self.change
    }

    /// Gives the change back, where it isn't committed.
    pub fn into_change(self) -> Change
        ensures { result ≡ self.change }
    {
        let ReadyCommit {
            ready,
            change,
            used,
        } = self;
        let_go_lean_ready(ready);
        let_go_used(used);
        change
    }
}

impl Ledger {
    /// Takes all memory that a commit of a change needs.
    pub fn ready(&self, change: Change, used: Used) -> Result<ReadyCommit, Memory>
        requires { IsTrue (names_allow (names_at self.now.base (history self.now)) change) }
        ensures { IfOk result (λ ready. ready ≡ record { core = core_at self.now.base (history self.now); change = change; used = used }) }
    {
        match self.core.ready(&change, &used) {
            Ok(ready) => Ok(ReadyCommit {
                ready,
                change,
                used,
            }),
            Err(want) => {
                let_go_change(change);
                let_go_used(used);
                Err(want)
            }
        }
    }

    /// The commit that was made ready, the first under its session's pin. This takes no memory.
    pub fn put(&mut self, session: u32, commit: ReadyCommit)
        requires over { IsReadyOver commit (core_at self.old.base (history self.old)) }
        requires allowed { IsTrue (allows self.old.base (history self.old) (Commit session commit.change commit.used)) }
        requires first { has_committed session (history self.old) ≡ false }
        requires room { IsTrue (has_room self.old 1) }
        ensures { self.new ≡ with_entries (Commit session commit.change commit.used ∷ []) self.old }
    {
        let ReadyCommit {
            ready,
            change,
            used,
        } = commit;
        self.core.put(session, ready, &change);
        self.entries.push_reserved(Entry::Commit {
            session,
            change,
            used,
        });
    }
}
