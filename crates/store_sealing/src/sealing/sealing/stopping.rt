//! What was prepared, where writing it stopped.
ghost use Rattle.std.specs.Prelude.{◌≡◌, IsTrue};
ghost use Rattle.event_core.specs.Allowed.{is_pinned};
ghost use Rattle.store_ledger.specs.Ledger.{history};
ghost use Rattle.store_sealing.specs.Steps.{doubt_after};
ghost use Rattle.store_sealing.specs.Inner.Ends.{noted_if};

use crate::sealing::sealing::settling::note_if;
use page_file::Stopped;
use plan_changes::{Change, let_go_change};
use prepared_commits::{Prepared, let_go_catalog, let_go_doubt, let_go_pages, let_go_version};
use store_ledger::Ledger;

/// The change in doubt: that of an earlier commit, none, or this one.
fn put_doubt(doubt: &mut Option<Change>, change: Change, stage: Stopped)
    ensures { doubt.new ≡ doubt_after stage doubt.old change }
{
    match stage {
        Stopped::Closing => let_go_change(change),
        Stopped::Filling => {
            let_go_change(change);
            let_go_doubt(doubt.take());
        }
        Stopped::Opening => let_go_doubt(doubt.replace(change)),
    }
}

/// The change of what was prepared. The rest goes.
fn change_of(prepared: Prepared) -> Change
    ensures { result ≡ prepared.commit.change }
{
    let Prepared {
        session: _,
        blobs,
        chain,
        base: _,
        catalog,
        commit,
        version,
    } = prepared;
    let_go_pages(blobs, chain);
    let_go_catalog(catalog);
    let_go_version(version);
    commit.into_change()
}

/// The change in doubt, and the note of a fault where a count rose.
pub(crate) fn stop(
    ledger: &mut Ledger,
    doubt: &mut Option<Change>,
    prepared: Prepared,
    stage: Stopped,
    rose: bool,
)
    requires { IsTrue (is_pinned prepared.session (history ledger.old)) }
    ensures doubt { doubt.new ≡ doubt_after stage doubt.old prepared.commit.change }
    ensures ledger { ledger.new ≡ noted_if rose prepared.session ledger.old }
{
    note_if(ledger, prepared.session, rose);
    put_doubt(doubt, change_of(prepared), stage);
}
