//! A commit that takes no more memory.
ghost use Rattle.std.specs.Prelude.{◌≡◌, ◌<◌, length, IfOk, IsTrue};
ghost use Rattle.std.specs.Option.{is_some, option_map};
ghost use Rattle.plan_changes.specs.Allowed.{names_allow};
ghost use Rattle.event_core.specs.Apart.{makes_version};
ghost use Rattle.event_core.specs.History.{names_at};
ghost use Rattle.event_core.specs.Replay.{core_at};
ghost use Rattle.store_ledger.specs.Ledger.{history};
ghost use Rattle.store_versions.specs.Rows.{IsReadyFor};

use crate::commits::let_go_version;
use cell_values::Memory;
use chunk_map::Directory;
use event_core::{Used, let_go_used};
use logical_plan::Names;
use plan_changes::{Change, changed_name, let_go_change, next_of};
use store_ledger::{Ledger, ReadyCommit};
use store_versions::{ReadyVersion, VersionTable};

/// The version that a change makes, with all memory that a table needs for it.
fn ready_version(
    table: &VersionTable,
    names: &Names,
    change: &Change,
    directory: Option<Directory>,
) -> Result<Option<ReadyVersion>, Memory>
    requires { is_some directory ≡ makes_version change.now }
    ensures ready { IfOk result (IsReadyFor names.now change.now (length table.now.rows)) }
    ensures directory { IfOk result (λ ready. option_map (λ r. r.directory) ready ≡ directory) }
{
    let name = changed_name(change);
    match directory {
        Some(directory) => {
            let version = next_of(&names.arrays, name);
            Ok(Some(table.ready(name, version, directory)?))
        }
        None => Ok(None),
    }
}

/// The entry, and the version, each with all memory that it needs.
pub(crate) fn ready_both(
    ledger: &Ledger,
    table: &VersionTable,
    change: Change,
    directory: Option<Directory>,
    used: Used,
) -> Result<(ReadyCommit, Option<ReadyVersion>), Memory>
    requires names { IsTrue (names_allow (names_at ledger.now.base (history ledger.now)) change) }
    requires comes { is_some directory ≡ makes_version change }
    ensures commit { IfOk result (λ both. both.0 ≡ record { core = core_at ledger.now.base (history ledger.now); change = change; used = used }) }
    ensures version { IfOk result (λ both. IsReadyFor (names_at ledger.now.base (history ledger.now)) change (length table.now.rows) both.1) }
    ensures directory { IfOk result (λ both. option_map (λ r. r.directory) both.1 ≡ directory) }
{
    match ready_version(table, ledger.names(), &change, directory) {
        Ok(version) => match ledger.ready(change, used) {
            Ok(commit) => Ok((commit, version)),
            Err(Memory) => {
                let_go_version(version);
                Err(Memory)
            }
        },
        Err(Memory) => {
            let_go_change(change);
            let_go_used(used);
            Err(Memory)
        }
    }
}
