//! Commits are prepared.
ghost use Rattle.std.specs.Prelude.{◌≡◌, ◌≤◌, ◌<◌, ◌+◌, ◌^◌, false, length, vec_capacity, IfOk, IfSome, OnOk, IsTrue};
ghost use Rattle.array_geom.specs.Link.{NumbersRise, numbers};
ghost use Rattle.std.specs.Option.{is_some};
ghost use Rattle.plan_changes.specs.Allowed.{names_allow};
ghost use Rattle.event_core.specs.Allowed.{is_pinned};
ghost use Rattle.event_core.specs.Apart.{makes_version};
ghost use Rattle.event_core.specs.Bases.{sequence_at};
ghost use Rattle.event_core.specs.History.{names_at};
ghost use Rattle.prepared_commits.specs.Changes.{AreValid};
ghost use Rattle.prepared_commits.specs.Versions.{CanBeListed, IsWritten, draft, draft_of};
ghost use Rattle.store_ledger.specs.Ledger.{MayReap, has_room, history, is_noted, is_tried};
ghost use Rattle.prepared_commits.specs.At.{AreParts, keeping, standing};
ghost use Rattle.prepared_commits.specs.Standings.{base_of};
ghost use Rattle.prepared_commits.specs.Needs.{needs, needs_by, newest_now};
ghost use Rattle.prepared_commits.specs.Prepared.{IsAsked, IsPreparedFor};
ghost use Rattle.prepared_commits.specs.Parts.{IsFullFor, IsPreparedAs};
ghost use Rattle.store_sealing.specs.Left.{FitsIn, HasNext, IsLeft, tried_now};

use crate::preparing::slots::{next_sequence, target_of};
use afl_outside::Disk;
use array_geom::Changed;
use cell_values::Memory;
use page_file::PageFile;
use plan_changes::{Change, let_go_change};
use prepared_commits::{
    PrepareFault, Prepared, StoreParts, Written, commits_need_what_they_cost, draft,
    let_go_changed, let_go_written, prepared_over,
};
use std::alloc::Global;
use std::snapshot::Snapshot;
use store_versions::ReadyVersion;

/// What is written of the chunks of a change, which are let go.
fn written_of(
    alloc: Global,
    changed: Option<Changed>,
    sequence: u64,
) -> Result<Option<Written>, Memory>
    requires { IfSome changed (λ some. NumbersRise (numbers some.chunks)) }
    ensures spelled { IfOk result (λ written. written ≡ draft_of sequence changed) }
    ensures ready { IfOk result (λ written. IfSome written IsWritten) }
    ensures listed { IfOk result (λ _. IfSome changed (λ some. AreValid some → 1 ≤ sequence
        → CanBeListed (length some.schema.dimensions) (draft sequence some))) }
{
    let written = draft(alloc, &changed, sequence);
    let_go_changed(changed);
    written
}

/// Room for one more moment and one more version.
fn reserve_one<D: Disk>(
    acked: &mut Vec<Snapshot<PageFile<D>>>,
    made: &mut Vec<Snapshot<Option<ReadyVersion>>>,
) -> Result<(), Memory>
    ensures acked { acked.new.items ≡ acked.old.items }
    ensures made { made.new.items ≡ made.old.items }
    ensures room { OnOk result ((length acked.new.items < vec_capacity acked.new) × (length made.new.items < vec_capacity made.new)) }
{
    acked.reserve(1)?;
    made.reserve(1)?;
    Ok(())
}

/// The prepared commit of what is written.
fn prepared_of<D: Disk>(
    alloc: Global,
    parts: &mut StoreParts<D>,
    session: u32,
    change: Change,
    written: Option<Written>,
    sequence: u64,
) -> Result<Prepared, PrepareFault>
    requires at { AreParts D.moment parts.old }
    requires allow { IsTrue (names_allow (names_at parts.old.ledger.base (history parts.old.ledger)) change) }
    requires comes { is_some written ≡ makes_version change }
    requires written { IfSome written IsWritten }
    requires room { IsTrue (has_room parts.old.ledger 1) }
    requires cause { MayReap parts.old.ledger }
    ensures at { AreParts D.moment parts.new }
    ensures kept { keeping parts.new ≡ keeping parts.old }
    ensures left { IsLeft (needs_by parts.old.file.slots.target parts.old.catalog (newest_now (standing D.moment parts.old) change) change written)
        (standing D.moment parts.old) result (standing D.moment parts.new) }
    ensures fits { IsFullFor (needs_by parts.old.file.slots.target parts.old.catalog (newest_now (standing D.moment parts.old) change) change written)
        result parts.new.ledger }
    ensures ok { IfOk result (IsPreparedAs parts.old.file.slots.target sequence parts.old.catalog (newest_now (standing D.moment parts.old) change)
        (length parts.old.table.rows) change written session parts.new.ledger) }
    ensures room { OnOk result ((length parts.new.acked.items < vec_capacity parts.new.acked) × (length parts.new.made.items < vec_capacity parts.new.made)) }
{
    match reserve_one(&mut parts.acked, &mut parts.made) {
        Ok(()) => {
            let target = target_of(&parts.file);
            prepared_over(
                alloc,
                target,
                sequence,
                &parts.catalog,
                &parts.table,
                &mut parts.ledger,
                session,
                change,
                written,
            )
        }
        Err(Memory) => {
            let_go_change(change);
            let_go_written(written);
            Err(PrepareFault::Memory)
        }
    }
}

/// A commit under a session's pin, with all memory that it needs, before anything of it is written. It is the first that is tried under the
/// pin, which is noted. Where fewer pages are free than it needs, all that nobody can name become free.
pub fn prepare<D: Disk>(
    alloc: Global,
    parts: &mut StoreParts<D>,
    session: u32,
    change: Change,
    changed: Option<Changed>,
) -> Result<Prepared, PrepareFault>
    requires at { AreParts D.moment parts.old }
    requires pinned { IsTrue (is_pinned session (history parts.old.ledger)) }
    requires tried { is_noted is_tried parts.old.ledger session ≡ false }
    requires asked { IsAsked D.moment (standing D.moment parts.old) change changed }
    ensures at { AreParts D.moment parts.new }
    ensures left { IsLeft (needs (standing D.moment parts.old) (keeping parts.old) change changed) (tried_now session change (standing D.moment parts.old))
        result (standing D.moment parts.new) }
    ensures ok { IfOk result (IsPreparedFor D.moment parts.new changed) }
    ensures kept { keeping parts.new ≡ keeping parts.old }
    ensures of { IfOk result (λ p. (p.session ≡ session) × (p.commit.change ≡ change)) }
    ensures fits { FitsIn (needs (standing D.moment parts.old) (keeping parts.old) change changed) result parts.new.ledger }
    ensures end { HasNext (sequence_at (base_of (standing D.moment parts.old)) (history parts.old.ledger)) result }
{
    commits_need_what_they_cost::<D>();
    let _limit = parts.ledger.page_limit();
    parts.ledger.note_tried(session, &change);
    match next_sequence(&parts.file) {
        Some(sequence) => match written_of(alloc, changed, sequence) {
            Ok(written) => prepared_of(alloc, parts, session, change, written, sequence),
            Err(Memory) => {
                let_go_change(change);
                Err(PrepareFault::Memory)
            }
        },
        None => {
            let_go_change(change);
            let_go_changed(changed);
            Err(PrepareFault::SequenceEnd)
        }
    }
}
