//! Replies to listings and to changes that are accepted.
ghost use Rattle.std.specs.Prelude.{◌≡◌, ℕ, List, IfOk, IsTrue};
ghost use Rattle.plan_changes.specs.Changes.{has_array, next_of};
ghost use Rattle.result_print.specs.Listings.{stored_line};
ghost use Rattle.statement_replies.specs.Statements.{change_reply, change_text, list_reply, show_reply, text_alone, versions_reply};

use crate::replies::replies::Reply;
use crate::replies::texts::with_lines;
use cell_values::{Bytes, Memory, Name};
use logical_plan::Names;
use plan_changes::{Change, entry_named, next_of};
use result_print::{list_text, ok_line, show_text, stored_line, versions_text};
use std::alloc::Global;

/// The reply that a text is.
fn told(text: Result<Bytes, Memory>) -> Result<Reply, Memory>
    ensures { (words : List ℕ) → IfOk text (λ t. t ≡ words) → IfOk result (λ reply. reply ≡ text_alone words) }
{
    Ok(Reply {
        text: text?,
        refusal: None,
    })
}

/// The numbers of a stored array's versions.
#[tactic(auto, using(crate::proofs::Standing::no_entry))]
pub fn versions_reply(alloc: Global, name: &Name, names: &Names) -> Result<Reply, Memory>
    requires { IsTrue (has_array names.now.arrays name.now) }
    ensures { IfOk result (λ reply. reply ≡ versions_reply names.now name.now) }
{
    match entry_named(&names.arrays, name) {
        Some(entry) => told(versions_text(alloc, entry)),
        None => unreachable!(),
    }
}

/// A stored array's name and schema.
#[tactic(auto, using(crate::proofs::Standing::no_entry))]
pub fn show_reply(alloc: Global, name: &Name, names: &Names) -> Result<Reply, Memory>
    requires { IsTrue (has_array names.now.arrays name.now) }
    ensures { IfOk result (λ reply. reply ≡ show_reply names.now name.now) }
{
    match entry_named(&names.arrays, name) {
        Some(entry) => told(show_text(alloc, entry)),
        None => unreachable!(),
    }
}

/// The stored arrays.
pub fn list_reply(alloc: Global, names: &Names) -> Result<Reply, Memory>
    ensures { IfOk result (λ reply. reply ≡ list_reply names.now) }
{
    told(list_text(alloc, names))
}

/// The text of a change that stores one more version of an array.
fn stored_text(alloc: Global, name: &Name, names: &Names) -> Result<Bytes, Memory>
    ensures { IfOk result (λ text. text ≡ stored_line name.now (next_of names.now.arrays name.now)) }
{
    let number = next_of(&names.arrays, name);
    stored_line(alloc, name, number)
}

/// The text of a change over the names before it. A new version is told with its number.
fn change_text(alloc: Global, change: &Change, names: &Names) -> Result<Bytes, Memory>
    ensures { IfOk result (λ text. text ≡ change_text names.now change.now) }
{
    match change {
        Change::Store { name, .. } => stored_text(alloc, name, names),
        Change::Insert { name, .. } => stored_text(alloc, name, names),
        Change::Create { .. } | Change::Remove { .. } | Change::RemoveVersions { .. } => {
            ok_line(alloc)
        }
    }
}

/// The reply to a change that is accepted over the names before it, with these lines behind its text.
pub fn accepted_reply(
    alloc: Global,
    change: &Change,
    names: &Names,
    lines: &Bytes,
) -> Result<Reply, Memory>
    ensures { IfOk result (λ reply. reply ≡ change_reply names.now lines.now change.now) }
{
    told(with_lines(change_text(alloc, change, names), lines))
}
