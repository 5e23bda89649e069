//! The lines that tell what was read.
ghost use Rattle.std.specs.Prelude.{◌≡◌, [], ◌∷◌, ◌++◌, IfOk, OnOk};
ghost use Rattle.cell_values.specs.declared.schema.Schema.{Schema};
ghost use Rattle.chunk_source.specs.Faults.{Answers};
ghost use Rattle.chunk_source.specs.Source.{Keeps};
ghost use Rattle.logical_plan.specs.Leaves.{leaves};
ghost use Rattle.logical_plan.specs.Meaning.{Database as Rows};
ghost use Rattle.plan_changes.specs.Databases.{Database};
ghost use Rattle.chunk_exec.specs.Computed.{CanCompute};
ghost use Rattle.changed_chunks.specs.Traced.{askings_over, leaf_line, lines_of, lines_over, plan_askings, plan_lines};
ghost use Rattle.statement_replies.specs.Reply.{traced};
ghost use Rattle.statement_replies.specs.Traces.{CanTrace, IsTracedIn, change_lines, change_lines_over, newest_leaf};
ghost use Rattle.statement_replies.specs.Inner.Listed.{AreListed};

use crate::replies::style::Style;
use cell_values::{Bytes, Memory, Name};
use changed_chunks::{Asking, plan_lines, write_line};
use chunk_source::{ChunkSource, ExecFault};
use logical_plan::{Names, Plan};
use plan_changes::{Change, newest_of};
use std::alloc::Global;

/// The lines that tell what a plan reads, where the style wants them.
pub(crate) fn lines_wanted<S: ChunkSource>(
    alloc: Global,
    style: Style,
    plan: &Plan,
    source: &mut S,
) -> Result<Bytes, ExecFault>
    requires { CanCompute (S.state source.old) plan.now }
    ensures over { IfOk result (λ lines. lines ≡ traced style (lines_over (S.state source.old) plan.now)) }
    ensures told { IfOk result (λ lines. (rows : Rows) → (S.state source.old).tells rows → lines ≡ traced style (plan_lines rows plan.now)) }
    ensures asked { (S.state source.new).asked ≡ (S.state source.old).asked }
    ensures kept { Keeps (S.state source.old) (S.state source.new) }
    ensures cause { Answers (S.state source.old) (S.state source.new) result }
    ensures start { S.start source.new ≡ S.start source.old }
{
    if style.trace {
        plan_lines(alloc, plan, source)
    } else {
        Ok(Bytes::new(alloc))
    }
}

/// Adds the line of the newest version of an array, of which so many chunks are asked for.
fn push_newest(lines: &mut Bytes, name: &Name, names: &Names, asking: Asking) -> Result<(), Memory>
    ensures { OnOk result ((schema : Schema) → lines.new ≡ lines.old ++ leaf_line (newest_leaf names.now name.now schema) asking) }
{
    write_line(lines, name, newest_of(&names.arrays, name), asking)
}

/// The lines that tell what an insert reads, whose target has this name.
fn insert_lines<S: ChunkSource>(
    alloc: Global,
    plan: &Plan,
    name: &Name,
    names: &Names,
    source: &mut S,
    target: Asking,
) -> Result<Bytes, ExecFault>
    requires { CanCompute (S.state source.old) plan.now }
    ensures over { IfOk result (λ lines. (schema : Schema)
        → lines ≡ lines_of (leaves plan.now ++ newest_leaf names.now name.now schema ∷ []) (askings_over (S.state source.old) plan.now ++ target ∷ [])) }
    ensures told { IfOk result (λ lines. (rows : Rows) → (S.state source.old).tells rows → (schema : Schema)
        → lines ≡ lines_of (leaves plan.now ++ newest_leaf names.now name.now schema ∷ []) (plan_askings rows plan.now ++ target ∷ [])) }
    ensures asked { (S.state source.new).asked ≡ (S.state source.old).asked }
    ensures kept { Keeps (S.state source.old) (S.state source.new) }
    ensures cause { Answers (S.state source.old) (S.state source.new) result }
    ensures start { S.start source.new ≡ S.start source.old }
{
    let mut lines = plan_lines(alloc, plan, source)?;
    push_newest(&mut lines, name, names, target)?;
    Ok(lines)
}

/// The lines that tell what a change reads over these names, where so many chunks of an insert's target are asked for.
fn lines_of_change<S: ChunkSource>(
    alloc: Global,
    change: &Change,
    names: &Names,
    source: &mut S,
    target: Asking,
) -> Result<Bytes, ExecFault>
    requires { CanTrace (S.state source.old) change.now }
    ensures listed { AreListed names.now (S.state source.old) (S.state source.new) change.now target result }
    ensures start { S.start source.new ≡ S.start source.old }
{
    match change {
        Change::Store { plan, .. } => plan_lines(alloc, plan, source),
        Change::Insert { name, plan, .. } => {
            insert_lines(alloc, plan, name, names, source, target)
        }
        Change::Create { .. } => Ok(Bytes::new(alloc)),
        Change::Remove { .. } => Ok(Bytes::new(alloc)),
        Change::RemoveVersions { .. } => Ok(Bytes::new(alloc)),
    }
}

/// The lines that tell what a change reads over these names, where the style wants them. Of an insert's target so many chunks are asked
/// for. No chunk is asked for here.
pub fn change_lines<S: ChunkSource>(
    alloc: Global,
    style: Style,
    change: &Change,
    names: &Names,
    source: &mut S,
    target: Asking,
) -> Result<Bytes, ExecFault>
    requires { CanTrace (S.state source.old) change.now }
    ensures over { IfOk result (λ lines. lines ≡ traced style (change_lines_over names.now (S.state source.old) target change.now)) }
    ensures told { IfOk result (λ lines. (db : Database) → IsTracedIn names.now (S.state source.old) change.now target db
        → lines ≡ traced style (change_lines db change.now)) }
    ensures asked { (S.state source.new).asked ≡ (S.state source.old).asked }
    ensures kept { Keeps (S.state source.old) (S.state source.new) }
    ensures cause { Answers (S.state source.old) (S.state source.new) result }
    ensures start { S.start source.new ≡ S.start source.old }
{
    if style.trace {
        lines_of_change(alloc, change, names, source, target)
    } else {
        Ok(Bytes::new(alloc))
    }
}
