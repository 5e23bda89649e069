//! A line for each leaf of a plan.
ghost use Rattle.std.specs.Prelude.{◌≡◌, [], ◌∷◌, length, IfOk, OnOk};
ghost use Rattle.std.specs.List.{AllByRecursion};
ghost use Rattle.cell_values.specs.Schemas.{IsValid};
ghost use Rattle.chunk_source.specs.Faults.{Answers};
ghost use Rattle.chunk_source.specs.Source.{Keeps, Reads};
ghost use Rattle.logical_plan.specs.Leaves.{leaves};
ghost use Rattle.logical_plan.specs.Meaning.{Database};
ghost use Rattle.logical_plan.specs.Typing.{IsTyped};
ghost use Rattle.changed_chunks.specs.Inner.Among.{AddsLines};
ghost use Rattle.changed_chunks.specs.Traced.{lines_over, plan_lines};

use crate::traces::asking::asking_for;
use crate::traces::boxes::boxes_of;
use crate::traces::line::write_line;
use cell_values::{Bounds, Bytes};
use chunk_source::{ChunkSource, ExecFault};
use logical_plan::{Leaf, Plan, reads};
use std::alloc::Global;

/// Adds the line of a leaf that is read for a box.
fn push_line<S: ChunkSource>(
    alloc: Global,
    lines: &mut Bytes,
    source: &mut S,
    leaf: &Leaf,
    area: &Bounds,
) -> Result<(), ExecFault>
    requires reads { Reads (S.state source.old) leaf.now }
    requires valid { IsValid leaf.now.schema }
    ensures line { OnOk result (AddsLines (S.state source.old) (leaf.now ∷ []) (area.now ∷ []) lines.old lines.new) }
    ensures asked { (S.state source.new).asked ≡ (S.state source.old).asked }
    ensures kept { Keeps (S.state source.old) (S.state source.new) }
    ensures cause { Answers (S.state source.old) (S.state source.new) result }
    ensures start { S.start source.new ≡ S.start source.old }
{
    let listed = source.listed(leaf)?;
    let asking = asking_for(alloc, leaf, area, listed.as_slice())?;
    Ok(write_line(lines, &leaf.name, leaf.version, asking)?)
}

/// Adds the line of each leaf.
fn push_lines<S: ChunkSource>(
    alloc: Global,
    lines: &mut Bytes,
    source: &mut S,
    leaves: &[Leaf],
    boxes: &[Bounds],
) -> Result<(), ExecFault>
    requires reads { AllByRecursion (Reads (S.state source.old)) leaves.now }
    requires valid { AllByRecursion (λ leaf. IsValid leaf.schema) leaves.now }
    requires each { length boxes.now ≡ length leaves.now }
    ensures lines { OnOk result (AddsLines (S.state source.old) leaves.now boxes.now lines.old lines.new) }
    ensures asked { (S.state source.new).asked ≡ (S.state source.old).asked }
    ensures kept { Keeps (S.state source.old) (S.state source.new) }
    ensures cause { Answers (S.state source.old) (S.state source.new) result }
    ensures start { S.start source.new ≡ S.start source.old }
{
    for (place, leaf) in leaves.iter().enumerate() {
        push_line(alloc, lines, source, leaf, &boxes[place])?;
    }
    Ok(())
}

/// What a plan reads of the arrays of a source: a line for each leaf, from left to right, with as many chunks as the source lists, and
/// as the plan asks for of them. No chunk is asked for here.
pub fn plan_lines<S: ChunkSource>(
    alloc: Global,
    plan: &Plan,
    source: &mut S,
) -> Result<Bytes, ExecFault>
    requires typed { IsTyped plan.now }
    requires reads { AllByRecursion (Reads (S.state source.old)) (leaves plan.now) }
    ensures over { IfOk result (λ lines. lines ≡ lines_over (S.state source.old) plan.now) }
    ensures told { IfOk result (λ lines. (db : Database) → (S.state source.old).tells db → lines ≡ plan_lines db plan.now) }
    ensures asked { (S.state source.new).asked ≡ (S.state source.old).asked }
    ensures kept { Keeps (S.state source.old) (S.state source.new) }
    ensures cause { Answers (S.state source.old) (S.state source.new) result }
    ensures start { S.start source.new ≡ S.start source.old }
{
    let boxes = boxes_of(alloc, plan)?;
    let leaves = reads(alloc, plan)?;
    let mut lines = Bytes::new(alloc);
    push_lines(
        alloc,
        &mut lines,
        source,
        leaves.as_slice(),
        boxes.as_slice(),
    )?;
    Ok(lines)
}
