//! What an insert reads of its target, and the rows put over it.
ghost use Rattle.std.specs.Prelude.{◌≡◌, ◌++◌, false, length, map, IfOk, OnOk, OnErr, IsTrue};
ghost use Rattle.std.specs.List.{AllByRecursion, AllZip};
ghost use Rattle.array_parts.specs.Cores.{cores_of};
ghost use Rattle.chunk_source.specs.Faults.{Answers};
ghost use Rattle.chunk_source.specs.Source.{AsksFront, IsChunkIn, IsStored, Keeps, Reads, asks, is_among, listed};
ghost use Rattle.commit_pages.specs.Changes.{AreValid, IsOf};
ghost use Rattle.logical_plan.specs.Leaves.{leaves};
ghost use Rattle.logical_plan.specs.Meaning.{Database, version_rows};
ghost use Rattle.changed_chunks.specs.Inner.Input.{AreStoredChunks, CanBeStored, stored_rows};
ghost use Rattle.changed_chunks.specs.Inner.Writes.{IsInsertOf, Serves};
ghost use Rattle.changed_chunks.specs.Targets.{asking_over, asking_put};
ghost use Rattle.changed_chunks.specs.Wanted.{target_wanted};

use crate::chunks::versions::put_over;
use crate::chunks::wanted::wanted_chunks;
use crate::traces::{Asking, count_chunks};
use array_geom::{Changed, Chunk, ChunkedArray};
use cell_values::{ChunkAt, List, Memory};
use chunk_source::{ChunkSource, ExecFault};
use logical_plan::{Leaf, Plan, reads};
use std::alloc::Global;

/// How many leaves a plan has. More than a `u32` counts are as good as no memory.
fn count_leaves(alloc: Global, plan: &Plan) -> Result<u32, Memory>
    ensures { IfOk result (λ count. count ≡ length (leaves plan.now)) }
{
    let found = reads(alloc, plan)?;
    let count = found.len();
    if count < 1 << 32 {
        Ok(count as u32)
    } else {
        Err(Memory)
    }
}

/// Reads these chunks of a leaf.
fn read_chunks<S: ChunkSource>(
    source: &mut S,
    number: u32,
    leaf: &Leaf,
    chunks: &[ChunkAt],
) -> Result<List<Chunk>, ExecFault>
    requires reads { Reads (S.state source.old) leaf.now }
    requires listed { AllByRecursion (λ at. IsTrue (is_among at (listed (S.state source.old) leaf.now))) chunks.now }
    ensures stored { IfOk result (AllZip (IsStored leaf.now.schema) chunks.now) }
    ensures told { IfOk result (λ read. (db : Database) → (S.state source.old).tells db → AllByRecursion (IsChunkIn db leaf.now) read) }
    ensures asked { OnOk result ((S.state source.new).asked ≡ (S.state source.old).asked ++ map (asks number) chunks.now) }
    ensures front { OnErr result (AsksFront (map (asks number) chunks.now) (S.state source.old) (S.state source.new)) }
    ensures kept { Keeps (S.state source.old) (S.state source.new) }
    ensures cause { Answers (S.state source.old) (S.state source.new) result }
    ensures start { S.start source.new ≡ S.start source.old }
{
    let mut read = leaf.schema.dimensions.another();
    for at in chunks {
        read.push(source.chunk(number, leaf, at)?)?;
    }
    Ok(read)
}

/// Of a leaf's chunks those that are wanted where the rows of an array are put in, each of which is asked for once. What is known of
/// each holds whatever the source tells. How many are wanted, and of how many, is put into `asking`.
fn read_wanted<S: ChunkSource>(
    source: &mut S,
    number: u32,
    leaf: &Leaf,
    put: &ChunkedArray,
    asking: &mut Asking,
) -> Result<List<Chunk>, ExecFault>
    requires reads { Reads (S.state source.old) leaf.now }
    requires put { CanBeStored put.now }
    requires schema { put.now.schema ≡ leaf.now.schema }
    ensures stored { IfOk result (AreStoredChunks leaf.now.schema) }
    ensures told { IfOk result (λ chunks. (db : Database) → (S.state source.old).tells db
        → Serves leaf.now.schema (cores_of put.now) (version_rows db leaf.now.name leaf.now.version) (stored_rows leaf.now.schema chunks)) }
    ensures counted { IfOk result (λ chunks. (db : Database) → (S.state source.old).tells db
        → asking.new ≡ asking_put leaf.now.schema.dimensions (cores_of put.now) (version_rows db leaf.now.name leaf.now.version)) }
    ensures over { IfOk result (λ chunks. asking.new ≡ asking_over (S.state source.old) (cores_of put.now) leaf.now) }
    ensures asked { let old = S.state source.old in OnOk result ((S.state source.new).asked
        ≡ old.asked ++ map (asks number) (target_wanted leaf.now.schema.dimensions (cores_of put.now) (listed old leaf.now))) }
    ensures front { let old = S.state source.old in OnErr result
        (AsksFront (map (asks number) (target_wanted leaf.now.schema.dimensions (cores_of put.now) (listed old leaf.now))) old (S.state source.new)) }
    ensures kept { Keeps (S.state source.old) (S.state source.new) }
    ensures cause { Answers (S.state source.old) (S.state source.new) result }
    ensures start { S.start source.new ≡ S.start source.old }
{
    let listed = source.listed(leaf)?;
    let stored = count_chunks(&leaf.schema, listed.as_slice());
    let wanted = wanted_chunks(put, listed)?;
    let asked = count_chunks(&leaf.schema, wanted.as_slice());
    *asking = Asking { asked, stored };
    read_chunks(source, number, leaf, wanted.as_slice())
}

/// The chunks that are written where the rows of an array are put over a target, which is read as the leaf of this number.
fn put_over_leaf<S: ChunkSource>(
    source: &mut S,
    number: u32,
    target: &Leaf,
    put: &ChunkedArray,
    asking: &mut Asking,
) -> Result<Changed, ExecFault>
    requires reads { Reads (S.state source.old) target.now }
    requires put { CanBeStored put.now }
    requires schema { put.now.schema ≡ target.now.schema }
    ensures is_of { IfOk result (IsOf target.now.schema false) }
    ensures valid { IfOk result AreValid }
    ensures told { IfOk result (λ changed. (db : Database) → (S.state source.old).tells db
        → IsInsertOf target.now.schema (cores_of put.now) (version_rows db target.now.name target.now.version) changed) }
    ensures counted { IfOk result (λ changed. (db : Database) → (S.state source.old).tells db
        → asking.new ≡ asking_put target.now.schema.dimensions (cores_of put.now) (version_rows db target.now.name target.now.version)) }
    ensures over { IfOk result (λ changed. asking.new ≡ asking_over (S.state source.old) (cores_of put.now) target.now) }
    ensures asked { let old = S.state source.old in OnOk result ((S.state source.new).asked
        ≡ old.asked ++ map (asks number) (target_wanted target.now.schema.dimensions (cores_of put.now) (listed old target.now))) }
    ensures front { let old = S.state source.old in OnErr result
        (AsksFront (map (asks number) (target_wanted target.now.schema.dimensions (cores_of put.now) (listed old target.now))) old (S.state source.new)) }
    ensures kept { Keeps (S.state source.old) (S.state source.new) }
    ensures cause { Answers (S.state source.old) (S.state source.new) result }
    ensures start { S.start source.new ≡ S.start source.old }
{
    let old = read_wanted(source, number, target, put, asking)?;
    Ok(put_over(put, old)?)
}

/// The chunks that are written where the rows of an array are put over the target, which is one more leaf after those of the plan.
/// How many chunks of the target are asked for, and of how many, is put into `asking`.
pub(crate) fn put_over_target<S: ChunkSource>(
    alloc: Global,
    plan: &Plan,
    put: &ChunkedArray,
    target: &Leaf,
    source: &mut S,
    asking: &mut Asking,
) -> Result<Changed, ExecFault>
    requires put { CanBeStored put.now }
    requires reads { Reads (S.state source.old) target.now }
    requires schema { put.now.schema ≡ target.now.schema }
    ensures is_of { IfOk result (IsOf target.now.schema false) }
    ensures valid { IfOk result AreValid }
    ensures told { IfOk result (λ changed. (db : Database) → (S.state source.old).tells db
        → IsInsertOf target.now.schema (cores_of put.now) (version_rows db target.now.name target.now.version) changed) }
    ensures counted { IfOk result (λ changed. (db : Database) → (S.state source.old).tells db
        → asking.new ≡ asking_put target.now.schema.dimensions (cores_of put.now) (version_rows db target.now.name target.now.version)) }
    ensures over { IfOk result (λ changed. asking.new ≡ asking_over (S.state source.old) (cores_of put.now) target.now) }
    ensures asked { let old = S.state source.old in
        let wanted = target_wanted target.now.schema.dimensions (cores_of put.now) (listed old target.now) in
        OnOk result ((S.state source.new).asked ≡ old.asked ++ map (asks (length (leaves plan.now))) wanted) }
    ensures front { let old = S.state source.old in
        let wanted = target_wanted target.now.schema.dimensions (cores_of put.now) (listed old target.now) in
        OnErr result (AsksFront (map (asks (length (leaves plan.now))) wanted) old (S.state source.new)) }
    ensures kept { Keeps (S.state source.old) (S.state source.new) }
    ensures cause { Answers (S.state source.old) (S.state source.new) result }
    ensures start { S.start source.new ≡ S.start source.old }
{
    let number = count_leaves(alloc, plan)?;
    put_over_leaf(source, number, target, put, asking)
}
