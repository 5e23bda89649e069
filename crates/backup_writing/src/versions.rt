//! Writing the versions of an array.
ghost use Rattle.std.specs.Prelude.{◌≡◌, ◌≤◌, ◌==◌, filter, length, IfErr, IfOk};
ghost use Rattle.cell_values.specs.Schemas.{IsValid};
ghost use Rattle.chunk_source.specs.Source.{Keeps, Reads};
ghost use Rattle.backup_format.specs.Pieces.{version_of};
ghost use Rattle.backup_format.specs.Spelling.{spell_version};
ghost use Rattle.backup_writing.specs.Writing.{version_in, HasCause, Writes};

use crate::digest_sink::DigestSink;
use crate::pieces::write_pieces;
use crate::stop::{WriteStop, stop_of};
use afl_outside::Sink;
use backup_format::put_before_pieces;
use cell_values::{Bytes, ChunkAt, List, Memory, copy_numbers};
use chunk_source::ChunkSource;
use logical_plan::Leaf;
use std::alloc::Global;

/// The numbers with so many places, which all are that a source lists.
fn numbers_of_length(
    alloc: Global,
    chunks: &[ChunkAt],
    count: usize,
) -> Result<List<ChunkAt>, Memory>
    ensures { IfOk result (λ numbers. numbers ≡ filter (λ at. length at.items == count) chunks.now) }
{
    let mut numbers = List::new(alloc);
    for at in chunks {
        if at.len() == count {
            numbers.push(copy_numbers(at))?;
        }
    }
    Ok(numbers)
}

/// Writes a version: its number, how many chunks it has, and its chunks.
pub(crate) fn write_version<S: ChunkSource, K: Sink>(
    alloc: Global,
    source: &mut S,
    leaf: &Leaf,
    out: &mut DigestSink<K>,
) -> Result<(), WriteStop>
    requires reads { Reads (S.state source.old) leaf.now }
    requires valid { IsValid leaf.now.schema }
    requires version { 1 ≤ leaf.now.version }
    ensures kept { Keeps (S.state source.old) (S.state source.new) }
    ensures start { S.start source.new ≡ S.start source.old }
    ensures written { Writes K.state (S.state source.old).tells
        (λ db. spell_version (version_of leaf.now.schema (version_in leaf.now.name db leaf.now.version))) result out.old out.new }
    ensures cause { IfErr result (HasCause (K.state out.old.sink) (K.state out.new.sink) (S.state source.old) (S.state source.new)) }
{
    let chunks = match source.listed(leaf) {
        Ok(chunks) => chunks,
        Err(fault) => return Err(stop_of(fault)),
    };
    let numbers = numbers_of_length(alloc, chunks.as_slice(), leaf.schema.dimensions.len())?;
    let mut head = Bytes::new(alloc);
    put_before_pieces(&mut head, leaf.version, numbers.len())?;
    match out.write(head.as_slice()) {
        Ok(()) => {}
        Err(stop) => return Err(stop),
    }
    write_pieces(alloc, source, leaf, numbers.as_slice(), out)
}
