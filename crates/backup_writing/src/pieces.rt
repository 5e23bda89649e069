//! Writing the pieces of a version.
ghost use Rattle.std.specs.Prelude.{◌≡◌, IfErr, IfOk, IsTrue};
ghost use Rattle.std.specs.List.{AllByRecursion, flat_map};
ghost use Rattle.logical_plan.specs.Meaning.{Database, version_rows};
ghost use Rattle.chunk_source.specs.Source.{is_among, listed, Keeps, Reads};
ghost use Rattle.backup_format.specs.Pieces.{piece_of, stored_payload};
ghost use Rattle.backup_format.specs.Spelling.{spell_piece};
ghost use Rattle.backup_writing.specs.Writing.{HasCause, IsSourceFault, Writes};

use crate::digest_sink::DigestSink;
use crate::stop::{WriteStop, stop_of};
use afl_outside::Sink;
use backup_format::put_before_payload;
use cell_values::{Bytes, ChunkAt};
use chunk_rle::encode;
use chunk_source::ChunkSource;
use logical_plan::Leaf;
use std::alloc::Global;

/// The payload of a chunk of a leaf.
fn payload_of<S: ChunkSource>(
    alloc: Global,
    source: &mut S,
    leaf: &Leaf,
    at: &ChunkAt,
) -> Result<Bytes, WriteStop>
    requires reads { Reads (S.state source.old) leaf.now }
    requires listed { IsTrue (is_among at.now (listed (S.state source.old) leaf.now)) }
    ensures kept { Keeps (S.state source.old) (S.state source.new) }
    ensures start { S.start source.new ≡ S.start source.old }
    ensures told { IfOk result (λ bytes. (db : Database) → (S.state source.old).tells db
        → bytes ≡ stored_payload leaf.now.schema (version_rows db leaf.now.name leaf.now.version) at.now.items) }
    ensures cause { IfErr result (IsSourceFault (S.state source.old) (S.state source.new)) }
{
    match source.chunk(0, leaf, at) {
        Ok(chunk) => {
            let payload = encode(alloc, &leaf.schema, &chunk)?;
            Ok(payload)
        }
        Err(fault) => Err(stop_of(fault)),
    }
}

/// Writes a chunk of a leaf.
fn write_piece<S: ChunkSource, K: Sink>(
    alloc: Global,
    source: &mut S,
    leaf: &Leaf,
    at: &ChunkAt,
    out: &mut DigestSink<K>,
) -> Result<(), WriteStop>
    requires reads { Reads (S.state source.old) leaf.now }
    requires listed { IsTrue (is_among at.now (listed (S.state source.old) leaf.now)) }
    ensures kept { Keeps (S.state source.old) (S.state source.new) }
    ensures start { S.start source.new ≡ S.start source.old }
    ensures written { Writes K.state (S.state source.old).tells
        (λ db. spell_piece (piece_of leaf.now.schema (version_rows db leaf.now.name leaf.now.version) at.now.items)) result out.old out.new }
    ensures cause { IfErr result (HasCause (K.state out.old.sink) (K.state out.new.sink) (S.state source.old) (S.state source.new)) }
{
    let payload = match payload_of(alloc, source, leaf, at) {
        Ok(payload) => payload,
        Err(stop) => return Err(stop),
    };
    let mut head = Bytes::new(alloc);
    put_before_payload(&mut head, at.as_slice(), payload.len())?;
    match out.write(head.as_slice()) {
        Ok(()) => {}
        Err(stop) => return Err(stop),
    }
    out.write(payload.as_slice())
}

/// Writes these chunks of a leaf, one by one.
pub(crate) fn write_pieces<S: ChunkSource, K: Sink>(
    alloc: Global,
    source: &mut S,
    leaf: &Leaf,
    numbers: &[ChunkAt],
    out: &mut DigestSink<K>,
) -> Result<(), WriteStop>
    requires reads { Reads (S.state source.old) leaf.now }
    requires listed { AllByRecursion (λ at. IsTrue (is_among at (listed (S.state source.old) leaf.now))) numbers.now }
    ensures kept { Keeps (S.state source.old) (S.state source.new) }
    ensures start { S.start source.new ≡ S.start source.old }
    ensures written { Writes K.state (S.state source.old).tells
        (λ db. flat_map (λ at. spell_piece (piece_of leaf.now.schema (version_rows db leaf.now.name leaf.now.version) at.items)) numbers.now) result out.old out.new }
    ensures cause { IfErr result (HasCause (K.state out.old.sink) (K.state out.new.sink) (S.state source.old) (S.state source.new)) }
{
    for at in numbers {
        match write_piece(alloc, source, leaf, at, out) {
            Ok(()) => {}
            Err(stop) => return Err(stop),
        }
    }
    Ok(())
}
