//! Writing arrays.
ghost use Rattle.std.specs.Prelude.{◌≡◌, IfErr, IfOk};
ghost use Rattle.std.specs.List.{AllByRecursion, flat_map};
ghost use Rattle.chunk_source.specs.Source.{Keeps, Reads};
ghost use Rattle.backup_format.specs.Pieces.{version_of};
ghost use Rattle.backup_format.specs.Spelling.{spell_array, spell_version};
ghost use Rattle.backup_writing.specs.Writing.{array_pieces, backup_text, leaf_of, version_in, HasCause, ReadsEach, Writes};

use crate::digest_sink::DigestSink;
use crate::stop::WriteStop;
use crate::versions::write_version;
use afl_outside::Sink;
use backup_format::{put_before_arrays, put_before_versions};
use cell_values::{Bytes, Memory};
use chunk_source::ChunkSource;
use logical_plan::{Leaf, NameEntry};
use std::alloc::Global;

/// A version of an array.
fn leaf_of(entry: &NameEntry, version: u32) -> Result<Leaf, Memory>
    ensures { IfOk result (λ leaf. leaf ≡ leaf_of entry.now.name entry.now.schema version) }
{
    Ok(Leaf {
        name: entry.name.copy()?,
        version,
        schema: entry.schema.copy()?,
    })
}

/// Writes the versions of an array.
fn write_versions<S: ChunkSource, K: Sink>(
    alloc: Global,
    source: &mut S,
    entry: &NameEntry,
    out: &mut DigestSink<K>,
) -> Result<(), WriteStop>
    requires reads { ReadsEach (S.state source.old) entry.now }
    ensures kept { Keeps (S.state source.old) (S.state source.new) }
    ensures start { S.start source.new ≡ S.start source.old }
    ensures written { Writes K.state (S.state source.old).tells
        (λ db. flat_map (λ n. spell_version (version_of entry.now.schema (version_in entry.now.name db n))) entry.now.versions) result out.old out.new }
    ensures cause { IfErr result (HasCause (K.state out.old.sink) (K.state out.new.sink) (S.state source.old) (S.state source.new)) }
{
    for version in entry.versions.as_slice() {
        let leaf = leaf_of(entry, *version)?;
        match write_version(alloc, source, &leaf, out) {
            Ok(()) => {}
            Err(stop) => return Err(stop),
        }
    }
    Ok(())
}

/// Writes an array.
fn write_array<S: ChunkSource, K: Sink>(
    alloc: Global,
    source: &mut S,
    entry: &NameEntry,
    out: &mut DigestSink<K>,
) -> Result<(), WriteStop>
    requires reads { ReadsEach (S.state source.old) entry.now }
    ensures kept { Keeps (S.state source.old) (S.state source.new) }
    ensures start { S.start source.new ≡ S.start source.old }
    ensures written { Writes K.state (S.state source.old).tells (λ db. spell_array (array_pieces db entry.now)) result out.old out.new }
    ensures cause { IfErr result (HasCause (K.state out.old.sink) (K.state out.new.sink) (S.state source.old) (S.state source.new)) }
{
    let mut head = Bytes::new(alloc);
    put_before_versions(
        &mut head,
        &entry.name,
        &entry.schema,
        entry.next,
        entry.versions.len(),
    )?;
    match out.write(head.as_slice()) {
        Ok(()) => {}
        Err(stop) => return Err(stop),
    }
    write_versions(alloc, source, entry, out)
}

/// Writes arrays, one by one.
fn write_each<S: ChunkSource, K: Sink>(
    alloc: Global,
    source: &mut S,
    entries: &[NameEntry],
    out: &mut DigestSink<K>,
) -> Result<(), WriteStop>
    requires reads { AllByRecursion (ReadsEach (S.state source.old)) entries.now }
    ensures kept { Keeps (S.state source.old) (S.state source.new) }
    ensures start { S.start source.new ≡ S.start source.old }
    ensures written { Writes K.state (S.state source.old).tells (λ db. flat_map (λ entry. spell_array (array_pieces db entry)) entries.now) result out.old out.new }
    ensures cause { IfErr result (HasCause (K.state out.old.sink) (K.state out.new.sink) (S.state source.old) (S.state source.new)) }
{
    for entry in entries {
        match write_array(alloc, source, entry, out) {
            Ok(()) => {}
            Err(stop) => return Err(stop),
        }
    }
    Ok(())
}

/// Writes all of a backup but the digest.
pub(crate) fn write_arrays<S: ChunkSource, K: Sink>(
    alloc: Global,
    source: &mut S,
    entries: &[NameEntry],
    out: &mut DigestSink<K>,
) -> Result<(), WriteStop>
    requires reads { AllByRecursion (ReadsEach (S.state source.old)) entries.now }
    ensures kept { Keeps (S.state source.old) (S.state source.new) }
    ensures start { S.start source.new ≡ S.start source.old }
    ensures written { Writes K.state (S.state source.old).tells (backup_text entries.now) result out.old out.new }
    ensures cause { IfErr result (HasCause (K.state out.old.sink) (K.state out.new.sink) (S.state source.old) (S.state source.new)) }
{
    let mut head = Bytes::new(alloc);
    put_before_arrays(&mut head, entries.len())?;
    match out.write(head.as_slice()) {
        Ok(()) => {}
        Err(stop) => return Err(stop),
    }
    write_each(alloc, source, entries, out)
}
