//! Writing whole backups.
ghost use Rattle.std.specs.Prelude.{◌≡◌, IfErr};
ghost use Rattle.std.specs.List.{AllByRecursion};
ghost use Rattle.chunk_source.specs.Source.{Keeps};
ghost use Rattle.backup_format.specs.Spelling.{signed};
ghost use Rattle.backup_writing.specs.Writing.{backup_text, Goes, HasCause, ReadsEach};

use crate::arrays::write_arrays;
use crate::digest_sink::DigestSink;
use crate::stop::WriteStop;
use afl_outside::Sink;
use chunk_source::ChunkSource;
use logical_plan::Names;
use sha2::{Digest, Sha256};
use std::alloc::Global;

/// Writes the backup of what these names name and a source has of it, chunk by chunk.
pub fn write_backup<S: ChunkSource, K: Sink>(
    alloc: Global,
    names: &Names,
    source: &mut S,
    sink: K,
) -> (Result<(), WriteStop>, K)
    requires reads { AllByRecursion (ReadsEach (S.state source.old)) names.now.arrays }
    ensures kept { Keeps (S.state source.old) (S.state source.new) }
    ensures start { S.start source.new ≡ S.start source.old }
    // All of it went out, or a front.
    ensures written { Goes (S.state source.old).tells (λ db. signed (backup_text names.now.arrays db)) result.0 (K.state sink) (K.state result.1) }
    ensures cause { IfErr result.0 (HasCause (K.state sink) (K.state result.1) (S.state source.old) (S.state source.new)) }
{
    let mut out = DigestSink {
        sink,
        digest: Sha256::new(),
    };
    match write_arrays(alloc, source, names.arrays.as_slice(), &mut out) {
        Ok(()) => out.sign(),
        Err(stop) => {
            let DigestSink { sink, digest: _ } = out;
            (Err(stop), sink)
        }
    }
}
