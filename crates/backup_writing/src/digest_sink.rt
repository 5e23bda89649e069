//! What a backup goes to: a sink, and the digest of what went there.
ghost use Rattle.std.specs.Prelude.{◌≡◌, ◌≤◌, ℕ, List, [], ◌++◌, take, OnOk, OnErr, IfErr};
ghost use Rattle.sha2.specs.Hashers.{Holds256};
ghost use Rattle.sha2.specs.Sha256.{sha256};
ghost use Rattle.afl_outside.specs.Counts.{Rose};
ghost use Rattle.afl_outside.specs.Sink.{Takes};
ghost use Rattle.backup_writing.specs.Writing.{IsSinkFault};

use crate::stop::WriteStop;
use afl_outside::{Failed, Sink, has_risen};
use sha2::{Digest, Sha256};

/// Writes all of a text.
fn write_whole<K: Sink>(sink: &mut K, text: &[u8]) -> Result<(), WriteStop>
    ensures ok { OnOk result (Takes (K.state sink.old) (K.state sink.new) text.now) }
    ensures err { OnErr result ((n : ℕ) × Takes (K.state sink.old) (K.state sink.new) (take n text.now)) }
    ensures fault { IfErr result (IsSinkFault (K.state sink.old) (K.state sink.new)) }
{
    let mut done = 0;
    'pieces: while done < text.len() {
        let before = sink.faults();
        match sink.write(text.split_at(done).1) {
            Ok(count) => done += count,
            Err(Failed) => {
                if has_risen(before, sink.faults()) {
                    return Err(WriteStop::Sink);
                }
                return Err(WriteStop::Memory);
            }
        }
    }
    Ok(())
}

/// A sink, and the digest of what went there.
#[derive(Drop)]
pub(crate) struct DigestSink<K> {
    pub(crate) sink: K,
    pub(crate) digest: Sha256,
}

impl<K: Sink> DigestSink<K> {
    /// Writes all of a text, which goes into the digest.
    pub(crate) fn write(&mut self, text: &[u8]) -> Result<(), WriteStop>
        ensures ok { OnOk result (Takes (K.state self.old.sink) (K.state self.new.sink) text.now) }
        ensures digest { OnOk result ((m : List ℕ) → Holds256 self.old.digest m → Holds256 self.new.digest (m ++ text.now)) }
        ensures err { OnErr result ((n : ℕ) × Takes (K.state self.old.sink) (K.state self.new.sink) (take n text.now)) }
        ensures fault { IfErr result (IsSinkFault (K.state self.old.sink) (K.state self.new.sink)) }
    {
        self.digest.update(text);
        write_whole(&mut self.sink, text)
    }

    /// Writes the digest of all that went out.
    pub(crate) fn sign(self) -> (Result<(), WriteStop>, K)
        ensures ok { OnOk result.0 ((m : List ℕ) → Holds256 self.digest m → Takes (K.state self.sink) (K.state result.1) (sha256 m)) }
        ensures err { OnErr result.0 ((m : List ℕ) → Holds256 self.digest m → (n : ℕ) × Takes (K.state self.sink) (K.state result.1) (take n (sha256 m))) }
        ensures fault { IfErr result.0 (IsSinkFault (K.state self.sink) (K.state result.1)) }
    {
        let DigestSink { mut sink, digest } = self;
        let trailer = digest.finalize();
        let answer = write_whole(&mut sink, trailer.as_slice());
        (answer, sink)
    }
}
