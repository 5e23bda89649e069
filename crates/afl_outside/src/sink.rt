//! A sink of bytes.
ghost use Rattle.std.specs.Prelude.{◌≡◌, ◌≤◌, ◌<◌, ℕ, [], take, length, MatchResult, IfOk, OnErr, ◌⊎◌};
ghost use Rattle.std.specs.Io.{WritesAtMost};
ghost use Rattle.afl_outside.specs.Counts.{Rose};
ghost use Rattle.afl_outside.specs.Sink.{SinkState, Takes};

use crate::Failed;

/// A sink of bytes. It has a name, and bytes with which it began and which it holds, where it tells them.
pub trait Sink {
    ghost state: { Self → SinkState };

    /// Adds a prefix of the piece, and answers its length, which is above 0 unless the piece is empty. It fails only
    /// where the count of faults or that of wants rises.
    fn write(&mut self, bytes: &[u8]) -> Result<usize, Failed>
        ensures within { WritesAtMost result bytes.now }
        ensures moves { IfOk result (λ n. 0 < length bytes.now → 0 < n) }
        ensures bytes { MatchResult result (λ n. Takes (state self.old) (state self.new) (take n bytes.now)) (λ _. Takes (state self.old) (state self.new) []) }
        ensures cause { OnErr result (Rose (state self.old).faults (state self.new).faults ⊎ Rose (state self.old).wants (state self.new).wants) };

    /// How often it has failed, but for want of memory. The count never falls.
    fn faults(&self) -> u64
        ensures { result ≡ (state self.now).faults };

    /// How often it has found no memory of its own. The count never falls.
    fn wants(&self) -> u64
        ensures { result ≡ (state self.now).wants };
}
