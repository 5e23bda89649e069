//! A source of bytes.
ghost use Rattle.std.specs.Prelude.{◌≡◌, ◌≤◌, ◌<◌, ◌^◌, ℕ, [], take, length, MatchResult, OnErr, OnOk, Ok};
ghost use Rattle.std.specs.Io.{ReadsAtMost};
ghost use Rattle.std.specs.Io.KnownBytes.{IsAtEnd};
ghost use Rattle.afl_outside.specs.Counts.{Rose};
ghost use Rattle.afl_outside.specs.Source.{SourceState, Gives};

use std::error::Error;
use std::fmt;

/// A call failed. The object that was called has raised its count of faults, or where it has one its count of wants.
#[derive(Clone, Copy, Debug)]
pub struct Failed;

impl fmt::Display for Failed {
    fn fmt<W: fmt::Write>(&self, f: &mut fmt::Formatter<W>) -> fmt::Result {
        write!(f, "a call failed")
    }
}

impl Error for Failed {}

/// A source of bytes. It has a name, and bytes with which it began and which are left, where it tells them. It gives at
/// most 2^63 - 1 bytes, so each loop over a source ends.
pub trait Source {
    ghost state: { Self → SourceState };

    /// Takes a prefix of what is left into a piece, and answers its length. No byte into a piece that isn't empty means
    /// the end. It fails only where the count of faults rises; a read that would give more than 2^63 - 1 bytes in all
    /// does.
    fn read(&mut self, into: &mut [u8]) -> Result<usize, Failed>
        ensures within { ReadsAtMost result into.new }
        ensures bytes { MatchResult result (λ n. Gives (state self.old) (state self.new) (take n into.new)) (λ _. Gives (state self.old) (state self.new) []) }
        ensures end { result ≡ Ok 0 → 0 < length into.new → IsAtEnd (state self.new).left }
        ensures bound { OnOk result ((state self.new).given < 2 ^ 63) }
        ensures cause { OnErr result (Rose (state self.old).faults (state self.new).faults) };

    /// How often it has failed. The count never falls, and stands still at its type's end.
    fn faults(&self) -> u64
        ensures { result ≡ (state self.now).faults };
}
