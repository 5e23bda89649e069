//! A disk.
ghost use Rattle.std.specs.Prelude.{◌≡◌, ◌≤◌, ℕ, List, length, IfSome, IfOk, OnOk};
ghost use Rattle.std.specs.Io.{ReadsAtMost};
ghost use Rattle.afl_outside.specs.Disk.{DiskGoesOn, FailsWithCause, Follows, IsSettled, LeavesNoMore, Moment, ReadsAt, TimePasses, Torn, Writes};

use crate::Failed;

/// A disk, which a crash may stop at any moment. Where it tells its bytes, it tells what a read gives, and the images that
/// a crash may leave. Between two syncs each written range, and what lies past the old end, may hold any bytes after a
/// crash; bytes outside stay. A call fails only where the count of faults or that of wants rises.
pub trait Disk {
    ghost moment: { Self → Moment };

    /// How many bytes it has.
    fn len(&mut self) -> Result<u64, Failed>
        ensures length { IfSome (moment self.old).state.seen (λ seen. IfOk result (λ n. n ≡ length seen)) }
        ensures seen { (moment self.new).state.seen ≡ (moment self.old).state.seen }
        ensures same { DiskGoesOn (moment self.old).state (moment self.new).state }
        ensures crash { LeavesNoMore (moment self.old) (moment self.new) }
        ensures time { TimePasses (moment self.old) (moment self.new) }
        ensures cause { FailsWithCause result (moment self.old) (moment self.new) };

    /// Reads as many bytes as stand there, at most the piece's length.
    fn read_at(&mut self, at: u64, into: &mut [u8]) -> Result<usize, Failed>
        ensures within { ReadsAtMost result into.new }
        ensures bytes { IfSome (moment self.old).state.seen (λ seen. IfOk result (λ n. ReadsAt seen at n into.new)) }
        ensures seen { (moment self.new).state.seen ≡ (moment self.old).state.seen }
        ensures same { DiskGoesOn (moment self.old).state (moment self.new).state }
        ensures crash { LeavesNoMore (moment self.old) (moment self.new) }
        ensures time { TimePasses (moment self.old) (moment self.new) }
        ensures cause { FailsWithCause result (moment self.old) (moment self.new) };

    /// Writes over what is there, and past the end, with zeros in a gap. A call that fails may have written, or have left
    /// any bytes in the range. Until a sync that is done a crash may leave any bytes there.
    fn write_at(&mut self, at: u64, bytes: &[u8]) -> Result<(), Failed>
        ensures written { Writes at bytes.now (moment self.old).state (moment self.new).state result }
        ensures same { DiskGoesOn (moment self.old).state (moment self.new).state }
        ensures crash { Follows (Torn at (length bytes.now)) (moment self.old).may_leave (moment self.new).may_leave }
        ensures time { TimePasses (moment self.old) (moment self.new) }
        ensures cause { FailsWithCause result (moment self.old) (moment self.new) };

    /// After a sync that is done a crash leaves what a read gives, on a disk that is honest.
    fn sync(&mut self) -> Result<(), Failed>
        ensures durable { OnOk result (IsSettled (moment self.old) (moment self.new)) }
        ensures seen { (moment self.new).state.seen ≡ (moment self.old).state.seen }
        ensures same { DiskGoesOn (moment self.old).state (moment self.new).state }
        ensures crash { LeavesNoMore (moment self.old) (moment self.new) }
        ensures time { TimePasses (moment self.old) (moment self.new) }
        ensures cause { FailsWithCause result (moment self.old) (moment self.new) };

    /// How often it has found no memory of its own. The count never falls.
    fn wants(&self) -> u64
        ensures { result ≡ (moment self.now).state.wants };

    /// How often it has failed, but for want of memory. The count never falls.
    fn faults(&self) -> u64
        ensures { result ≡ (moment self.now).state.faults };

    /// This moment is one of those since an earlier one.
    ghost counts_now: { (disk : Self) (t : ℕ) (c : List ℕ) → t ≤ (moment disk).state.moment → (moment disk).may_leave c → (moment disk).left_since t c };

    /// Since this moment there is no other.
    ghost only_now: { (disk : Self) (c : List ℕ) → (moment disk).left_since (moment disk).state.moment c → (moment disk).may_leave c };

    /// A disk as it reads is one of its images.
    ghost as_read: { (disk : Self) → IfSome (moment disk).state.seen (moment disk).may_leave };
}
