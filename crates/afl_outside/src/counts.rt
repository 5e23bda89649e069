//! How counts of faults and of wants of memory are read.
ghost use Rattle.std.specs.Prelude.{◌≤◌, ◌↔◌, IsTrue};
ghost use Rattle.afl_outside.specs.Counts.{Rose};

/// Whether a count rose between two readings. One that stands at its last value counts as risen.
pub fn has_risen(before: u64, now: u64) -> bool
    requires { before ≤ now }
    ensures { IsTrue result ↔ Rose before now }
{
    before < now || before == u64::MAX
}
