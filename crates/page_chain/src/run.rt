//! What writes leave, one after the other.

ghost use Rattle.std.specs.Prelude.{ℕ, List, ◌++◌};
ghost use Rattle.page_chain.specs.Inner.Runs.{OnlyWrites};

use afl_outside::Disk;

/// Writes of some pages, and then of others, are writes of both.
pub fn writes_follow<D: Disk>()
    ensures { (first second : List ℕ) (old between new : D) → OnlyWrites first (D.moment old) (D.moment between)
        → OnlyWrites second (D.moment between) (D.moment new)
        → OnlyWrites (first ++ second) (D.moment old) (D.moment new) }
{}
