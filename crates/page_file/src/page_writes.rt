//! Writes within a page.

ghost use Rattle.std.specs.Prelude.{◌≤◌, ◌+◌, ◌*◌, ◌∷◌, [], ℕ, List, length};
ghost use Rattle.page_chain.specs.Places.{KeepsPages};
ghost use Rattle.page_chain.specs.Inner.Runs.{OnlyWrites, Sees};
ghost use Rattle.page_chain.specs.Puts.{OnlyPuts};

use page_chain::Disk;

/// A write within a page that each image has, also one that was torn, is a write of that page.
pub fn puts_are_writes<D: Disk>()
    ensures { (page at n : ℕ) (old new : D) → 4096 * page ≤ at → at + n ≤ 4096 * (page + 1)
        → ((d : List ℕ) → (D.moment old).may_leave d → 4096 * (page + 1) ≤ length d) → OnlyPuts at n (D.moment old) (D.moment new)
        → OnlyWrites (page ∷ []) (D.moment old) (D.moment new) × Sees (D.moment old).state (D.moment new).state (KeepsPages (page ∷ [])) }
{}
