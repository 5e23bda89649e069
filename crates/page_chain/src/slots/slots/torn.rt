//! What writes within a page leave.

ghost use Rattle.std.specs.Prelude.{◌≤◌, ◌+◌, ◌*◌, ℕ, List, [], ◌∷◌, length};
ghost use Rattle.afl_outside.specs.Disk.{Torn};
ghost use Rattle.page_chain.specs.Places.{KeepsPages};

/// A write within a page that the file has, also one that a crash cuts short, leaves the other pages.
pub fn puts_keep_pages()
    ensures { (page at n : ℕ) (old new : List ℕ) → 4096 * page ≤ at → at + n ≤ 4096 * (page + 1)
        → 4096 * (page + 1) ≤ length old → Torn at n old new → KeepsPages (page ∷ []) old new }
{}
