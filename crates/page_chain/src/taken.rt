//! Chains where other pages are taken.

ghost use Rattle.std.specs.Prelude.{◌≡◌, ◌<◌, ℕ, List, Ok};
ghost use Rattle.page_chain.specs.Places.{IsNone};
ghost use Rattle.page_chain.specs.Pages.{page_size};
ghost use Rattle.page_chain.specs.Chains.{chain};

/// A chain is the same where fewer pages are taken, or the same ones in another order.
pub fn fewer_taken_pages()
    ensures { (file taken fewer pages : List ℕ) (holder link count : ℕ) → ((p : ℕ) → 0 < p → IsNone taken p → IsNone fewer p)
        → chain page_size file taken holder link count ≡ Ok pages
        → chain page_size file fewer holder link count ≡ Ok pages }
{}
