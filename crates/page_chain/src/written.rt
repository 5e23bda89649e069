//! What chains and blobs are, apart from the calls that read and write them: their links, and what writes do to them.

ghost use Rattle.std.specs.Prelude.{◌≡◌, ◌↔◌, ℕ, ◌<◌, List, length, slice_index, None, Ok};
ghost use Rattle.page_chain.specs.Places.{IsNone, KeepsPages};
ghost use Rattle.page_chain.specs.Pages.{page_size, pages_for, blob, first_past, HoldsBlob};
ghost use Rattle.page_chain.specs.Chains.{content_size, chain, chain_bytes, HoldsChain};
ghost use Rattle.page_chain.specs.Links.{AreLinked, AreFree};

/// Following the links of a chain gives just the pages that are linked.
pub fn chain_is_its_links()
    ensures { (file taken pages : List ℕ) (holder link count : ℕ)
        → (chain page_size file taken holder link count ≡ Ok pages) ↔ AreLinked file taken link count pages }
{}

/// What is written as a chain is read again, from whatever page its first link stands in.
pub fn written_chain_is_read()
    ensures { (file taken pages bytes : List ℕ) (holder : ℕ) → HoldsChain page_size file pages bytes → AreFree taken pages
        → 0 < length bytes → length pages ≡ pages_for (content_size page_size) (length bytes)
        → (chain page_size file taken holder (slice_index pages 0) (length bytes) ≡ Ok pages) × (chain_bytes page_size file pages (length bytes) ≡ bytes) }
{}

/// What is written as a blob is read again.
pub fn written_blob_is_read()
    ensures { (file pages bytes : List ℕ) → HoldsBlob page_size file pages bytes → length pages ≡ pages_for page_size (length bytes)
        → (first_past page_size file pages ≡ None) × (blob page_size file pages (length bytes) ≡ bytes) }
{}

/// Writes to other pages leave a chain as it was.
pub fn chain_stays()
    ensures { (written old new taken pages : List ℕ) (holder link count : ℕ) → KeepsPages written old new
        → ((k : ℕ) → k < length pages → IsNone written (slice_index pages k))
        → chain page_size old taken holder link count ≡ Ok pages
        → (chain page_size new taken holder link count ≡ Ok pages) × (chain_bytes page_size new pages count ≡ chain_bytes page_size old pages count) }
{}

/// Writes to other pages leave a blob as it was.
pub fn blob_stays()
    ensures { (written old new pages : List ℕ) (count : ℕ) → KeepsPages written old new → ((k : ℕ) → k < length pages → IsNone written (slice_index pages k))
        → first_past page_size old pages ≡ None
        → (first_past page_size new pages ≡ None) × (blob page_size new pages count ≡ blob page_size old pages count) }
{}
