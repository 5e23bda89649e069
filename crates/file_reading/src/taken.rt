//! Which pages are taken.
ghost use Rattle.std.specs.Prelude.{◌≡◌, ◌<◌, ◌/◌, ◌^◌, ◌&&◌, ◌||◌, ℕ, List, length, min, nat_eq, nat_lt, not, false, replicate, slice_index_or, IfOk};
ghost use Rattle.file_meaning.specs.Opening.{claimed};
ghost use Rattle.file_reading.specs.Inner.Taken.{IsTaken, IsClaimed};

use cell_values::{List, Memory};
use std::alloc::Global;
use std::marker::Model;

/// The pages of a file that are taken. Contracts see it as a list of as many truths as the file has pages that a list can name: whether
/// page 0 is taken, page 1, and so on.
#[derive(Drop)]
pub(crate) struct TakenPages {
    flags: List<bool>,
}

impl Model for TakenPages {
    ghost use Rattle.std.specs.Prelude.{List, Bool};

    ghost Value = { List Bool };

    ghost view = { λ set. set.flags };
}

impl TakenPages {
    /// None of the pages of a file that has so many. A list names a page by a number of four bytes.
    pub(crate) fn new(alloc: Global, pages: u64) -> Result<TakenPages, Memory>
        ensures { IfOk result (λ set. set ≡ replicate (min pages (2 ^ 32)) false) }
    {
        let mut flags = Vec::new(alloc);
        flags.resize(pages.min(4_294_967_296) as usize, false)?;
        Ok(TakenPages {
            flags: List::from_vec(flags),
        })
    }

    /// Whether this is a page of the file, other than page 0.
    pub(crate) fn is_page(&self, page: u32) -> bool
        ensures { result ≡ (nat_lt 0 page && nat_lt page (length self.now)) }
    {
        0 < page && (page as usize) < self.flags.len()
    }

    fn has(&self, page: u32) -> bool
        ensures { result ≡ slice_index_or self.now page false }
    {
        match self.flags.as_slice().get(page as usize) {
            Some(flag) => *flag,
            None => false,
        }
    }

    /// Whether this is a page of the file, other than page 0, that isn't taken.
    fn is_free(&self, page: u32) -> bool
        ensures { result ≡ (nat_lt 0 page && nat_lt page (length self.now) && not (slice_index_or self.now page false)) }
    {
        self.is_page(page) && !self.has(page)
    }

    /// Takes a page, if the file has it.
    pub(crate) fn take(&mut self, page: u32)
        ensures limit { length self.new ≡ length self.old }
        ensures pages { (p : ℕ) → p < length self.old → slice_index_or self.new p false ≡ (slice_index_or self.old p false || nat_eq page p) }
    {
        let at = page as usize;
        if at < self.flags.len() {
            self.flags.set(at, true);
        }
    }
}

/// The pages of a file that has so many of which these are taken.
pub(crate) fn taken_pages(alloc: Global, count: u64, pages: &[u32]) -> Result<TakenPages, Memory>
    ensures { (file : List ℕ) → length file / 4096 ≡ count → IfOk result (λ set. IsTaken file set pages.now) }
{
    let mut set = TakenPages::new(alloc, count)?;
    for page in pages {
        set.take(*page);
    }
    Ok(set)
}

/// Takes these pages, if each is a page of the file that isn't taken. Else it is left open which of them are.
pub(crate) fn claim(set: &mut TakenPages, pages: &[u32]) -> bool
    ensures { (file taken : List ℕ) (named : ℕ) → IsTaken file set.old taken → IsClaimed file result set.new (claimed file named taken pages.now) named }
{
    for page in pages {
        if !set.is_free(*page) {
            return false;
        }
        set.take(*page);
    }
    true
}
