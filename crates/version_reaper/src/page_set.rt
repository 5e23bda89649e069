//! Sets of pages below a limit.
ghost use Rattle.std.specs.Prelude.{◌≡◌, ◌<◌, ◌^◌, ◌||◌, ℕ, false, not, nat_eq, length, replicate, slice_index_or, IfOk};
ghost use Rattle.std.specs.List.{filter, list_any};
ghost use Rattle.version_reaper.specs.PageSets.{holds, is_held, pages_below};

use cell_values::{List, Memory};
use std::alloc::Global;
use std::marker::Model;

/// A set of pages below a limit. Contracts see it as a list of as many truths as the limit says: whether it has page 0,
/// page 1, and so on.
pub struct PageSet {
    flags: List<bool>,
}

impl Drop for PageSet {
    fn drop(self) {
        let PageSet { flags: _ } = self;
    }
}

impl Model for PageSet {
    ghost use Rattle.std.specs.Prelude.{List, Bool, length, ◌<◌, ◌^◌};

    ghost Value = { List Bool };

    ghost view = { λ set. set.flags };

    ghost invariant = { λ set. length set.flags < 2 ^ 32 };

    ghost inverse = { λ flags. record { flags = flags } };
}

impl PageSet {
    /// The set without pages.
    pub fn new(alloc: Global, limit: u32) -> Result<PageSet, Memory>
        ensures { IfOk result (λ set. set ≡ replicate limit false) }
    {
        let mut flags = Vec::new(alloc);
        flags.resize(limit as usize, false)?;
        Ok(PageSet {
            flags: List::from_vec(flags),
        })
    }

    /// An equal set.
    pub fn copy(&self) -> Result<PageSet, Memory>
        ensures { IfOk result (λ copy. copy ≡ self.now) }
    {
        Ok(PageSet {
            flags: self.flags.copy()?,
        })
    }

    /// Takes all pages out. The limit stays. This takes no memory.
    pub fn clear(&mut self)
        ensures { self.new ≡ replicate (length self.old) false }
    {
        let mut flags = self.flags.take().into_vec();
        flags.as_mut_slice().fill(false);
        self.flags = List::from_vec(flags);
    }

    /// The limit, below which all pages of the set are.
    pub fn limit(&self) -> u32
        ensures { result ≡ length self.now }
    {
        self.flags.len() as u32
    }

    /// Whether a page is in the set.
    pub fn has(&self, page: u32) -> bool
        ensures { result ≡ slice_index_or self.now page false }
    {
        match self.flags.as_slice().get(page as usize) {
            Some(flag) => *flag,
            None => false,
        }
    }

    /// Adds a page, if it is below the limit.
    pub fn add(&mut self, page: u32)
        ensures limit { length self.new ≡ length self.old }
        ensures pages { (p : ℕ) → p < length self.old → slice_index_or self.new p false ≡ (slice_index_or self.old p false || nat_eq page p) }
    {
        let at = page as usize;
        if at < self.flags.len() {
            self.flags.set(at, true);
        }
    }

    /// Adds the pages of a list that are below the limit.
    pub fn add_all(&mut self, pages: &List<u32>)
        ensures limit { length self.new ≡ length self.old }
        ensures pages { (p : ℕ) → p < length self.old → slice_index_or self.new p false ≡ (slice_index_or self.old p false || holds pages.now p) }
    {
        for page in pages.as_slice() {
            self.add(*page);
        }
    }

    /// The pages from 1 below the limit that are not in the set, rising.
    pub fn others(&self, alloc: Global) -> Result<List<u32>, Memory>
        ensures { IfOk result (λ pages. pages ≡ filter (λ page. not (slice_index_or self.now page false)) (pages_below (length self.now))) }
    {
        let mut pages = List::new(alloc);
        let limit = self.limit();
        for page in 1..limit {
            if !self.has(page) {
                pages.push(page)?;
            }
        }
        Ok(pages)
    }

    /// Whether some page from 1 below the limit is not in the set. This takes no memory.
    pub fn has_others(&self) -> bool
        ensures { result ≡ list_any (λ page. not (slice_index_or self.now page false)) (pages_below (length self.now)) }
    {
        free_of(self) > 0
    }
}

/// The pages of some lists that are below a limit.
pub fn live(alloc: Global, lists: &[List<u32>], limit: u32) -> Result<PageSet, Memory>
    ensures limit { IfOk result (λ set. length set ≡ limit) }
    ensures pages { IfOk result (λ set. (p : ℕ) → p < limit → slice_index_or set p false ≡ is_held lists.now p) }
{
    let mut set = PageSet::new(alloc, limit)?;
    for pages in lists {
        set.add_all(pages);
    }
    Ok(set)
}

/// How many pages from 1 below the limit are not live.
pub fn free_of(live: &PageSet) -> u32
    ensures { result ≡ length (filter (λ page. not (slice_index_or live.now page false)) (pages_below (length live.now))) }
{
    let limit = live.limit();
    let mut count = 0;
    for page in 1..limit {
        if !live.has(page) {
            count += 1;
        }
    }
    count
}

/// Whether a page is in a list.
pub fn is_in(pages: &List<u32>, page: u32) -> bool
    ensures { result ≡ holds pages.now page }
{
    pages.as_slice().iter().any(|other| *other == page)
}
