//! A set of pages.
ghost use Rattle.std.specs.Prelude.{◌≡◌, IfOk, OnOk};
ghost use Rattle.std.specs.FinSet as set;

use cell_values::Memory;
use std::alloc::Global;
use std::collections::BTreeSet;
use std::marker::Model;

/// A set of pages.
#[derive(Drop)]
pub(crate) struct PageSet {
    pages: BTreeSet<u32>,
}

impl Model for PageSet {
    ghost use Rattle.std.specs.FinSet as set;
    ghost use Rattle.std.specs.Ordering.{nat_cmp};
    ghost use Rattle.std.specs.Coded.{coded_ℕ};

    ghost Value = { set.FinSet nat_cmp };

    ghost coded = { set.code coded_ℕ };

    ghost view = { λ s. set.from_list s.pages.keys };
}

impl PageSet {
    /// The set of these pages.
    pub(crate) fn of(alloc: Global, pages: &[u32]) -> Result<PageSet, Memory>
        ensures { IfOk result (λ s. s ≡ set.from_list pages.now) }
    {
        let mut s = PageSet {
            pages: BTreeSet::new(alloc),
        };
        for page in pages {
            s.insert(*page)?;
        }
        Ok(s)
    }

    /// Adds a page.
    pub(crate) fn insert(&mut self, page: u32) -> Result<(), Memory>
        ensures { OnOk result (self.new ≡ set.insert self.old page) }
    {
        self.pages.insert(page)?;
        Ok(())
    }

    pub(crate) fn has(&self, page: u32) -> bool
        ensures { result ≡ set.contains self.now page }
    {
        self.pages.contains(&page)
    }
}
