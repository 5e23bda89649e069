//! Pages of a list that are looked up at once.
ghost use Rattle.std.specs.Prelude.{◌≡◌, ◌<◌, ℕ, false, length, slice_index_or, IfOk};
ghost use Rattle.version_reaper.specs.PageSets.{holds};

use std::marker::Model;
use version_reaper::{List, Memory, PageSet, is_in};

/// A list of pages, and which of them are below a limit. Contracts see the list.
#[derive(Drop)]
pub struct Marks {
    pages: List<u32>,
    set: PageSet,
}

impl Model for Marks {
    ghost use Rattle.std.specs.Prelude.{◌≡◌, ◌<◌, ℕ, List, false, length, slice_index_or};
    ghost use Rattle.version_reaper.specs.PageSets.{holds};

    ghost Value = { List ℕ };

    ghost view = { λ marks. marks.pages };

    ghost invariant = { λ marks. (p : ℕ) → p < length marks.set → slice_index_or marks.set p false ≡ holds marks.pages p };
}

/// Which pages below a limit are those of a list.
fn set_of(pages: &List<u32>, limit: u32) -> Result<PageSet, Memory>
    ensures { IfOk result (λ set. (p : ℕ) → p < length set → slice_index_or set p false ≡ holds pages.now p) }
{
    let mut set = PageSet::new(pages.allocator(), limit)?;
    set.add_all(pages);
    Ok(set)
}

impl Marks {
    /// The pages of a list.
    pub fn new(pages: List<u32>, limit: u32) -> Result<Marks, Memory>
        ensures { IfOk result (λ marks. marks ≡ pages) }
    {
        match set_of(&pages, limit) {
            Ok(set) => Ok(Marks { pages, set }),
            Err(want) => {
                drop(pages);
                Err(want)
            }
        }
    }

    /// Whether a page is one of them.
    pub fn has(&self, page: u32) -> bool
        ensures { result ≡ holds self.now page }
    {
        if page < self.set.limit() {
            self.set.has(page)
        } else {
            is_in(&self.pages, page)
        }
    }
}
