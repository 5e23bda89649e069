//! The pages that somebody can name, and those that nobody can.
ghost use Rattle.std.specs.Prelude.{◌≡◌, ℕ, ◌<◌, ◌||◌, ◌&&◌, false, not, length, slice_index_or, IfOk};
ghost use Rattle.std.specs.List.{filter, list_any};
ghost use Rattle.version_reaper.specs.PageSets.{holds, pages_below};
ghost use Rattle.event_core.specs.Replay.{is_core_live, is_core_awaiting};
ghost use Rattle.store_versions.specs.LeanRows.{is_needed};

use crate::lean::lean::row::Row;
use crate::lean::lean::{LeanCore, LeanPin};
use cell_values::{List, Memory};
use version_reaper::{PageSet, free_of};

/// Adds the pages of the rows that stand, or that one of these pins sees, to a set.
fn add_needed(set: &mut PageSet, rows: &[Row], pins: &[LeanPin])
    ensures limit { length set.new ≡ length set.old }
    ensures pages { (p : ℕ) → p < length set.old → slice_index_or set.new p false
        ≡ (slice_index_or set.old p false || list_any (λ row. is_needed pins.now row && holds row.version.pages p) rows.now) }
{
    for row in rows {
        if row.is_needed(pins) {
            set.add_all(&row.version.pages);
        }
    }
}

impl LeanCore {
    /// Adds the pages that somebody can name to a set.
    fn mark_live(&self, set: &mut PageSet)
        ensures limit { length set.new ≡ length set.old }
        ensures pages { (p : ℕ) → p < length set.old → slice_index_or set.new p false ≡ (slice_index_or set.old p false || is_core_live self.now.core p) }
    {
        set.add(0);
        set.add_all(&self.catalogue);
        let rows = self.rows.as_slice();
        let pins = self.pins.as_slice();
        add_needed(set, rows, pins);
    }

    /// The pages from 1 below the limit that nobody can name.
    pub(crate) fn unused_pages(&self) -> Result<List<u32>, Memory>
        ensures { IfOk result (λ free. free ≡ filter (λ page. not (is_core_live self.now.core page)) (pages_below self.now.core.limit)) }
    {
        let alloc = self.free.allocator();
        let mut set = PageSet::new(alloc, self.limit)?;
        self.mark_live(&mut set);
        set.others(alloc)
    }

    /// How many pages from 1 below the limit nobody can name. A set is lent for it; this takes no memory.
    pub fn count_unused(&self, set: &mut PageSet) -> u32
        requires { length set.old ≡ self.now.core.limit }
        ensures limit { length set.new ≡ length set.old }
        ensures count { result ≡ length (filter (λ page. not (is_core_live self.now.core page)) (pages_below self.now.core.limit)) }
    {
        set.clear();
        self.mark_live(set);
        free_of(set)
    }

    /// Whether a reap would make a page free. A set is lent for it; this takes no memory.
    pub fn would_free(&self, set: &mut PageSet) -> bool
        requires { length set.old ≡ self.now.core.limit }
        ensures limit { length set.new ≡ length set.old }
        ensures some { result ≡ list_any (is_core_awaiting self.now.core) (pages_below self.now.core.limit) }
    {
        set.clear();
        self.mark_live(set);
        set.add_all(&self.free);
        set.has_others()
    }
}
