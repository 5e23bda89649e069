//! The pages that a reap makes free.
ghost use Rattle.std.specs.Prelude.{◌≡◌, ℕ, ◌<◌, ◌||◌, false, not, length, slice_index_or, IfOk};
ghost use Rattle.std.specs.List.{filter, list_any};
ghost use Rattle.version_reaper.specs.PageSets.{pages_below};
ghost use Rattle.event_core.specs.Pages.{has_page};
ghost use Rattle.event_core.specs.Replay.{is_core_live, is_core_awaiting};

use crate::{Core, CorePin, VersionPages};
use version_reaper::{List, Memory, PageSet, free_of};

/// Adds the pages of versions to a set.
fn add_versions(set: &mut PageSet, versions: &List<VersionPages>)
    ensures limit { length set.new ≡ length set.old }
    ensures pages { (p : ℕ) → p < length set.old → slice_index_or set.new p false ≡ (slice_index_or set.old p false || has_page versions.now p) }
{
    for version in versions.as_slice() {
        set.add_all(&version.pages);
    }
}

/// Adds the pages that pins keep to a set.
fn add_pins(set: &mut PageSet, pins: &List<CorePin>)
    ensures limit { length set.new ≡ length set.old }
    ensures pages { (p : ℕ) → p < length set.old
        → slice_index_or set.new p false ≡ (slice_index_or set.old p false || list_any (λ pin. has_page pin.pages p) pins.now) }
{
    for pin in pins.as_slice() {
        add_versions(set, &pin.pages);
    }
}

/// The pages from 1 below the limit that nobody can name.
pub fn reaped(core: &Core) -> Result<List<u32>, Memory>
    ensures { IfOk result (λ free. free ≡ filter (λ page. not (is_core_live core.now page)) (pages_below core.now.limit)) }
{
    let alloc = core.free.allocator();
    let mut set = PageSet::new(alloc, core.limit)?;
    core.mark_live(&mut set);
    set.others(alloc)
}

impl Core {
    /// Adds the pages that somebody can name to a set. This takes no memory.
    pub fn mark_live(&self, set: &mut PageSet)
        ensures limit { length set.new ≡ length set.old }
        ensures pages { (p : ℕ) → p < length set.old → slice_index_or set.new p false ≡ (slice_index_or set.old p false || is_core_live self.now p) }
    {
        set.add(0);
        set.add_all(&self.catalogue);
        add_versions(set, &self.pages);
        add_pins(set, &self.pins);
    }

    /// How many pages from 1 below the limit nobody can name. A set is lent for it; this takes no memory.
    pub fn count_unused(&self, set: &mut PageSet) -> u32
        requires { length set.old ≡ self.now.limit }
        ensures limit { length set.new ≡ length set.old }
        ensures count { result ≡ length (filter (λ page. not (is_core_live self.now page)) (pages_below self.now.limit)) }
    {
        set.clear();
        self.mark_live(set);
        free_of(set)
    }

    /// Whether a reap would make a page free. A set is lent for it; this takes no memory.
    pub fn would_free(&self, set: &mut PageSet) -> bool
        requires { length set.old ≡ self.now.limit }
        ensures limit { length set.new ≡ length set.old }
        ensures some { result ≡ list_any (is_core_awaiting self.now) (pages_below self.now.limit) }
    {
        set.clear();
        self.mark_live(set);
        set.add_all(&self.free);
        set.has_others()
    }
}
