//! A commit in two halves: the first takes all memory, the second none.
ghost use Rattle.std.specs.Prelude.{◌≡◌, ◌<◌, ◌-◌, ◌^◌, length, IfOk, IsTrue};
ghost use Rattle.plan_changes.specs.Allowed.{names_allow};
ghost use Rattle.event_core.specs.declared.entry.Entry.TheVariants.{Commit};
ghost use Rattle.plan_changes.specs.Changes.{names_after};
ghost use Rattle.event_core.specs.History.{pages_after};
ghost use Rattle.event_core.specs.Pages.{fresh_of};
ghost use Rattle.event_core.specs.Ready.{IsReadyOver};
ghost use Rattle.event_core.specs.Replay.{core_after};
ghost use Rattle.event_core.specs.Inner.Next.{pages_by, HasRoom, IsMade};

use crate::commit::{fresh_pages, without_pages};
use crate::marks::Marks;
use crate::next::{NextPages, changed_pages, next_pages};
use crate::{Core, Used};
use plan_changes::{Change, Names, changed_names};
use std::marker::Model;
use std::snapshot::Snapshot;
use version_reaper::{List, Memory};

/// What a commit makes of the core, but for the free pages.
#[derive(Drop)]
struct Made {
    names: Names,
    pages: NextPages,
    catalogue: List<u32>,
    fresh: Marks,
}

/// All that a commit needs. Contracts see the core, the change and the pages that it was made for.
#[derive(Drop)]
pub struct Ready {
    core: Snapshot<Core>,
    change: Snapshot<Change>,
    used: Snapshot<Used>,
    made: Made,
}

impl Model for Ready {
    ghost use Rattle.event_core.specs.Ready.{ReadyFor};
    ghost use Rattle.event_core.specs.Inner.Next.{IsMade};

    ghost Value = { ReadyFor };

    ghost use Rattle.plan_changes.specs.QueryCode.{query_code};
    ghost use Rattle.std.specs.Coded.{codes};

    ghost coded = { Prim.hlevel (codes, query_code) };

    ghost view = { λ r. record { core = r.core.value; change = r.change.value; used = r.used.value } };

    ghost invariant = { λ r. IsMade r.core.value r.change.value r.used.value r.made.names r.made.pages r.made.catalogue r.made.fresh };
}

/// The names and the versions after a change.
fn made_names(core: &Core, change: &Change, used: &Used) -> Result<(Names, NextPages), Memory>
    requires { IsTrue (names_allow core.now.names change.now) }
    ensures names { IfOk result (λ made. made.0 ≡ names_after core.now.names change.now) }
    ensures pages { IfOk result (λ made. pages_by made.1 core.now.pages ≡ pages_after core.now.names change.now used.now.version core.now.pages) }
    ensures room { IfOk result (λ made. HasRoom made.1 (length core.now.pages)) }
{
    let names = changed_names(core.names.copy()?, change)?;
    let pages = next_pages(core, change, &used.version)?;
    Ok((names, pages))
}

/// The next catalogue and the fresh pages.
fn made_lists(core: &Core, change: &Change, used: &Used) -> Result<(List<u32>, Marks), Memory>
    ensures catalogue { IfOk result (λ made. made.0 ≡ used.now.catalogue) }
    ensures fresh { IfOk result (λ made. made.1 ≡ fresh_of core.now.names core.now.pages core.now.catalogue change.now used.now) }
{
    let fresh = Marks::new(fresh_pages(core, change, used)?, core.limit)?;
    let catalogue = used.catalogue.copy()?;
    Ok((catalogue, fresh))
}

fn make(core: &Core, change: &Change, used: &Used) -> Result<Made, Memory>
    requires { IsTrue (names_allow core.now.names change.now) }
    ensures { IfOk result (λ made. IsMade core.now change.now used.now made.names made.pages made.catalogue made.fresh) }
{
    let (catalogue, fresh) = made_lists(core, change, used)?;
    match made_names(core, change, used) {
        Ok((names, pages)) => Ok(Made {
            names,
            pages,
            catalogue,
            fresh,
        }),
        Err(want) => {
            drop(catalogue);
            drop(fresh);
            Err(want)
        }
    }
}

impl Core {
    /// Takes all memory that a commit of a change needs.
    pub fn ready(&self, change: &Change, used: &Used) -> Result<Ready, Memory>
        requires { IsTrue (names_allow self.now.names change.now) }
        ensures { IfOk result (λ ready. ready ≡ record { core = self.now; change = change.now; used = used.now }) }
    {
        let made = make(self, change, used)?;
        Ok(Ready {
            core: Snapshot::of(self),
            change: Snapshot::of(change),
            used: Snapshot::of(used),
            made,
        })
    }

    /// The commit that was made ready. This takes no memory.
    pub fn put(&mut self, session: u32, ready: Ready)
        requires room { self.old.entries < 2 ^ 64 - 1 }
        requires ready { IsReadyOver ready self.old }
        ensures { self.new ≡ core_after self.old (Commit session ready.change ready.used) }
    {
        let _ = session;
        let Ready {
            core: _,
            change: _,
            used: _,
            made,
        } = ready;
        let Made {
            names,
            pages,
            catalogue,
            fresh,
        } = made;
        let versions = self.pages.take();
        let free = self.free.take();
        self.names = names;
        self.pages = changed_pages(pages, versions);
        self.catalogue = catalogue;
        self.free = without_pages(free, &fresh);
        self.entries += 1;
    }
}
