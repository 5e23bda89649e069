//! What a commit does to the versions, with the memory that it needs.
ghost use Rattle.std.specs.Prelude.{◌≡◌, ◌≤◌, ◌<◌, [], ◌∷◌, ◌++◌, length, IfOk};
ghost use Rattle.plan_changes.specs.Changes.{next_of};
ghost use Rattle.event_core.specs.History.{pages_after};
ghost use Rattle.event_core.specs.Inner.Next.{pages_by, HasRoom};

use crate::commit::{without_array, without_below};
use crate::{Core, VersionPages};
use plan_changes::{Change, Names, next_of};
use std::alloc::Global;
use std::marker::Model;
use version_reaper::{List, Memory, Name};

/// Room for versions. Contracts see for how many.
#[derive(Drop)]
pub struct Room {
    items: Vec<VersionPages>,
}

impl Model for Room {
    ghost use Rattle.std.specs.Prelude.{◌≡◌, ℕ, [], vec_capacity};

    ghost Value = { ℕ };

    ghost view = { λ room. vec_capacity room.items };

    ghost invariant = { λ room. room.items.items ≡ [] };
}

impl Room {
    fn new(alloc: Global, count: usize) -> Result<Room, Memory>
        ensures { IfOk result (λ room. count ≤ room) }
    {
        Ok(Room {
            items: Vec::with_capacity(alloc, count)?,
        })
    }

    /// The versions and one more.
    fn fill(self, versions: List<VersionPages>, next: VersionPages) -> List<VersionPages>
        requires { length versions < self }
        ensures { result ≡ versions ++ next ∷ [] }
    {
        let Room { mut items } = self;
        let mut before = versions.into_vec();
        match items.append(&mut before) {
            Ok(()) => {
                items.push_reserved(next);
                List::from_vec(items)
            }
            Err(_) => unreachable!(),
        }
    }
}

/// What a commit does to the versions.
#[derive(Drop)]
pub enum NextPages {
    Stay,
    Add { room: Room, next: VersionPages },
    WithoutArray { name: Name },
    WithoutBelow { name: Name, below: u32 },
}

/// The pages of an array's next version.
fn next_version(names: &Names, name: &Name, used: &List<u32>) -> Result<VersionPages, Memory>
    ensures { IfOk result (λ next. next ≡ record { name = name.now; version = next_of names.now.arrays name.now; pages = used.now }) }
{
    Ok(VersionPages {
        name: name.copy()?,
        version: next_of(&names.arrays, name),
        pages: used.copy()?,
    })
}

/// One more version of an array, under its next number.
fn one_more(core: &Core, name: &Name, used: &List<u32>) -> Result<NextPages, Memory>
    ensures pages { IfOk result (λ next. pages_by next core.now.pages
        ≡ core.now.pages ++ record { name = name.now; version = next_of core.now.names.arrays name.now; pages = used.now } ∷ []) }
    ensures room { IfOk result (λ next. HasRoom next (length core.now.pages)) }
{
    let next = next_version(&core.names, name, used)?;
    let room = Room::new(core.pages.allocator(), core.pages.as_slice().len() + 1)?;
    Ok(NextPages::Add { room, next })
}

/// What a change that uses these pages does to the versions of a core.
pub fn next_pages(core: &Core, change: &Change, used: &List<u32>) -> Result<NextPages, Memory>
    ensures pages { IfOk result (λ next. pages_by next core.now.pages ≡ pages_after core.now.names change.now used.now core.now.pages) }
    ensures room { IfOk result (λ next. HasRoom next (length core.now.pages)) }
{
    match change {
        Change::Create { .. } => Ok(NextPages::Stay),
        Change::Store { name, .. } => one_more(core, name, used),
        Change::Insert { name, .. } => one_more(core, name, used),
        Change::Remove { name } => Ok(NextPages::WithoutArray { name: name.copy()? }),
        Change::RemoveVersions { name, below } => Ok(NextPages::WithoutBelow {
            name: name.copy()?,
            below: *below,
        }),
    }
}

/// The versions after it. This takes no memory.
pub fn changed_pages(next: NextPages, versions: List<VersionPages>) -> List<VersionPages>
    requires { HasRoom next (length versions) }
    ensures { result ≡ pages_by next versions }
{
    match next {
        NextPages::Stay => versions,
        NextPages::Add { room, next } => room.fill(versions, next),
        NextPages::WithoutArray { name } => without_array(versions, &name),
        NextPages::WithoutBelow { name, below } => without_below(versions, &name, below),
    }
}
