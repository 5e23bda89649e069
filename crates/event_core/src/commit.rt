//! The pages of a commit, and lists without some.
ghost use Rattle.std.specs.Prelude.{◌≡◌, ◌++◌, ◌&&◌, not, nat_lt, IfOk, OnOk};
ghost use Rattle.std.specs.List.{filter};
ghost use Rattle.version_reaper.specs.PageSets.{holds};
ghost use Rattle.event_core.specs.History.{is_pages_of};
ghost use Rattle.event_core.specs.Pages.{fresh_of};
ghost use Rattle.event_core.specs.Inner.Known.{pages_if, known_of};

use crate::marks::Marks;
use crate::{Core, Used, VersionPages};
use plan_changes::{Change, changed_name, is_same, newest_of};
use version_reaper::{List, Memory, Name};

/// Adds the pages of a version, if it is this one.
fn push_if(
    pages: &mut List<u32>,
    version: &VersionPages,
    name: &Name,
    number: u32,
) -> Result<(), Memory>
    ensures { OnOk result (pages.new ≡ pages.old ++ pages_if name.now number version.now) }
{
    if is_same(&version.name, name) && version.version == number {
        pages.extend(version.pages.as_slice())?;
    }
    Ok(())
}

/// The pages of the array's newest version, and those of the catalogue.
fn known_pages(core: &Core, name: &Name) -> Result<List<u32>, Memory>
    ensures { IfOk result (λ pages. pages ≡ known_of core.now.names core.now.pages core.now.catalogue name.now) }
{
    let newest = newest_of(&core.names.arrays, name);
    let mut pages = core.catalogue.copy()?;
    for version in core.pages.as_slice() {
        push_if(&mut pages, version, name, newest)?;
    }
    Ok(pages)
}

/// Adds those of some pages that are not known.
fn push_fresh(fresh: &mut List<u32>, known: &Marks, pages: &List<u32>) -> Result<(), Memory>
    ensures { OnOk result (fresh.new ≡ fresh.old ++ filter (λ page. not (holds known.now page)) pages.now) }
{
    for page in pages.as_slice() {
        if !known.has(*page) {
            fresh.push(*page)?;
        }
    }
    Ok(())
}

/// The pages of a commit that are not known.
fn unknown_pages(known: &Marks, used: &Used) -> Result<List<u32>, Memory>
    ensures { IfOk result (λ fresh. fresh ≡ filter (λ page. not (holds known.now page)) (used.now.version ++ used.now.catalogue)) }
{
    let mut fresh = used.version.another();
    push_fresh(&mut fresh, known, &used.version)?;
    push_fresh(&mut fresh, known, &used.catalogue)?;
    Ok(fresh)
}

/// The pages of a commit that are neither of the array's newest version nor of the catalogue before.
pub fn fresh_pages(core: &Core, change: &Change, used: &Used) -> Result<List<u32>, Memory>
    ensures { IfOk result (λ fresh. fresh ≡ fresh_of core.now.names core.now.pages core.now.catalogue change.now used.now) }
{
    let pages = known_pages(core, changed_name(change))?;
    let known = Marks::new(pages, core.limit)?;
    unknown_pages(&known, used)
}

/// The pages without some.
pub fn without_pages(pages: List<u32>, taken: &Marks) -> List<u32>
    ensures { result ≡ filter (λ page. not (holds taken.now page)) pages }
{
    let mut items = pages.into_vec();
    items.retain(|page| !taken.has(*page));
    List::from_vec(items)
}

/// The versions without those of an array.
pub fn without_array(versions: List<VersionPages>, name: &Name) -> List<VersionPages>
    ensures { result ≡ filter (λ v. not (is_pages_of name.now v)) versions }
{
    let mut items = versions.into_vec();
    items.retain(|version| !is_same(&version.name, name));
    List::from_vec(items)
}

/// The versions without those of an array below a number.
pub fn without_below(versions: List<VersionPages>, name: &Name, below: u32) -> List<VersionPages>
    ensures { result ≡ filter (λ v. not (is_pages_of name.now v && nat_lt v.version below)) versions }
{
    let mut items = versions.into_vec();
    items.retain(|version| !(is_same(&version.name, name) && version.version < below));
    List::from_vec(items)
}
