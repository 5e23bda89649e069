//! The base, and the two commits of the worked entries.
ghost use Rattle.std.specs.Prelude.{◌≡◌, [], ◌∷◌, IfOk, codes};
ghost use Rattle.plan_changes.specs.declared.change.Change.TheVariants.{Remove};
ghost use Rattle.event_core.specs.declared.entry.Entry.TheVariants.{Commit};
ghost use Rattle.event_core.specs.Worked.{worked_base, worked_store};

use crate::changing::schema;
use cell_values::{Datum, List, Memory};
use event_core::{Core, Entry, Used};
use expr_nulls::TypedExpr;
use logical_plan::{Names, Plan};
use plan_changes::Change;
use std::alloc::Global;
use test_kit::name_of;

/// No arrays, 16 pages, page 1 as the catalogue.
pub(crate) fn start(alloc: Global) -> Result<Core, Memory>
    ensures { IfOk result (λ base. base ≡ worked_base) }
{
    let catalogue = List::from_slice(alloc, &[1])?;
    let free = List::from_slice(alloc, &[2, 3, 4, 5, 6, 7, 8, 9, 10, 11, 12, 13, 14, 15])?;
    Ok(Core {
        names: Names {
            arrays: List::new(alloc),
        },
        pages: List::new(alloc),
        catalogue,
        pins: List::new(alloc),
        free,
        limit: 16,
        entries: 0,
    })
}

fn used(alloc: Global, version: &[u32], catalogue: &[u32]) -> Result<Used, Memory>
    ensures { IfOk result (λ used. used ≡ record { version = version.now; catalogue = catalogue.now }) }
{
    Ok(Used {
        version: List::from_slice(alloc, version)?,
        catalogue: List::from_slice(alloc, catalogue)?,
    })
}

/// The number 7 at each place of a schema, stored as A.
fn store_of_sevens(alloc: Global) -> Result<Change, Memory>
    ensures { IfOk result (λ change. change ≡ worked_store) }
{
    let name = name_of(alloc, b"A")?;
    let places = schema(alloc, 1)?;
    let schema = places.copy()?;
    let plan = Plan::build(places, TypedExpr::lit(Datum::Int(7)));
    Ok(Change::Store { name, schema, plan })
}

/// Session 0 stores A on pages 2 and 3.
pub(crate) fn stored(alloc: Global) -> Result<Entry, Memory>
    ensures { IfOk result (λ entry. entry ≡ Commit 0 worked_store (record { version = 2 ∷ 3 ∷ []; catalogue = 4 ∷ [] })) }
{
    let used = used(alloc, &[2, 3], &[4])?;
    Ok(Entry::Commit {
        session: 0,
        change: store_of_sevens(alloc)?,
        used,
    })
}

/// Session 0 removes A.
pub(crate) fn removed(alloc: Global) -> Result<Entry, Memory>
    ensures { IfOk result (λ entry. entry ≡ Commit 0 (Remove (codes "A")) (record { version = []; catalogue = 5 ∷ [] })) }
{
    let name = name_of(alloc, b"A")?;
    let used = used(alloc, &[], &[5])?;
    Ok(Entry::Commit {
        session: 0,
        change: Change::Remove { name },
        used,
    })
}
