//! All rows at once.
ghost use Rattle.std.specs.Prelude.{◌≡◌, ◌<◌, ◌≤◌, ◌-◌, ◌^◌, ◌&&◌, ℕ, List as Items, [], ◌∷◌, ◌++◌, map, nat_eq, vec_capacity, vec_len, IfOk};
ghost use Rattle.std.specs.List.{filter};
ghost use Rattle.event_core.specs.History.{is_pages_of};
ghost use Rattle.event_core.specs.declared.state.VersionPages.{VersionPages};
ghost use Rattle.store_versions.specs.LeanRows.{is_needed, is_below, ended, first_row, new_row, standing};

use crate::lean::lean::LeanPin;
use crate::lean::lean::row::Row;
use cell_values::{List, Memory, Name};
use event_core::VersionPages;

/// The rows of versions that were there at the beginning.
pub fn first_rows(versions: List<VersionPages>) -> Result<Vec<Row>, Memory>
    ensures { IfOk result (λ rows. rows.items ≡ map first_row versions) }
{
    let mut rows = Vec::new(versions.allocator());
    for version in versions.into_vec() {
        rows.push(Row {
            version,
            made: 0,
            gone: None,
        })?;
    }
    Ok(rows)
}

/// The pages of a version that stands.
pub fn standing_pages(
    rows: &[Row],
    name: &Name,
    number: u32,
    mut pages: List<VersionPages>,
) -> Result<List<VersionPages>, Memory>
    requires { pages ≡ [] }
    ensures { IfOk result (λ pages. pages ≡ filter (λ v. is_pages_of name.now v && nat_eq v.version number) (standing rows.now)) }
{
    for row in rows {
        if row.stands_as(name, number) {
            pages.push(row.version.copy()?)?;
        }
    }
    Ok(pages)
}

/// The last of some versions was made by the commit at a place.
pub fn add_last(rows: &mut Vec<Row>, versions: List<VersionPages>, place: u64)
    requires room { vec_len rows.old < vec_capacity rows.old }
    requires place { place < 2 ^ 64 - 1 }
    requires last { (before : Items VersionPages) × (version : VersionPages) × (versions ≡ before ++ version ∷ []) }
    ensures rows { (before : Items VersionPages) (version : VersionPages) → versions ≡ before ++ version ∷ []
        → rows.new.items ≡ rows.old.items ++ new_row place version ∷ [] }
    ensures room { vec_capacity rows.new ≡ vec_capacity rows.old }
{
    let mut versions = versions;
    match versions.pop() {
        Some(version) => rows.push_reserved(Row {
            version,
            made: place + 1,
            gone: None,
        }),
        None => unreachable!(),
    }
}

/// The versions of an array go by the commit at a place.
pub fn end_array(rows: &mut [Row], name: &Name, place: u64)
    requires { place < 2 ^ 64 - 1 }
    ensures { rows.new ≡ map (ended (is_pages_of name.now) place) rows.old }
{
    for row in rows.iter_mut() {
        row.end_of(name, place);
    }
}

/// The versions of an array below a number go by the commit at a place.
pub fn end_below(rows: &mut [Row], name: &Name, below: u32, place: u64)
    requires { place < 2 ^ 64 - 1 }
    ensures { rows.new ≡ map (ended (is_below name.now below) place) rows.old }
{
    for row in rows.iter_mut() {
        row.end_below(name, below, place);
    }
}

/// The rows go that neither stand nor are seen by one of these pins.
pub fn forget(rows: &mut Vec<Row>, pins: &[LeanPin])
    ensures rows { rows.new.items ≡ filter (is_needed pins.now) rows.old.items }
    ensures room { vec_capacity rows.new ≡ vec_capacity rows.old }
    ensures fewer { vec_len rows.new ≤ vec_len rows.old }
{
    rows.retain(|row| row.is_needed(pins));
}
