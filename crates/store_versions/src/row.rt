//! The rows of a table of versions.
ghost use Rattle.std.specs.Prelude.{◌≡◌, ◌<◌, ◌+◌, ◌-◌, ◌^◌, ◌&&◌, ◌||◌, nat_eq, nat_lt};
ghost use Rattle.std.specs.List.{list_any};
ghost use Rattle.store_versions.specs.Rows.{is_before, is_seen, stands, is_row_of, is_row_below, ended};

use crate::lean::LeanPin;
use cell_values::Name;
use chunk_map::Directory;
use plan_changes::is_same;

/// A version of an array. It is seen at the places from `made` on that are below `gone`.
#[derive(Drop)]
pub struct VersionRow {
    pub name: Name,
    pub version: u32,
    /// 0 where the version was there at the opening, else one more than its commit's place.
    pub made: u64,
    /// One more than the place of the commit that removed the version, or none where it stands.
    pub gone: Option<u64>,
    pub directory: Directory,
}

/// Whether a place is before a version goes.
fn is_before(place: u64, gone: Option<u64>) -> bool
    ensures { result ≡ is_before place gone }
{
    match gone {
        None => true,
        Some(gone) => place < gone,
    }
}

/// Whether a version stands.
fn stands(gone: Option<u64>) -> bool
    ensures { result ≡ stands gone }
{
    match gone {
        None => true,
        Some(_) => false,
    }
}

/// Whether one of these pins sees a version.
fn is_seen_by(pins: &[LeanPin], row: &VersionRow) -> bool
    ensures { result ≡ list_any (λ pin. is_seen pin.place row.now) pins.now }
{
    pins.iter().any(|pin| row.is_seen(pin.place))
}

impl VersionRow {
    /// Whether a place sees the version.
    pub fn is_seen(&self, place: u64) -> bool
        ensures { result ≡ is_seen place self.now }
    {
        self.made <= place && is_before(place, self.gone)
    }

    /// Whether the version stands, or one of these pins sees it.
    pub fn is_needed(&self, pins: &[LeanPin]) -> bool
        ensures { result ≡ (stands self.now.gone || list_any (λ pin. is_seen pin.place self.now) pins.now) }
    {
        stands(self.gone) || is_seen_by(pins, self)
    }

    /// Whether it is this version.
    pub fn is_numbered(&self, name: &Name, number: u32) -> bool
        ensures { result ≡ (is_row_of name.now self.now && nat_eq self.now.version number) }
    {
        is_same(&self.name, name) && self.version == number
    }

    /// The version goes by the commit at a place, if it stands and is one of this array.
    pub fn end_of(&mut self, name: &Name, place: u64)
        requires { place < 2 ^ 64 - 1 }
        ensures { self.new ≡ ended (is_row_of name.now) place self.old }
    {
        if is_same(&self.name, name) && stands(self.gone) {
            self.gone = Some(place + 1);
        }
    }

    /// The same for the versions of an array below a number.
    pub fn end_below(&mut self, name: &Name, below: u32, place: u64)
        requires { place < 2 ^ 64 - 1 }
        ensures { self.new ≡ ended (is_row_below name.now below) place self.old }
    {
        if is_same(&self.name, name) && self.version < below && stands(self.gone) {
            self.gone = Some(place + 1);
        }
    }
}
