//! Tables of versions.
ghost use Rattle.std.specs.Prelude.{◌≡◌, ℕ, List as Items, ◌<◌, ◌-◌, ◌^◌, ◌&&◌, [], ◌∷◌, ◌++◌, length, map, nat_eq, IfOk};
ghost use Rattle.std.specs.List.{filter, find};
ghost use Rattle.std.specs.Option.{option_copied};
ghost use Rattle.store_versions.specs.Rows.{is_seen, is_needed, needed_rows, is_row_of, is_row_below, ended};
ghost use Rattle.store_versions.specs.Rows.{new_row, rows_after, HasNext, IsReadyFor, directory_in, first_rows};
ghost use Rattle.store_versions.specs.Seen.{seen};
ghost use Rattle.store_versions.specs.Versions.{directory_of};

use crate::first::first_rows;
use crate::lean::LeanPin;
use crate::{ReadyVersion, Room, VersionRow};
use cell_values::{List, Memory, Name};
use chunk_map::Directory;
use plan_changes::{Change, Names};

/// The versions that the present or an open pin may see, in the order in which they came.
#[derive(Drop)]
pub struct VersionTable {
    pub rows: List<VersionRow>,
}

/// The row that a place sees of a version.
fn row_at<'a>(
    rows: &'a List<VersionRow>,
    name: &Name,
    version: u32,
    place: u64,
) -> Option<&'a VersionRow>
    ensures { option_copied result ≡ find (λ row. (is_row_of name.now row && nat_eq row.version version) && is_seen place row) rows.now }
{
    rows.as_slice()
        .iter()
        .find(|row| row.is_numbered(name, version) && row.is_seen(place))
}

fn end_array(rows: &mut [VersionRow], name: &Name, place: u64)
    requires { place < 2 ^ 64 - 1 }
    ensures { rows.new ≡ map (ended (is_row_of name.now) place) rows.old }
{
    for row in rows.iter_mut() {
        row.end_of(name, place);
    }
}

fn end_below(rows: &mut [VersionRow], name: &Name, below: u32, place: u64)
    requires { place < 2 ^ 64 - 1 }
    ensures { rows.new ≡ map (ended (is_row_below name.now below) place) rows.old }
{
    for row in rows.iter_mut() {
        row.end_below(name, below, place);
    }
}

/// The rows that are still needed.
fn needed_rows(rows: List<VersionRow>, pins: &[LeanPin]) -> List<VersionRow>
    ensures { result ≡ needed_rows (map (λ pin. pin.place) pins.now) rows }
{
    let mut items = rows.into_vec();
    items.retain(|row| row.is_needed(pins));
    List::from_vec(items)
}

impl VersionTable {
    /// The versions of a database, each with its directory.
    pub fn new(names: &Names, directories: List<List<Directory>>) -> Result<VersionTable, Memory>
        ensures { IfOk result (λ table. table.rows ≡ first_rows names.now.arrays directories) }
    {
        Ok(VersionTable {
            rows: first_rows(names, directories)?,
        })
    }

    /// The directory of a version at a place, or none where the version can't be named there.
    pub fn directory_at(&self, name: &Name, version: u32, place: u64) -> Option<&Directory>
        ensures { option_copied result ≡ directory_of name.now version (seen place self.now.rows) }
    {
        match row_at(&self.rows, name, version, place) {
            Some(row) => Some(&row.directory),
            None => None,
        }
    }

    /// A version that is to be made, with all memory that the table needs for it.
    pub fn ready(
        &self,
        name: &Name,
        version: u32,
        directory: Directory,
    ) -> Result<ReadyVersion, Memory>
        ensures name { IfOk result (λ ready. ready.name ≡ name.now) }
        ensures version { IfOk result (λ ready. ready.version ≡ version) }
        ensures directory { IfOk result (λ ready. ready.directory ≡ directory) }
        ensures room { IfOk result (λ ready. length self.now.rows < ready.room) }
    {
        let room = Room::new(self.rows.allocator(), self.rows.as_slice().len() + 1)?;
        let name = name.copy()?;
        Ok(ReadyVersion {
            room,
            name,
            version,
            directory,
        })
    }

    /// A version was made by the commit at a place. This takes no memory.
    pub fn made(&mut self, ready: ReadyVersion, place: u64)
        requires room { length self.old.rows < ready.room }
        requires place { place < 2 ^ 64 - 1 }
        ensures { self.new.rows ≡ self.old.rows ++ new_row ready.name ready.version place ready.directory ∷ [] }
    {
        let ReadyVersion {
            room,
            name,
            version,
            directory,
        } = ready;
        let next = VersionRow {
            name,
            version,
            made: place + 1,
            gone: None,
            directory,
        };
        let rows = self.rows.take();
        self.rows = room.fill(rows, next);
    }

    /// An array was removed by the commit at a place. This takes no memory.
    pub fn removed(&mut self, name: &Name, place: u64)
        requires { place < 2 ^ 64 - 1 }
        ensures { self.new.rows ≡ map (ended (is_row_of name.now) place) self.old.rows }
    {
        let mut items = self.rows.take().into_vec();
        end_array(items.as_mut_slice(), name, place);
        self.rows = List::from_vec(items);
    }

    /// The versions of an array below a number were removed by the commit at a place. This takes no memory.
    pub fn removed_below(&mut self, name: &Name, below: u32, place: u64)
        requires { place < 2 ^ 64 - 1 }
        ensures { self.new.rows ≡ map (ended (is_row_below name.now below) place) self.old.rows }
    {
        let mut items = self.rows.take().into_vec();
        end_below(items.as_mut_slice(), name, below, place);
        self.rows = List::from_vec(items);
    }

    /// A version that is ready was made by the commit at a place.
    fn made_next(&mut self, ready: Option<ReadyVersion>, place: u64)
        requires place { place < 2 ^ 64 - 1 }
        requires ready { (name : Items ℕ) × (number : ℕ) × HasNext name number (length self.old.rows) ready }
        ensures { (name : Items ℕ) (number : ℕ) → HasNext name number (length self.old.rows) ready
            → self.new.rows ≡ self.old.rows ++ new_row name number place (directory_in ready) ∷ [] }
    {
        match ready {
            Some(ready) => self.made(ready, place),
            None => unreachable!(),
        }
    }

    /// The commit of a change at a place, over these names. This takes no memory.
    pub fn committed(
        &mut self,
        names: &Names,
        change: &Change,
        ready: Option<ReadyVersion>,
        place: u64,
    )
        requires ready { IsReadyFor names.now change.now (length self.old.rows) ready }
        requires place { place < 2 ^ 64 - 1 }
        ensures { self.new.rows ≡ rows_after names.now place change.now (directory_in ready) self.old.rows }
    {
        let _names = names;
        match change {
            Change::Create { .. } => drop(ready),
            Change::Store { .. } => self.made_next(ready, place),
            Change::Insert { .. } => self.made_next(ready, place),
            Change::Remove { name } => {
                drop(ready);
                self.removed(name, place);
            }
            Change::RemoveVersions { name, below } => {
                drop(ready);
                self.removed_below(name, *below, place);
            }
        }
    }

    /// The versions go that neither stand nor are seen by one of these pins. This takes no memory.
    pub fn forget(&mut self, pins: &[LeanPin])
        ensures { self.new.rows ≡ needed_rows (map (λ pin. pin.place) pins.now) self.old.rows }
    {
        let rows = self.rows.take();
        self.rows = needed_rows(rows, pins);
    }
}
