//! Reading the arrays of a backup.
ghost use Rattle.std.specs.Prelude.{◌≡◌, None};
ghost use Rattle.std.specs.Option.{option_copied};
ghost use Rattle.file_items.specs.Items.{IsRead, repeat};
ghost use Rattle.version_catalog.specs.Table.{is_next_name};
ghost use Rattle.backup_format.specs.Table.{array_at, arrays_at, content_at, next_array, name_in};
ghost use Rattle.backup_format.specs.PiecePlaces.{array_in, arrays_in, content_in, last_name, text_at, EndsWith};
ghost use Rattle.backup_format.specs.Spelling.{text};

use crate::versions::{VersionPiecesAt, numbered};
use cell_values::{List, Name, Schema};
use file_items::{Stop, bytes_at, name, schema, u32_at};
use std::alloc::Global;

/// Where the payloads of an array lie in a backup.
pub struct ArrayAt {
    pub name: Name,
    pub schema: Schema,
    pub next: u32,
    pub versions: List<VersionPiecesAt>,
}

impl Drop for ArrayAt {
    fn drop(self) {
        let ArrayAt {
            name: _,
            schema: _,
            next: _,
            versions: _,
        } = self;
    }
}

/// The name of the last array.
fn last_name(arrays: &List<ArrayAt>) -> Option<&Name>
    ensures { option_copied result ≡ last_name arrays.now }
{
    match arrays.as_slice() {
        [] => None,
        [.., last] => Some(&last.name),
    }
}

/// Whether a name is behind another, in byte order.
fn is_next_name(before: Option<&Name>, name: &Name) -> bool
    ensures { result ≡ is_next_name (option_copied before.entry) name.now }
{
    match before {
        None => true,
        Some(last) => last.as_slice().cmp(name.as_slice()).is_lt(),
    }
}

/// The schema, the number of the next version, and the versions.
#[tactic(auto, unfolding(crate::specs::Table::content_at))]
fn content<'a>(
    alloc: Global,
    whole: &[u8],
    bytes: &'a [u8],
) -> Result<(Schema, u32, List<VersionPiecesAt>, &'a [u8]), Stop>
    requires { EndsWith whole.now bytes.now }
    ensures { IsRead (λ x. (content_in whole.now x.0 x.1 x.2, x.3.now)) result (content_at bytes.now) }
{
    match schema(alloc, bytes) {
        Ok((schema, rest)) => match numbered(alloc, &schema, whole, rest) {
            Ok((next, versions, rest)) => Ok((schema, next, versions, rest)),
            Err(stop) => Err(stop),
        },
        Err(stop) => Err(stop),
    }
}

/// An array behind one of this name.
#[tactic(auto, unfolding(crate::specs::Table::array_at))]
fn array<'a>(
    alloc: Global,
    before: Option<&Name>,
    whole: &[u8],
    bytes: &'a [u8],
) -> Result<(ArrayAt, &'a [u8]), Stop>
    requires { EndsWith whole.now bytes.now }
    ensures { IsRead (λ x. (array_in whole.now x.0, x.1.now)) result (array_at (option_copied before.entry) bytes.now) }
{
    match name(alloc, bytes) {
        Ok((name, rest)) => {
            if !is_next_name(before, &name) {
                return Err(Stop::Left(bytes.len()));
            }
            match content(alloc, whole, rest) {
                Ok((schema, next, versions, rest)) => {
                    let array = ArrayAt {
                        name,
                        schema,
                        next,
                        versions,
                    };
                    Ok((array, rest))
                }
                Err(stop) => Err(stop),
            }
        }
        Err(stop) => Err(stop),
    }
}

fn arrays_from<'a>(
    alloc: Global,
    whole: &[u8],
    count: u32,
    bytes: &'a [u8],
) -> Result<(List<ArrayAt>, &'a [u8]), Stop>
    requires { EndsWith whole.now bytes.now }
    ensures { IsRead (λ x. (arrays_in whole.now x.0, x.1.now)) result (repeat next_array name_in count None bytes.now) }
{
    let mut arrays = List::new(alloc);
    let mut rest = bytes;
    for _index in 0..count {
        match array(alloc, last_name(&arrays), whole, rest) {
            Ok((array, after)) => {
                arrays.push(array)?;
                rest = after;
            }
            Err(stop) => return Err(stop),
        }
    }
    Ok((arrays, rest))
}

/// The text with which a backup begins.
fn text(bytes: &[u8]) -> Result<&[u8], Stop>
    ensures { IsRead (λ x. (text, x.now)) result (text_at bytes.now) }
{
    match bytes_at(8, bytes) {
        Ok((front, rest)) => {
            if front == b"AFLDUMP1".as_slice() {
                Ok(rest)
            } else {
                Err(Stop::Left(bytes.len()))
            }
        }
        Err(stop) => Err(stop),
    }
}

/// The text, and the arrays with their count before them.
#[tactic(auto, unfolding(crate::specs::Table::arrays_at))]
pub(crate) fn arrays<'a>(alloc: Global, bytes: &'a [u8]) -> Result<(List<ArrayAt>, &'a [u8]), Stop>
    ensures { IsRead (λ x. (arrays_in bytes.now x.0, x.1.now)) result (arrays_at bytes.now) }
{
    let begun = match text(bytes) {
        Ok(rest) => rest,
        Err(stop) => return Err(stop),
    };
    let (count, rest) = match u32_at(begun) {
        Ok(read) => read,
        Err(stop) => return Err(stop),
    };
    if 1024 < count {
        return Err(Stop::Left(begun.len()));
    }
    arrays_from(alloc, bytes, count, rest)
}
