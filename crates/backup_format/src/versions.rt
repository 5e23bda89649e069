//! Reading the versions of an array.
ghost use Rattle.std.specs.Prelude.{◌≡◌, map};
ghost use Rattle.cell_values.specs.Schemas.{IsValid};
ghost use Rattle.file_items.specs.Items.{IsRead, repeat};
ghost use Rattle.backup_format.specs.Table.{version_at, next_version, last_in, numbered_at};
ghost use Rattle.version_catalog.specs.Table.{is_version};
ghost use Rattle.backup_format.specs.PiecePlaces.{version_in, EndsWith};

use crate::pieces::{PieceAt, pieces};
use cell_values::{List, Schema};
use file_items::{Stop, u32_at};
use std::alloc::Global;

/// Where the payloads of a version lie in a backup.
pub struct VersionPiecesAt {
    pub number: u32,
    pub pieces: List<PieceAt>,
}

impl Drop for VersionPiecesAt {
    fn drop(self) {
        let VersionPiecesAt {
            number: _,
            pieces: _,
        } = self;
    }
}

/// A version above one and below the next one.
#[tactic(auto, unfolding(crate::specs::Table::version_at))]
fn version<'a>(
    alloc: Global,
    schema: &Schema,
    next: u32,
    last: u32,
    whole: &[u8],
    bytes: &'a [u8],
) -> Result<(VersionPiecesAt, &'a [u8]), Stop>
    requires valid { IsValid schema.now }
    requires end { EndsWith whole.now bytes.now }
    ensures { IsRead (λ x. (version_in whole.now x.0, x.1.now)) result (version_at schema.now next last bytes.now) }
{
    let (number, rest) = match u32_at(bytes) {
        Ok(read) => read,
        Err(stop) => return Err(stop),
    };
    if !(last < number && number < next) {
        return Err(Stop::Left(bytes.len()));
    }
    match pieces(alloc, schema, whole, rest) {
        Ok((pieces, rest)) => Ok((VersionPiecesAt { number, pieces }, rest)),
        Err(stop) => Err(stop),
    }
}

fn versions<'a>(
    alloc: Global,
    schema: &Schema,
    next: u32,
    whole: &[u8],
    count: u32,
    bytes: &'a [u8],
) -> Result<(List<VersionPiecesAt>, &'a [u8]), Stop>
    requires valid { IsValid schema.now }
    requires end { EndsWith whole.now bytes.now }
    ensures { IsRead (λ x. (map (version_in whole.now) x.0, x.1.now)) result (repeat (next_version schema.now next) last_in count 0 bytes.now) }
{
    let mut versions = List::new(alloc);
    let mut last = 0;
    let mut rest = bytes;
    for _index in 0..count {
        match version(alloc, schema, next, last, whole, rest) {
            Ok((version, after)) => {
                last = version.number;
                versions.push(version)?;
                rest = after;
            }
            Err(stop) => return Err(stop),
        }
    }
    Ok((versions, rest))
}

/// The number of the next version, and the versions.
#[tactic(auto, unfolding(crate::specs::Table::numbered_at))]
pub(crate) fn numbered<'a>(
    alloc: Global,
    schema: &Schema,
    whole: &[u8],
    bytes: &'a [u8],
) -> Result<(u32, List<VersionPiecesAt>, &'a [u8]), Stop>
    requires valid { IsValid schema.now }
    requires end { EndsWith whole.now bytes.now }
    ensures { IsRead (λ x. (record { next = x.0; versions = map (version_in whole.now) x.1 }, x.2.now)) result (numbered_at schema.now bytes.now) }
{
    let (next, rest) = match u32_at(bytes) {
        Ok(read) => read,
        Err(stop) => return Err(stop),
    };
    if !(1 <= next && next <= 65536) {
        return Err(Stop::Left(bytes.len()));
    }
    let (count, rest) = match u32_at(rest) {
        Ok(read) => read,
        Err(stop) => return Err(stop),
    };
    match versions(alloc, schema, next, whole, count, rest) {
        Ok((versions, rest)) => Ok((next, versions, rest)),
        Err(stop) => Err(stop),
    }
}
