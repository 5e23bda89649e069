//! Reading the pieces of a version.
ghost use Rattle.std.specs.Prelude.{◌≡◌, ℕ, List as Items, map, length, IfOk, IsTrue, None, Ok};
ghost use Rattle.std.specs.Option.{option_copied, option_map};
ghost use Rattle.std.specs.List.{AllByRecursion};
ghost use Rattle.cell_values.specs.Schemas.{IsValid};
ghost use Rattle.array_geom.specs.Geometry.{has_core};
ghost use Rattle.array_geom.specs.Link.{NumbersRise, numbers as numbers_of};
ghost use Rattle.chunk_rle.specs.Stored.{IsStored};
ghost use Rattle.file_items.specs.Items.{IsRead, repeat};
ghost use Rattle.backup_format.specs.Table.{chunk_in, chunk_of_piece, piece_after, next_piece, number_in, pieces_at};
ghost use Rattle.backup_format.specs.PiecePlaces.{pieces_in, AreLeft, EndsWith};

use crate::numbers::numbers;
use crate::overlaps::fit_together;
use crate::payloads::payload;
use array_geom::Chunk;
use cell_values::{ChunkAt, List, Schema, copy_numbers};
use file_items::{Stop, u64_at};
use std::alloc::Global;

/// Where the payload of a chunk lies in a backup.
pub struct PieceAt {
    pub at: ChunkAt,
    /// How many bytes of the backup are left where the payload begins.
    pub left: usize,
    /// How many bytes it has.
    pub size: usize,
}

impl Drop for PieceAt {
    fn drop(self) {
        let PieceAt {
            at: _,
            left: _,
            size: _,
        } = self;
    }
}

/// A piece behind one with this number.
#[tactic(auto, unfolding(crate::specs::Table::piece_after))]
fn piece<'a>(
    alloc: Global,
    schema: &Schema,
    before: Option<&[u64]>,
    bytes: &'a [u8],
) -> Result<(ChunkAt, Chunk, &'a [u8], &'a [u8]), Stop>
    requires { IsValid schema.now }
    ensures read { IsRead (λ x. (record { at = x.0.items; payload = x.2.now }, x.3.now)) result (piece_after schema.now (option_copied before.entry) bytes.now) }
    ensures chunk { IfOk result (λ x. chunk_in schema.now x.0.items x.2.now ≡ Ok x.1) }
{
    match numbers(schema.dimensions.as_slice(), before, bytes) {
        Ok((at, rest)) => match payload(alloc, schema, &at, rest) {
            Ok((chunk, own, rest)) => Ok((at, chunk, own, rest)),
            Err(stop) => Err(stop),
        },
        Err(stop) => Err(stop),
    }
}

fn numbers_in(last: &Option<ChunkAt>) -> Option<&[u64]>
    ensures { option_copied result ≡ option_map (λ at. at.items) last.now }
{
    match last {
        None => None,
        Some(at) => Some(at.as_slice()),
    }
}

/// So many pieces, and their chunks.
fn pieces_from<'a>(
    alloc: Global,
    schema: &Schema,
    whole: &[u8],
    count: u64,
    bytes: &'a [u8],
) -> Result<(List<PieceAt>, List<Chunk>, &'a [u8]), Stop>
    requires valid { IsValid schema.now }
    requires end { EndsWith whole.now bytes.now }
    ensures read { IsRead (λ x. (pieces_in whole.now x.0, x.2.now)) result (repeat (next_piece schema.now) number_in count None bytes.now) }
    ensures chunks { IfOk result (λ x. x.1 ≡ map (chunk_of_piece schema.now) (pieces_in whole.now x.0)) }
    ensures left { IfOk result (λ x. AreLeft whole.now x.0 (length x.2.now)) }
    ensures stored { IfOk result (λ x. AllByRecursion (IsStored schema.now) x.1) }
    ensures rising { IfOk result (λ x. NumbersRise (numbers_of x.1)) }
    ensures cores { IfOk result (λ x. AllByRecursion (λ piece. IsTrue (has_core schema.now.dimensions piece.at.items)) x.0) }
{
    let mut pieces = List::new(alloc);
    let mut chunks = List::new(alloc);
    let mut last: Option<ChunkAt> = None;
    let mut rest = bytes;
    for _index in 0..count {
        match piece(alloc, schema, numbers_in(&last), rest) {
            Ok((at, chunk, own, after)) => {
                last = Some(copy_numbers(&at));
                pieces.push(PieceAt {
                    at,
                    left: own.len() + after.len(),
                    size: own.len(),
                })?;
                chunks.push(chunk)?;
                rest = after;
            }
            Err(stop) => return Err(stop),
        }
    }
    Ok((pieces, chunks, rest))
}

/// The pieces of a version, with their count before them. Their overlaps hold their neighbours'
/// cells.
#[tactic(auto, unfolding(crate::specs::Table::pieces_at))]
pub(crate) fn pieces<'a>(
    alloc: Global,
    schema: &Schema,
    whole: &[u8],
    bytes: &'a [u8],
) -> Result<(List<PieceAt>, &'a [u8]), Stop>
    requires valid { IsValid schema.now }
    requires end { EndsWith whole.now bytes.now }
    ensures { IsRead (λ x. (pieces_in whole.now x.0, x.1.now)) result (pieces_at schema.now bytes.now) }
{
    let (count, rest) = match u64_at(bytes) {
        Ok(read) => read,
        Err(stop) => return Err(stop),
    };
    match pieces_from(alloc, schema, whole, count, rest) {
        Ok((pieces, chunks, rest)) => {
            match fit_together(alloc, schema, whole, pieces.as_slice(), chunks.as_slice()) {
                Ok(()) => Ok((pieces, rest)),
                Err(stop) => Err(stop),
            }
        }
        Err(stop) => Err(stop),
    }
}
