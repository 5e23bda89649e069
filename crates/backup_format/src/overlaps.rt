//! Whether the overlaps of pieces hold their neighbours' cells.
ghost use Rattle.std.specs.Prelude.{◌≡◌, ℕ, true, false, take, drop, length, map, MatchResult, IfOk, IsTrue};
ghost use Rattle.std.specs.List.{AllByRecursion};
ghost use Rattle.cell_values.specs.Schemas.{IsValid};
ghost use Rattle.array_geom.specs.Geometry.{has_core, overlaps};
ghost use Rattle.array_geom.specs.Link.{NumbersRise, core_rows, numbers};
ghost use Rattle.chunk_rle.specs.Stored.{IsStored};
ghost use Rattle.backup_format.specs.Table.{chunk_of_piece, fit_together, is_its_payload, wrong_piece};
ghost use Rattle.backup_format.specs.PiecePlaces.{piece_in, pieces_in, slice_at, AreLeft, IsUnfit};

use crate::cores::payload_of_cores;
use crate::pieces::PieceAt;
use array_geom::Chunk;
use cell_values::{Memory, Schema};
use file_items::Stop;
use std::alloc::Global;

/// The payload of a piece.
fn payload_in<'a>(whole: &'a [u8], piece: &PieceAt) -> &'a [u8]
    ensures { result.now ≡ slice_at whole.now piece.now.left piece.now.size }
{
    let (_, tail) = whole.split_at(whole.len().saturating_sub(piece.left));
    if piece.size < tail.len() {
        tail.split_at(piece.size).0
    } else {
        tail
    }
}

/// Whether the payload of a piece is that of its chunk among all.
fn is_its_payload(
    alloc: Global,
    schema: &Schema,
    whole: &[u8],
    piece: &PieceAt,
    chunks: &[Chunk],
) -> Result<bool, Memory>
    requires valid { IsValid schema.now }
    requires core { IsTrue (has_core schema.now.dimensions piece.now.at.items) }
    requires stored { AllByRecursion (IsStored schema.now) chunks.now }
    requires rise { NumbersRise (numbers chunks.now) }
    ensures { IfOk result (λ is. is ≡ is_its_payload schema.now (core_rows schema.now.dimensions (overlaps schema.now.dimensions) chunks.now) (piece_in whole.now piece.now)) }
{
    let own = payload_of_cores(alloc, schema, chunks, &piece.at)?;
    Ok(payload_in(whole, piece) == own.as_slice())
}

/// Goes over the pieces, whose chunks these are, up to the first one whose overlap is wrong.
pub(crate) fn fit_together(
    alloc: Global,
    schema: &Schema,
    whole: &[u8],
    pieces: &[PieceAt],
    chunks: &[Chunk],
) -> Result<(), Stop>
    requires valid { IsValid schema.now }
    requires cores { AllByRecursion (λ piece. IsTrue (has_core schema.now.dimensions piece.at.items)) pieces.now }
    requires stored { AllByRecursion (IsStored schema.now) chunks.now }
    requires rise { NumbersRise (numbers chunks.now) }
    requires chunks { chunks.now ≡ map (chunk_of_piece schema.now) (pieces_in whole.now pieces.now) }
    ensures { (behind : ℕ) → AreLeft whole.now pieces.now behind
        → MatchResult result (λ _. fit_together schema.now (pieces_in whole.now pieces.now) ≡ true) (IsUnfit schema.now (pieces_in whole.now pieces.now) behind) }
{
    for piece in pieces {
        if !is_its_payload(alloc, schema, whole, piece, chunks)? {
            return Err(Stop::Left(piece.left));
        }
    }
    Ok(())
}
