//! Versions: the chunks of rows, and those that are written where rows are put over stored ones.
ghost use Rattle.std.specs.Prelude.{◌≡◌, ◌++◌, [], List as Items, true, filter, IfOk};
ghost use Rattle.cell_values.specs.declared.datum.Row.{Row as Placed};
ghost use Rattle.array_rows.specs.Boxes.{within};
ghost use Rattle.array_rows.specs.Rows.{put_all};
ghost use Rattle.array_geom.specs.Geometry.{HasFrame};
ghost use Rattle.array_geom.specs.Link.{is_not_empty};
ghost use Rattle.array_parts.specs.Cores.{cores_of};
ghost use Rattle.array_parts.specs.Placed.{HavePlaces};
ghost use Rattle.commit_pages.specs.Lengths.{meets};
ghost use Rattle.changed_chunks.specs.Inner.Input.{AreStoredChunks, CanBeStored, MayBeStored, stored_rows};
ghost use Rattle.changed_chunks.specs.Inner.Writes.{IsInsertOf, IsStoreOf};

use crate::chunks::alone::{have_no_overlap, put_over_cores};
use area_cells::rows_in_area;
use array_geom::{Changed, Chunk, ChunkedArray, frame, margins_of};
use cell_values::{Bounds, ChunkAt, List, Memory, Row, Schema, copy_numbers};
use chunk_cells::{assemble, into_core_rows};

/// The array of rows that may be stored.
pub(crate) fn stored_array(schema: &Schema, rows: List<Row>) -> Result<ChunkedArray, Memory>
    requires { MayBeStored schema.now rows }
    ensures schema { IfOk result (λ array. array.schema ≡ schema.now) }
    ensures can { IfOk result CanBeStored }
    ensures rows { IfOk result (λ array. cores_of array ≡ rows) }
{
    assemble(schema, &margins_of(schema), rows.as_slice())
}

/// The chunks of an array as a whole version.
pub(crate) fn whole_version(array: ChunkedArray) -> Changed
    ensures { result ≡ record { schema = array.schema; whole = true; chunks = array.chunks } }
{
    let ChunkedArray {
        schema,
        margins: _,
        chunks,
        broken: _,
    } = array;
    Changed {
        schema,
        whole: true,
        chunks,
    }
}

/// All chunks of an array of rows that may be stored.
pub(crate) fn all_of(array: ChunkedArray) -> Changed
    requires { CanBeStored array }
    ensures { IsStoreOf array.schema (cores_of array) result }
{
    whole_version(array)
}

/// The chunks of both, those of the first list copied.
fn both(first: &List<Chunk>, last: List<Chunk>) -> Result<List<Chunk>, Memory>
    ensures { IfOk result (λ all. all ≡ first.now ++ last) }
{
    let mut all = first.copy()?;
    all.append(last)?;
    Ok(all)
}

/// The rows of an array put over those of stored chunks. Of cores that share a coordinate the first one's row counts, so all
/// cores are put together at once.
fn rows_over(put: &ChunkedArray, old: List<Chunk>) -> Result<List<Row>, Memory>
    requires put { CanBeStored put.now }
    requires old { AreStoredChunks put.now.schema old }
    ensures may { IfOk result (MayBeStored put.now.schema) }
    ensures rows { IfOk result (λ rows. rows ≡ put_all (cores_of put.now) (stored_rows put.now.schema old)) }
{
    into_core_rows(ChunkedArray {
        schema: put.schema.copy()?,
        margins: copy_numbers(&put.margins),
        chunks: both(&put.chunks, old)?,
        broken: None,
    })
}

/// Whether a box holds a row of an array.
pub(crate) fn has_row_in(put: &ChunkedArray, area: &Bounds) -> Result<bool, Memory>
    requires { CanBeStored put.now }
    ensures { IfOk result (λ has. has ≡ is_not_empty (within area.now (cores_of put.now))) }
{
    let rows = rows_in_area(&put.schema, &put.margins, put.chunks.as_slice(), area)?;
    Ok(!rows.is_empty())
}

/// Whether the frame of a chunk holds a row of an array.
fn is_met(put: &ChunkedArray, number: &ChunkAt) -> Result<bool, Memory>
    requires put { CanBeStored put.now }
    requires framed { HasFrame put.now.schema put.now.margins.items number.now.items }
    ensures { IfOk result (λ met. met ≡ meets put.now.schema.dimensions (cores_of put.now) number.now.items) }
{
    let area = frame(&put.schema, &put.margins, number);
    has_row_in(put, &area)
}

/// The chunks whose frame holds a row of an array.
fn met_chunks(put: &ChunkedArray, chunks: List<Chunk>) -> Result<List<Chunk>, Memory>
    requires put { CanBeStored put.now }
    requires places { HavePlaces put.now.schema put.now.margins.items chunks }
    ensures { IfOk result (λ met. met ≡ filter (λ chunk. meets put.now.schema.dimensions (cores_of put.now) chunk.at.items) chunks) }
{
    let mut met = chunks.another();
    for chunk in chunks.into_vec() {
        if is_met(put, &chunk.at)? {
            met.push(chunk)?;
        }
    }
    Ok(met)
}

/// Of an array's chunks those whose frame holds a row that is put in.
fn touched(put: &ChunkedArray, version: ChunkedArray) -> Result<Changed, Memory>
    requires put { CanBeStored put.now }
    requires version { CanBeStored version }
    requires schema { version.schema ≡ put.now.schema }
    ensures { (old : Items Placed) → cores_of version ≡ put_all (cores_of put.now) old → IfOk result (IsInsertOf put.now.schema (cores_of put.now) old) }
{
    let ChunkedArray {
        schema,
        margins: _,
        chunks,
        broken: _,
    } = version;
    Ok(Changed {
        schema,
        whole: false,
        chunks: met_chunks(put, chunks)?,
    })
}

/// The chunks that are written where the rows of an array are put over none: all of its own.
fn put_over_none(put: &ChunkedArray) -> Result<Changed, Memory>
    requires { CanBeStored put.now }
    ensures { IfOk result (IsInsertOf put.now.schema (cores_of put.now) []) }
{
    let chunks = put.chunks.copy()?;
    Ok(Changed {
        schema: put.schema.copy()?,
        whole: false,
        chunks,
    })
}

/// The same where chunks have overlaps: by rows, since the margins of one are cells of others.
fn put_over_rows(put: &ChunkedArray, old: List<Chunk>) -> Result<Changed, Memory>
    requires put { CanBeStored put.now }
    requires old { AreStoredChunks put.now.schema old }
    ensures { IfOk result (IsInsertOf put.now.schema (cores_of put.now) (stored_rows put.now.schema old)) }
{
    if old.is_empty() {
        return put_over_none(put);
    }
    let rows = rows_over(put, old)?;
    let version = stored_array(&put.schema, rows)?;
    touched(put, version)
}

/// The chunks that are written where the rows of an array are put over those of stored chunks.
pub(crate) fn put_over(put: &ChunkedArray, old: List<Chunk>) -> Result<Changed, Memory>
    requires put { CanBeStored put.now }
    requires old { AreStoredChunks put.now.schema old }
    ensures { IfOk result (IsInsertOf put.now.schema (cores_of put.now) (stored_rows put.now.schema old)) }
{
    if have_no_overlap(put.schema.dimensions.as_slice()) {
        put_over_cores(put, old.as_slice())
    } else {
        put_over_rows(put, old)
    }
}
