//! A plan's array as it is stored: its rows fitted to a schema, and without a fault.
ghost use Rattle.std.specs.Prelude.{◌≡◌, ◌≤◌, ◌++◌, None, Ok as Good, IfOk, OnOk, OnErr};
ghost use Rattle.cell_values.specs.Schemas.{IsValid};
ghost use Rattle.array_parts.specs.Cores.{HasCells, HaveCells, cores_of};
ghost use Rattle.chunk_source.specs.Faults.{Answers};
ghost use Rattle.chunk_source.specs.Source.{AsksFront, Keeps};
ghost use Rattle.chunk_exec.specs.Computed.{asked_for_plan};
ghost use Rattle.logical_plan.specs.CellOps.{fit_rows};
ghost use Rattle.logical_plan.specs.Faults.{first_fault};
ghost use Rattle.plan_changes.specs.Databases.{Database, fitted, rows_of};
ghost use Rattle.plan_changes.specs.Kept.{MeansArray};
ghost use Rattle.changed_chunks.specs.Changing.{CanStore};
ghost use Rattle.changed_chunks.specs.Inner.Input.{IsFound, IsToStore, MayBeStored, TakesRows, fitted_cores, found_cores};

use crate::chunks::alone::have_no_overlap;
use crate::chunks::unchanged::is_storable;
use crate::chunks::versions::stored_array;
use afl_outside::Gate;
use array_geom::ChunkedArray;
use array_rows::fault_of_cell;
use cell_values::{Broken, List, Memory, Row, Schema, copy_coord};
use chunk_cells::{fit_rows, into_core_rows};
use chunk_exec::{ExecFault, execute};
use chunk_source::ChunkSource;
use logical_plan::Plan;
use std::alloc::Global;
use std::thread::Threads;

/// The first row with a fault.
fn first_fault(rows: &[Row]) -> Option<Broken>
    ensures { result ≡ first_fault rows.now }
{
    for row in rows {
        if let Some(kind) = fault_of_cell(&row.cell) {
            return Some(Broken {
                at: copy_coord(&row.at),
                kind,
            });
        }
    }
    None
}

/// The rows, or their first fault.
fn without_fault(rows: List<Row>) -> Result<List<Row>, Broken>
    ensures { IsFound (Good rows) result }
{
    match first_fault(rows.as_slice()) {
        Some(broken) => Err(broken),
        None => Ok(rows),
    }
}

/// The rows of an array's cores, fitted to a schema.
fn fitted_rows(array: ChunkedArray, schema: &Schema) -> Result<List<Row>, Memory>
    requires cells { HaveCells array.schema array.margins.items array.chunks }
    requires takes { TakesRows schema.now array.schema }
    ensures { IfOk result (λ rows. rows ≡ fit_rows schema.now.attributes (cores_of array)) }
{
    let rows = into_core_rows(array)?;
    fit_rows(schema.attributes.as_slice(), rows)
}

/// Where and why an array is broken as a whole.
fn broken_of(array: &ChunkedArray) -> Option<Broken>
    ensures { result ≡ array.now.broken }
{
    match &array.broken {
        Some(broken) => Some(Broken {
            at: copy_coord(&broken.at),
            kind: broken.kind,
        }),
        None => None,
    }
}

/// The rows of an array as they are stored under a schema, or where and why it is broken, or else its first fault.
pub(crate) fn rows_in(
    array: ChunkedArray,
    schema: &Schema,
) -> Result<Result<List<Row>, Broken>, Memory>
    requires cells { HasCells array }
    requires valid { IsValid schema.now }
    requires takes { TakesRows schema.now array.schema }
    ensures may { IfOk result (λ found. IfOk found (MayBeStored schema.now)) }
    ensures found { IfOk result (IsFound (fitted_cores schema.now array)) }
{
    match broken_of(&array) {
        Some(broken) => Ok(Err(broken)),
        None => Ok(without_fault(fitted_rows(array, schema)?)),
    }
}

/// The array of the rows that are found, or their fault.
fn array_of(
    schema: &Schema,
    found: Result<List<Row>, Broken>,
) -> Result<Result<ChunkedArray, Broken>, Memory>
    requires { IfOk found (MayBeStored schema.now) }
    ensures may { IfOk result (λ made. IfOk made (IsToStore schema.now)) }
    ensures found { IfOk result (λ made. found_cores made ≡ found) }
{
    match found {
        Ok(rows) => Ok(Ok(stored_array(schema, rows)?)),
        Err(broken) => Ok(Err(broken)),
    }
}

/// An array as it is stored under a schema, or where and why it is broken, or else its first fault. Where no chunk has an overlap
/// and the chunks may be stored as they are, no row is made of a cell.
fn array_in(array: ChunkedArray, schema: &Schema) -> Result<Result<ChunkedArray, Broken>, Memory>
    requires cells { HasCells array }
    requires valid { IsValid schema.now }
    requires takes { TakesRows schema.now array.schema }
    ensures may { IfOk result (λ found. IfOk found (IsToStore schema.now)) }
    ensures found { IfOk result (λ found. IsFound (fitted_cores schema.now array) (found_cores found)) }
{
    if have_no_overlap(schema.dimensions.as_slice()) && is_storable(&array, schema) {
        return Ok(Ok(array));
    }
    array_of(schema, rows_in(array, schema)?)
}

/// The array that is stored of a plan's under a schema, or its first fault.
pub(crate) fn input_of<S: ChunkSource, R: Threads + Sync, G: Gate>(
    rt: &R,
    alloc: Global,
    plan: &Plan,
    schema: &Schema,
    source: &mut S,
    workers: u32,
    session: u32,
    gate: &G,
) -> Result<Result<ChunkedArray, Broken>, ExecFault>
    requires undamaged { (S.state source.old).damaged ≡ None }
    requires can { CanStore (S.state source.old) schema.now plan.now }
    requires workers { (1 ≤ workers) × (workers ≤ 64) }
    ensures may { IfOk result (λ found. IfOk found (IsToStore schema.now)) }
    ensures means { OnOk result ((db : Database) → (S.state source.old).tells (rows_of db) → MeansArray db plan.now) }
    ensures found { IfOk result (λ found. (db : Database) → (S.state source.old).tells (rows_of db)
        → IsFound (fitted schema.now plan.now db) (found_cores found)) }
    ensures asked { OnOk result ((S.state source.new).asked ≡ (S.state source.old).asked ++ asked_for_plan (S.state source.old) plan.now) }
    ensures front { let old = S.state source.old in OnErr result (AsksFront (asked_for_plan old plan.now) old (S.state source.new)) }
    ensures kept { Keeps (S.state source.old) (S.state source.new) }
    ensures cause { Answers (S.state source.old) (S.state source.new) result }
    ensures start { S.start source.new ≡ S.start source.old }
{
    match execute(rt, alloc, plan, source, workers, session, gate) {
        Ok(array) => match array_in(array, schema) {
            Ok(found) => Ok(found),
            Err(Memory) => Err(ExecFault::Memory),
        },
        Err(fault) => Err(fault),
    }
}
