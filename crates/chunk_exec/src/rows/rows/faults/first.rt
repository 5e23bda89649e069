//! The least fault of chunks, whose cells don't stand in row-major order.
ghost use Rattle.std.specs.Prelude.{◌≡◌, ◌<◌, [], length, slice_index_or, Some, None};
ghost use Rattle.std.specs.List.{AllByRecursion, flat_map};
ghost use Rattle.cell_values.specs.declared.datum.Cell.TheVariants.{Full};
ghost use Rattle.array_rows.specs.Arrays.{Meant};
ghost use Rattle.array_rows.specs.Rows.{placed};
ghost use Rattle.array_geom.specs.Geometry.{coordinate_in, volume};
ghost use Rattle.array_geom.specs.Link.{Is, chunk_rows, rows_in};
ghost use Rattle.array_geom.specs.Inner.Ranges.{IsGrid};
ghost use Rattle.array_parts.specs.Placed.{HasPlaces, IsSound};
ghost use Rattle.logical_plan.specs.Faults.{fault_of};
ghost use Rattle.chunk_exec.specs.Least.{fault_at, least_from, sooner};

use array_geom::{Chunk, ChunkedArray, Grid, grid_of};
use array_rows::Cells;
use cell_values::{Broken, Margins, Schema, copy_coord};
use std::cmp::Ordering;

/// The fault that comes first in row-major order.
fn sooner(least: Option<Broken>, fault: Broken) -> Option<Broken>
    ensures { result ≡ sooner least (Some fault) }
{
    match least {
        None => Some(fault),
        Some(old) => match fault.at.as_slice().cmp(old.at.as_slice()) {
            Ordering::Less => Some(fault),
            Ordering::Equal => Some(old),
            Ordering::Greater => Some(old),
        },
    }
}

/// The least of a fault and that of a cell at a position.
#[tactic(auto, using(crate::proofs::Steps::same_fault))]
fn with_cell(
    grid: &Grid,
    position: u64,
    cells: &Cells,
    place: usize,
    least: Option<Broken>,
) -> Option<Broken>
    requires grid { IsGrid grid.now }
    requires inside { position < volume grid.now.lengths.items }
    requires place { place < length cells.now }
    ensures { result ≡ sooner least (fault_at
        (placed (coordinate_in grid.now.low.items grid.now.lengths.items position) (slice_index_or cells.now place (Full [])))) }
{
    match cells.fault(place) {
        None => least,
        Some(kind) => sooner(
            least,
            Broken {
                at: grid.place(position),
                kind,
            },
        ),
    }
}

/// The least of a fault and those of cells at their positions.
fn with_cells(
    grid: &Grid,
    positions: &[u64],
    cells: &Cells,
    first: Option<Broken>,
) -> Option<Broken>
    requires grid { IsGrid grid.now }
    requires each { length cells.now ≡ length positions.now }
    requires inside { AllByRecursion (λ p. p < volume grid.now.lengths.items) positions.now }
    ensures { result ≡ least_from first (rows_in grid.now.low.items grid.now.lengths.items positions.now cells.now) }
{
    let mut least = first;
    for i in 0..positions.len() {
        least = with_cell(grid, positions[i], cells, i, least);
    }
    least
}

/// The least of a fault and those of a chunk, with its margins: what they hold are copies.
fn with_chunk(
    schema: &Schema,
    margins: &Margins,
    chunk: &Chunk,
    least: Option<Broken>,
) -> Option<Broken>
    requires { HasPlaces schema.now margins.now.items chunk.now }
    ensures { result ≡ least_from least (chunk_rows schema.now.dimensions margins.now.items chunk.now) }
{
    let grid = grid_of(schema, margins, &chunk.at);
    with_cells(&grid, chunk.positions.as_slice(), &chunk.cells, least)
}

fn least_fault(schema: &Schema, margins: &Margins, chunks: &[Chunk]) -> Option<Broken>
    requires { AllByRecursion (HasPlaces schema.now margins.now.items) chunks.now }
    ensures { result ≡ least_from None (flat_map (chunk_rows schema.now.dimensions margins.now.items) chunks.now) }
{
    let mut least = None;
    for chunk in chunks {
        least = with_chunk(schema, margins, chunk, least);
    }
    least
}

/// Where and why an array is broken, else its first fault in row-major order.
#[tactic(auto, using(crate::proofs::FaultLaws::fault_of_chunks, crate::proofs::FaultLaws::fault_of_broken))]
pub fn first_fault(array: &ChunkedArray) -> Option<Broken>
    requires { IsSound array.now }
    ensures first { (meant : Meant) → Is array.now meant → result ≡ fault_of meant.rows }
    ensures whole { result ≡ None → array.now.broken ≡ None }
{
    match &array.broken {
        Some(broken) => Some(Broken {
            at: copy_coord(&broken.at),
            kind: broken.kind,
        }),
        None => least_fault(&array.schema, &array.margins, array.chunks.as_slice()),
    }
}
