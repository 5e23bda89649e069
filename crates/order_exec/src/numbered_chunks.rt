//! Chunks whose cells are numbered from 0.
ghost use Rattle.std.specs.Prelude.{◌≡◌, ◌*◌, ◌<◌, ◌≤◌, ◌^◌, ◌++◌, ◌∷◌, [], List as Items, length, map, IsTrue, OnOk, IfOk};
ghost use Rattle.std.specs.List.{AllByRecursion};
ghost use Rattle.cell_values.specs.declared.schema.Attribute.{Attribute};
ghost use Rattle.cell_values.specs.Schemas.{IsValid};
ghost use Rattle.array_geom.specs.Link.{chunk_rows};
ghost use Rattle.array_parts.specs.Made.{IsPlaced};
ghost use Rattle.array_parts.specs.Parts.{AreParts};
ghost use Rattle.array_parts.specs.Placed.{HavePlaces};
ghost use Rattle.area_cells.specs.Found.{IsFound, found_cell};
ghost use Rattle.logical_plan.specs.Ordered.{numbered};
ghost use Rattle.logical_plan.specs.PlanSchema.{sort_dimension};
ghost use Rattle.order_exec.specs.Inner.Keyed.{AreIndexed, IsKeyAlone, keyed_cell};

use crate::number_keys::Keyed;
use area_cells::Found;
use array_geom::{Chunk, Grid};
use array_rows::{Cells, Form};
use cell_values::{ChunkAt, List, Margins, Memory, Schema};

/// Adds a cell that was found.
fn push_found(cells: &mut Cells, found: &Found<'_>, grid: &Grid) -> Result<(), Memory>
    requires { IsFound grid.now found.now }
    ensures { OnOk result (cells.new ≡ cells.old ++ found_cell found.now ∷ []) }
{
    let _ = grid;
    match found.form {
        Form::Even(rows) => cells.push_row(rows, found.number),
        Form::Mixed(list) => cells.push(list[found.number].copy()?),
    }
}

/// Adds the cell of a key. Where the cells have nothing but their keys, it is made of the key.
fn push_keyed(
    cells: &mut Cells,
    found: &[Found<'_>],
    keyed: &Keyed,
    alone: bool,
    grid: &Grid,
) -> Result<(), Memory>
    requires found { AllByRecursion (IsFound grid.now) found.now }
    requires indexed { keyed.now.index < length found.now }
    requires alone { IsTrue alone → IsKeyAlone (map found_cell found.now) keyed.now }
    ensures { OnOk result (cells.new ≡ cells.old ++ keyed_cell (map found_cell found.now) keyed.now ∷ []) }
{
    if alone {
        return cells.push_number(keyed.key);
    }
    push_found(cells, &found[keyed.index], grid)
}

/// The chunk of a target with this number, whose core these cells fill from its first place on.
fn numbered_chunk(
    target: &Schema,
    margins: &Margins,
    number: u64,
    found: &[Found<'_>],
    keyed: &[Keyed],
    alone: bool,
    grid: &Grid,
) -> Result<Chunk, Memory>
    requires target { (attributes : Items Attribute) × (target.now.dimensions ≡ sort_dimension attributes ∷ []) }
    requires margins { margins.now.items ≡ 0 ∷ [] }
    requires found { AllByRecursion (IsFound grid.now) found.now }
    requires indexed { AreIndexed (length found.now) keyed.now }
    requires alone { IsTrue alone → AllByRecursion (IsKeyAlone (map found_cell found.now)) keyed.now }
    requires few { length keyed.now ≤ 1000 }
    ensures at { IfOk result (λ chunk. chunk.at.items ≡ number ∷ []) }
    ensures placed { IfOk result (IsPlaced target.now.dimensions margins.now.items) }
    ensures rows { IfOk result (λ chunk. chunk_rows target.now.dimensions margins.now.items chunk ≡ numbered (number * 1000) (map (keyed_cell (map found_cell found.now)) keyed.now)) }
{
    let _ = margins;
    let mut at = ChunkAt::new();
    at.push(number);
    let mut positions = List::with_capacity(target.dimensions.allocator(), keyed.len())?;
    let mut cells = Cells::new(target.dimensions.allocator());
    for place in 0..keyed.len() {
        let one = keyed[place];
        positions.push(place as u64)?;
        push_keyed(&mut cells, found, &one, alone, grid)?;
    }
    Ok(Chunk {
        at,
        positions,
        cells,
    })
}

/// The chunks of a target whose cells are numbered from 0 in this order. Cells that have nothing but their keys can be said to be so.
pub(crate) fn numbered_chunks(
    target: &Schema,
    margins: &Margins,
    found: &[Found<'_>],
    keyed: &[Keyed],
    alone: bool,
    grid: &Grid,
) -> Result<List<Chunk>, Memory>
    requires valid { IsValid target.now }
    requires target { (attributes : Items Attribute) × (target.now.dimensions ≡ sort_dimension attributes ∷ []) }
    requires margins { margins.now.items ≡ 0 ∷ [] }
    requires found { AllByRecursion (IsFound grid.now) found.now }
    requires indexed { AreIndexed (length found.now) keyed.now }
    requires alone { IsTrue alone → AllByRecursion (IsKeyAlone (map found_cell found.now)) keyed.now }
    requires few { length keyed.now < 2 ^ 62 }
    ensures places { IfOk result (HavePlaces target.now margins.now.items) }
    ensures parts { IfOk result (AreParts target.now.dimensions margins.now.items (numbered 0 (map (keyed_cell (map found_cell found.now)) keyed.now))) }
{
    let mut chunks = target.dimensions.another();
    let mut rest = keyed;
    let mut number = 0u64;
    'cutting: while !rest.is_empty() {
        let count = rest.len().min(1000);
        let (some, others) = rest.split_at(count);
        let chunk = numbered_chunk(target, margins, number, found, some, alone, grid)?;
        chunks.push(chunk)?;
        rest = others;
        number += 1;
    }
    Ok(chunks)
}
