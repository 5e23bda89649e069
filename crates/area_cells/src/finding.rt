//! The cells of an array's cores in a box, by their places in a grid.
ghost use Rattle.std.specs.Prelude.{◌≡◌, ◌+◌, ◌-◌, ◌<◌, ◌≤◌, ◌∷◌, [], true, length, slice_index_or, IsTrue, OnOk, IfOk};
ghost use Rattle.std.specs.List.{AllByRecursion};
ghost use Rattle.cell_values.specs.Schemas.{IsValid};
ghost use Rattle.cell_values.specs.declared.datum.Cell.{Cell as Held};
ghost use Rattle.array_rows.specs.Inner.CellsIn.{cells_in};
ghost use Rattle.array_rows.specs.Boxes.{is_inside, within};
ghost use Rattle.array_rows.specs.Rows.{Coordinate, IsRising};
ghost use Rattle.array_geom.specs.Chunks.{AreRising};
ghost use Rattle.array_geom.specs.Geometry.{volume};
ghost use Rattle.array_geom.specs.Inner.Ranges.{IsGrid, is_in_grid};
ghost use Rattle.array_geom.specs.Link.{NumbersRise, chunk_rows, core_rows, numbers};
ghost use Rattle.array_parts.specs.Placed.{HasPlaces};
ghost use Rattle.area_cells.specs.Found.{AreFound, IsFound};
ghost use Rattle.area_cells.specs.Inner.Stretches.{IsStretch};
ghost use Rattle.area_cells.specs.Inner.Taking.{IsTaken};

use crate::gathering::{are_ordered, lie_off};
use crate::merging::merge_found;
use crate::stretches::{Stretch, stretch_at};
use array_geom::{Boxes, Chunk, Grid, core_box, grid_of};
use array_rows::Form;
use cell_values::{Bounds, List, Margins, Memory, Schema};

/// A cell by its place in a grid: that of a number among those of a chunk.
#[derive(Clone, Copy)]
pub struct Found<'a> {
    pub position: u64,
    pub form: &'a Form,
    pub number: usize,
}

/// Where the places up to a last one end, or before.
fn end_of(places: &[u64], from: usize, last: u64) -> usize
    requires some { from < length places.now }
    requires first { slice_index_or places.now from 0 ≤ last }
    ensures some { from < result }
    ensures within { result ≤ length places.now }
    ensures last { slice_index_or places.now (result - 1) 0 ≤ last }
{
    let wide = last - places[from];
    let mut high = places.len();
    if wide < (high - from) as u64 {
        high = from + wide as usize + 1;
    }
    if places[high - 1] <= last {
        return high;
    }
    let mut low = from + 1;
    while low < high {
        let middle = low + (high - low) / 2;
        if places[middle] <= last {
            low = middle + 1;
        } else {
            high = middle;
        }
    }
    low
}

/// Adds the cells of a stretch inside.
fn push_stretch<'a>(
    found: &mut List<Found<'a>>,
    source: &Grid,
    target: &Grid,
    core: &Bounds,
    area: &Bounds,
    stretch: &Stretch,
    form: &'a Form,
    places: &[u64],
    from: usize,
    end: usize,
) -> Result<(), Memory>
    requires target { IsGrid target.now }
    requires stretch { IsStretch source.now target.now core.now area.now stretch.now }
    requires inside { stretch.now.inside ≡ true }
    requires rising { AreRising places.now }
    requires each { length (cells_in form.now) ≡ length places.now }
    requires some { from < end }
    requires within { end ≤ length places.now }
    requires first { stretch.now.from ≤ slice_index_or places.now from 0 }
    requires last { slice_index_or places.now (end - 1) 0 ≤ stretch.now.last }
    ensures { OnOk result (IsTaken source.now target.now core.now area.now places.now (cells_in form.now) found.old from
        → IsTaken source.now target.now core.now area.now places.now (cells_in form.now) found.new end) }
{
    let _ = source;
    let _ = target;
    let _ = core;
    let _ = area;
    for k in from..end {
        found.push(Found {
            position: stretch.there + (places[k] - stretch.from),
            form,
            number: k,
        })?;
    }
    Ok(())
}

/// Adds the cells of a stretch, if it is inside.
fn take_stretch<'a>(
    found: &mut List<Found<'a>>,
    source: &Grid,
    target: &Grid,
    core: &Bounds,
    area: &Bounds,
    form: &'a Form,
    places: &[u64],
    from: usize,
) -> Result<usize, Memory>
    requires source { IsGrid source.now }
    requires target { IsGrid target.now }
    requires held { (c : Coordinate) → is_inside area.now c ≡ true → is_in_grid target.now.low.items target.now.lengths.items c ≡ true }
    requires rising { AreRising places.now }
    requires places { AllByRecursion (λ p. p < volume source.now.lengths.items) places.now }
    requires each { length (cells_in form.now) ≡ length places.now }
    requires some { from < length places.now }
    ensures some { IfOk result (λ end. from < end) }
    ensures within { IfOk result (λ end. end ≤ length places.now) }
    ensures taken { IfOk result (λ end. IsTaken source.now target.now core.now area.now places.now (cells_in form.now) found.old from
        → IsTaken source.now target.now core.now area.now places.now (cells_in form.now) found.new end) }
{
    let stretch = stretch_at(source, target, core, area, places[from]);
    let end = end_of(places, from, stretch.last);
    if stretch.inside {
        push_stretch(
            found, source, target, core, area, &stretch, form, places, from, end,
        )?;
    }
    Ok(end)
}

/// The cells of a chunk's core that lie in a box.
fn found_in_chunk<'a>(
    schema: &Schema,
    margins: &Margins,
    chunk: &'a Chunk,
    area: &Bounds,
    target: &Grid,
) -> Result<List<Found<'a>>, Memory>
    requires places { HasPlaces schema.now margins.now.items chunk.now }
    requires rising { IsRising (chunk_rows schema.now.dimensions margins.now.items chunk.now) }
    requires target { IsGrid target.now }
    requires held { (c : Coordinate) → is_inside area.now c ≡ true → is_in_grid target.now.low.items target.now.lengths.items c ≡ true }
    ensures { IfOk result (AreFound target.now (within area.now (core_rows schema.now.dimensions margins.now.items (chunk.now ∷ [])))) }
{
    let source = grid_of(schema, margins, &chunk.at);
    let core = core_box(schema, &chunk.at);
    let form = chunk.cells.form();
    let places = chunk.positions.as_slice();
    let mut found = chunk.positions.another();
    let mut at = 0;
    'taking: while at < places.len() {
        at = take_stretch(&mut found, &source, target, &core, area, form, places, at)?;
    }
    Ok(found)
}

/// The same, where the core and the box have a coordinate in common.
fn found_in_one<'a>(
    schema: &Schema,
    margins: &Margins,
    chunk: &'a Chunk,
    area: &Bounds,
    target: &Grid,
) -> Result<List<Found<'a>>, Memory>
    requires places { HasPlaces schema.now margins.now.items chunk.now }
    requires rising { IsRising (chunk_rows schema.now.dimensions margins.now.items chunk.now) }
    requires target { IsGrid target.now }
    requires held { (c : Coordinate) → is_inside area.now c ≡ true → is_in_grid target.now.low.items target.now.lengths.items c ≡ true }
    ensures { IfOk result (AreFound target.now (within area.now (core_rows schema.now.dimensions margins.now.items (chunk.now ∷ [])))) }
{
    let shared = core_box(schema, &chunk.at).meet(area);
    if !are_ordered(shared.lo.as_slice(), shared.hi.as_slice()) {
        return Ok(chunk.positions.another());
    }
    found_in_chunk(schema, margins, chunk, area, target)
}

/// The cells of an array's cores that lie in a box, by their rising places in a grid that holds it.
pub fn found_in<'a>(
    schema: &Schema,
    margins: &Margins,
    chunks: &'a [Chunk],
    area: &Bounds,
    target: &Grid,
) -> Result<List<Found<'a>>, Memory>
    requires valid { IsValid schema.now }
    requires places { AllByRecursion (HasPlaces schema.now margins.now.items) chunks.now }
    requires rows { AllByRecursion (λ chunk. IsRising (chunk_rows schema.now.dimensions margins.now.items chunk)) chunks.now }
    requires rise { NumbersRise (numbers chunks.now) }
    requires target { IsGrid target.now }
    requires held { (c : Coordinate) → is_inside area.now c ≡ true → is_in_grid target.now.low.items target.now.lengths.items c ≡ true }
    ensures { IfOk result (AreFound target.now (within area.now (core_rows schema.now.dimensions margins.now.items chunks.now))) }
{
    if chunks.is_empty() {
        return Ok(schema.dimensions.another());
    }
    if chunks.len() == 1 {
        return found_in_one(schema, margins, &chunks[0], area, target);
    }
    if lie_off(schema, chunks, area) {
        return Ok(schema.dimensions.another());
    }
    let (front, back) = chunks.split_at(chunks.len() / 2);
    let left = found_in(schema, margins, front, area, target)?;
    let right = found_in(schema, margins, back, area, target)?;
    merge_found(left, right, target)
}
