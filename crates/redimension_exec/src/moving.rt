//! Rows moved into the chunks of a target band by band, so that the source's rows of one band are there at a time.
ghost use Rattle.std.specs.Prelude.{◌≡◌, ◌≤◌, length, map, IfOk};
ghost use Rattle.cell_values.specs.Schemas.{IsValid};
ghost use Rattle.array_rows.specs.Boxes.{bounds_of};
ghost use Rattle.array_geom.specs.Link.{core_rows};
ghost use Rattle.array_parts.specs.Cores.{cores_of};
ghost use Rattle.area_cells.specs.Margins.{no_margins};
ghost use Rattle.logical_plan.specs.Redimension.{origin_of, value_origin};
ghost use Rattle.redimension_exec.specs.Inner.Bands.{AreBands};
ghost use Rattle.redimension_exec.specs.Inner.Filling.{Fill, HoldsAll, HoldsLanded, IsFinished, IsTarget};
ghost use Rattle.redimension_exec.specs.Inner.Places.{origin};

use crate::filling::Filled;
use crate::places::{Place, Target, fill_rows, places_of_attributes, places_of_dimensions};
use area_cells::{bounds_of, half_of_bands, rows_of_chunks};
use array_geom::{Chunk, ChunkedArray};
use cell_values::{Bounds, Broken, ChunkAt, Coord, List, Margins, Memory, Schema};
use std::collections::BTreeMap;

/// Puts what the rows of the cores of chunks make into the target's chunks, or says which of the rows is the first that breaks it.
fn fill_band(
    source: &Schema,
    margins: &Margins,
    chunks: &[Chunk],
    to: &Target<'_>,
    counts: &mut BTreeMap<Coord, u64>,
    filled: &mut Filled,
) -> Result<Option<Broken>, Memory>
    requires bands { AreBands source.now margins.now.items chunks.now }
    requires target { IsTarget to.now.schema.now to.now.none.now.items to.now.bounds.now to.now.places.now }
    ensures { IfOk result (λ broken. Fill to.now.schema.now (map origin to.now.places.now) to.now.bounds.now (map origin to.now.values.now)
        (core_rows source.now.dimensions margins.now.items chunks.now) broken counts.old filled.old counts.new filled.new) }
{
    let rows = rows_of_chunks(source, margins, chunks)?;
    let moved = fill_rows(to, counts, filled, &rows);
    drop(rows);
    moved
}

/// The same, half by half until a band is left.
fn fill_bands(
    source: &Schema,
    margins: &Margins,
    chunks: &[Chunk],
    to: &Target<'_>,
    counts: &mut BTreeMap<Coord, u64>,
    filled: &mut Filled,
) -> Result<Option<Broken>, Memory>
    requires bands { AreBands source.now margins.now.items chunks.now }
    requires target { IsTarget to.now.schema.now to.now.none.now.items to.now.bounds.now to.now.places.now }
    ensures { IfOk result (λ broken. Fill to.now.schema.now (map origin to.now.places.now) to.now.bounds.now (map origin to.now.values.now)
        (core_rows source.now.dimensions margins.now.items chunks.now) broken counts.old filled.old counts.new filled.new) }
{
    let half = half_of_bands(source, chunks);
    if half == chunks.len() {
        return fill_band(source, margins, chunks, to, counts, filled);
    }
    let (front, back) = chunks.split_at(half);
    match fill_bands(source, margins, front, to, counts, filled)? {
        Some(broken) => Ok(Some(broken)),
        None => fill_bands(source, margins, back, to, counts, filled),
    }
}

/// Where the numbers and the values of a target's cells come from, and its bounds.
#[derive(Drop)]
struct Origins {
    places: List<Place>,
    values: List<Place>,
    bounds: Bounds,
}

fn origins_with(source: &Schema, target: &Schema, places: List<Place>) -> Result<Origins, Memory>
    requires { length target.now.dimensions ≤ 6 }
    ensures places { IfOk result (λ origins. origins.places ≡ places) }
    ensures values { IfOk result (λ origins. map origin origins.values ≡ map (value_origin source.now) target.now.attributes) }
    ensures bounds { IfOk result (λ origins. origins.bounds ≡ bounds_of target.now.dimensions) }
{
    let values = places_of_attributes(source, target.attributes.as_slice())?;
    Ok(Origins {
        places,
        values,
        bounds: bounds_of(target.dimensions.as_slice()),
    })
}

#[tactic(auto, using(crate::proofs::BandLaws::few_dimensions))]
fn origins_of(source: &Schema, target: &Schema) -> Result<Origins, Memory>
    requires { IsValid target.now }
    ensures few { IfOk result (λ origins. length origins.places ≤ 6) }
    ensures places { IfOk result (λ origins. map origin origins.places ≡ map (origin_of source.now) target.now.dimensions) }
    ensures values { IfOk result (λ origins. map origin origins.values ≡ map (value_origin source.now) target.now.attributes) }
    ensures bounds { IfOk result (λ origins. origins.bounds ≡ bounds_of target.now.dimensions) }
{
    let places = places_of_dimensions(source, target.dimensions.as_slice())?;
    origins_with(source, target, places)
}

/// What broke the target, or all its chunks by their numbers.
fn finished(
    filled: Filled,
    moved: Result<Option<Broken>, Memory>,
) -> Result<Result<BTreeMap<ChunkAt, Chunk>, Broken>, Memory>
    ensures { IfOk result (IsFinished filled moved) }
{
    match moved {
        Ok(None) => match filled.finish() {
            Ok(chunks) => Ok(Ok(chunks)),
            Err(memory) => Err(memory),
        },
        Ok(Some(broken)) => {
            drop(filled);
            Ok(Err(broken))
        }
        Err(memory) => {
            drop(filled);
            Err(memory)
        }
    }
}

/// The target's chunks with what lands of the rows of an array's cores, or the first row that breaks the target.
fn filled_by(
    array: &ChunkedArray,
    to: &Target<'_>,
) -> Result<Result<BTreeMap<ChunkAt, Chunk>, Broken>, Memory>
    requires bands { AreBands array.now.schema array.now.margins.items array.now.chunks }
    requires target { IsTarget to.now.schema.now to.now.none.now.items to.now.bounds.now to.now.places.now }
    ensures { IfOk result (HoldsAll to.now.schema.now (map origin to.now.places.now) to.now.bounds.now (map origin to.now.values.now) (cores_of array.now)) }
{
    let mut counts = BTreeMap::new(array.chunks.allocator());
    let mut filled = Filled::new(array.chunks.allocator());
    let chunks = array.chunks.as_slice();
    let moved = fill_bands(
        &array.schema,
        &array.margins,
        chunks,
        to,
        &mut counts,
        &mut filled,
    );
    drop(counts);
    finished(filled, moved)
}

fn filled_from(
    array: &ChunkedArray,
    target: &Schema,
    none: &Margins,
) -> Result<Result<BTreeMap<ChunkAt, Chunk>, Broken>, Memory>
    requires valid { IsValid target.now }
    requires margins { none.now.items ≡ no_margins target.now.dimensions }
    requires bands { AreBands array.now.schema array.now.margins.items array.now.chunks }
    ensures { IfOk result (HoldsLanded array.now.schema target.now (cores_of array.now)) }
{
    let origins = origins_of(&array.schema, target)?;
    let to = Target {
        schema: target,
        none,
        bounds: &origins.bounds,
        places: origins.places.as_slice(),
        values: origins.values.as_slice(),
    };
    let filled = filled_by(array, &to)?;
    Ok(filled)
}

/// The target's chunks, without margins, with what lands of the rows of an array's cores, or the first row that breaks the target.
/// The array is let go.
pub(crate) fn filled_in_bands(
    array: ChunkedArray,
    target: &Schema,
    none: &Margins,
) -> Result<Result<BTreeMap<ChunkAt, Chunk>, Broken>, Memory>
    requires valid { IsValid target.now }
    requires margins { none.now.items ≡ no_margins target.now.dimensions }
    requires bands { AreBands array.schema array.margins.items array.chunks }
    ensures { IfOk result (HoldsLanded array.schema target.now (cores_of array)) }
{
    let filled = filled_from(&array, target, none);
    drop(array);
    filled
}
