//! An array of four places with two cells.
ghost use Rattle.std.specs.Prelude.{◌≡◌, ◌≤◌, ◌∷◌, [], length, IfOk};
ghost use Rattle.std.specs.List.{AllByRecursion};
ghost use Rattle.cell_values.specs.declared.datum.Cell.TheVariants.{Full};
ghost use Rattle.cell_values.specs.declared.datum.Datum.TheVariants.{Int};
ghost use Rattle.array_rows.specs.Rows.{placed};
ghost use Rattle.array_geom.specs.Geometry.{overlaps};
ghost use Rattle.array_geom.specs.Link.{Is};
ghost use Rattle.chunk_source.specs.Source.{Reads};
ghost use Rattle.chunk_source.specs.Found.{IsRead, IsStoredArray};
ghost use Rattle.chunk_source.specs.InMemory.{memory_state, sure_state};
ghost use Rattle.test_sources.specs.Example.{attributes, dimensions, schema, leaf, rows, meant};

use crate::layout::Layout;
use array_geom::{ChunkedArray, margins_of};
use cell_values::{Attribute, Cell, Datum, Dimension, Kind, List, Memory, Row, Schema, coord_of};
use chunk_cells::assemble;
use chunk_source::{LeafArray, MemChunks, SureChunks};
use logical_plan::Leaf;
use std::alloc::Global;
use test_kit::{name_of, one_more};

pub(crate) fn attributes(alloc: Global) -> Result<List<Attribute>, Memory>
    ensures { IfOk result (λ made. made ≡ attributes) }
{
    let attribute = Attribute {
        name: name_of(alloc, b"v")?,
        kind: Kind::Int64,
        nullable: true,
    };
    one_more(List::new(alloc), attribute)
}

fn dimensions(alloc: Global, layout: Layout) -> Result<List<Dimension>, Memory>
    ensures { IfOk result (λ made. made ≡ dimensions layout) }
{
    let dimension = Dimension {
        name: name_of(alloc, b"i")?,
        lo: 0,
        hi: 3,
        chunk: layout.chunk_length(),
        overlap: layout.overlap(),
    };
    one_more(List::new(alloc), dimension)
}

pub(crate) fn schema(alloc: Global, layout: Layout) -> Result<Schema, Memory>
    ensures { IfOk result (λ made. made ≡ schema layout) }
{
    Ok(Schema {
        attributes: attributes(alloc)?,
        dimensions: dimensions(alloc, layout)?,
    })
}

/// The leaf of the array.
pub(crate) fn example_leaf(alloc: Global, layout: Layout) -> Result<Leaf, Memory>
    ensures { IfOk result (λ made. made ≡ leaf layout) }
{
    Ok(Leaf {
        name: name_of(alloc, b"a")?,
        version: 1,
        schema: schema(alloc, layout)?,
    })
}

#[tactic(auto, using(crate::proofs::Stored::placed_at))]
fn row(alloc: Global, i: i64, value: i64) -> Result<Row, Memory>
    ensures { IfOk result (λ made. made ≡ placed (i ∷ []) (Full (Int value ∷ []))) }
{
    let mut values = List::new(alloc);
    values.push(Datum::Int(value))?;
    Ok(Row {
        at: coord_of(&[i]),
        cell: Cell::Full(values),
    })
}

fn rows(alloc: Global) -> Result<List<Row>, Memory>
    ensures { IfOk result (λ made. made ≡ rows) }
{
    let mut rows = List::new(alloc);
    rows.push(row(alloc, 1, 5)?)?;
    rows.push(row(alloc, 2, 7)?)?;
    Ok(rows)
}

#[tactic(auto, using(crate::proofs::Stored::schema_valid, crate::proofs::Stored::rows_are, crate::proofs::Stored::margin_each, crate::proofs::Stored::few_places))]
fn array(alloc: Global, layout: Layout) -> Result<ChunkedArray, Memory>
    ensures array { IfOk result (λ made. Is made (meant layout)) }
    ensures margins { IfOk result (λ made. made.margins.items ≡ overlaps (dimensions layout)) }
{
    let schema = schema(alloc, layout)?;
    let rows = rows(alloc)?;
    assemble(&schema, &margins_of(&schema), rows.as_slice())
}

fn stored(alloc: Global, layout: Layout) -> Result<LeafArray, Memory>
    ensures stored { IfOk result IsStoredArray }
    ensures leaf { IfOk result (λ made. made.leaf ≡ leaf layout) }
{
    Ok(LeafArray {
        leaf: example_leaf(alloc, layout)?,
        array: array(alloc, layout)?,
    })
}

#[tactic(auto, using(crate::proofs::Stored::all_stored, crate::proofs::Stored::is_read))]
fn arrays(alloc: Global, layout: Layout) -> Result<List<LeafArray>, Memory>
    ensures stored { IfOk result (AllByRecursion IsStoredArray) }
    ensures read { IfOk result (λ arrays. IsRead arrays (leaf layout)) }
{
    let mut arrays = List::new(alloc);
    arrays.push(stored(alloc, layout)?)?;
    Ok(arrays)
}

/// The numbers of the calls that are to fail.
fn numbers_in(alloc: Global, words: &str) -> Result<List<u64>, Memory> {
    let mut numbers = List::new(alloc);
    for word in words.split_whitespace() {
        numbers.push(word.parse::<u64>().unwrap_or(0))?;
    }
    Ok(numbers)
}

/// A source over the array, whose calls of these numbers fail.
pub(crate) fn failing_source(
    alloc: Global,
    layout: Layout,
    fails: &str,
) -> Result<MemChunks, Memory>
    ensures { IfOk result (λ source. Reads (memory_state source) (leaf layout)) }
{
    MemChunks::new(arrays(alloc, layout)?, numbers_in(alloc, fails)?)
}

/// A source over the array that never fails.
pub(crate) fn sure_source(alloc: Global, layout: Layout) -> Result<SureChunks, Memory>
    ensures { IfOk result (λ source. Reads (sure_state source) (leaf layout)) }
{
    Ok(SureChunks::new(arrays(alloc, layout)?))
}
