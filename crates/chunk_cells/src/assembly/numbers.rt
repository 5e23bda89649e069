//! Rising lists of chunk numbers.
ghost use Rattle.std.specs.Prelude.{◌≡◌, ℕ, ◌≤◌, ◌||◌, length, take, drop, OnOk, IfOk};
ghost use Rattle.std.specs.Ordering.{is_eq, is_lt};
ghost use Rattle.std.specs.List.{AllByRecursion};
ghost use Rattle.array_rows.specs.Arrays.{AreRowsOf};
ghost use Rattle.array_geom.specs.Geometry.{ChunkNumber};
ghost use Rattle.array_geom.specs.Link.{NumbersRise, is_listed, number_order};
ghost use Rattle.chunk_cells.specs.Inner.Numbers.{AreBefore, AreCoresOf, AreFrom, NameCores, numbers_in, starts_with};

use array_geom::chunk_of;
use cell_values::{ChunkAt, List, Memory, Row, Schema, compare_numbers};

/// Whether a chunk's number comes before another.
pub(crate) fn comes_before(a: &ChunkAt, b: &ChunkAt) -> bool
    ensures { result ≡ is_lt (number_order a.now.items b.now.items) }
{
    compare_numbers(a, b).is_lt()
}

/// How many of the numbers come before one.
pub(crate) fn count_before(listed: &[ChunkAt], number: &ChunkAt) -> usize
    requires { NumbersRise (numbers_in listed.now) }
    ensures within { result ≤ length listed.now }
    ensures before { AreBefore number.now.items (take result listed.now) }
    ensures from { AreFrom number.now.items (drop result listed.now) }
{
    let mut start = 0;
    let mut end = listed.len();
    while start < end {
        let middle = start + (end - start) / 2;
        if comes_before(&listed[middle], number) {
            start = middle + 1;
        } else {
            end = middle;
        }
    }
    start
}

/// Whether the number at a place is this one.
fn stands_at(listed: &[ChunkAt], at: usize, number: &ChunkAt) -> bool
    ensures { result ≡ starts_with number.now.items (drop at listed.now) }
{
    match listed.get(at) {
        Some(found) => compare_numbers(found, number).is_eq(),
        None => false,
    }
}

/// Adds a number unless it is the last one.
fn push_other(found: &mut List<ChunkAt>, number: ChunkAt) -> Result<(), Memory>
    ensures sized { OnOk result ((n : ℕ) → length number.items ≡ n → AllByRecursion (λ k. length k ≡ n) (numbers_in found.old)
        → AllByRecursion (λ k. length k ≡ n) (numbers_in found.new)) }
    ensures listed { OnOk result ((k : ChunkNumber)
        → is_listed k (numbers_in found.new) ≡ (is_eq (number_order number.items k) || is_listed k (numbers_in found.old))) }
{
    let last = found.len().saturating_sub(1);
    if stands_at(found.as_slice(), last, &number) {
        return Ok(());
    }
    found.push(number)?;
    Ok(())
}

/// The numbers of the chunks whose core has one of the rows, in the order of the rows.
fn numbers_of(schema: &Schema, rows: &[Row]) -> Result<List<ChunkAt>, Memory>
    requires { AreRowsOf schema.now rows.now }
    ensures { IfOk result (λ found. NameCores schema.now.dimensions rows.now found) }
{
    let mut found = schema.dimensions.another();
    for row in rows {
        push_other(&mut found, chunk_of(schema, &row.at))?;
    }
    Ok(found)
}

/// The same numbers in rising order, each of them once.
fn in_order(found: List<ChunkAt>) -> Result<List<ChunkAt>, Memory>
    ensures in_order { IfOk result (λ listed. NumbersRise (numbers_in listed)) }
    ensures listed { IfOk result (λ listed. (k : ChunkNumber) → is_listed k (numbers_in listed) ≡ is_listed k (numbers_in found)) }
{
    let mut numbers = found.into_vec();
    numbers.sort()?;
    numbers.dedup();
    Ok(List::from_vec(numbers))
}

/// The numbers of the chunks whose core has one of the rows, in order.
pub(crate) fn cores_of(schema: &Schema, rows: &[Row]) -> Result<List<ChunkAt>, Memory>
    requires { AreRowsOf schema.now rows.now }
    ensures { IfOk result (λ listed. AreCoresOf schema.now.dimensions rows.now listed) }
{
    in_order(numbers_of(schema, rows)?)
}
