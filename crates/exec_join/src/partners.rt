//! The right rows of a cross join, in the order of the numbers that are to agree with left ones.
ghost use Rattle.std.specs.Prelude.{◌≡◌, ◌+◌, ◌≤◌, ◌<◌, ◌==◌, ◌++◌, ◌∷◌, [], pos, true, false, if◌then◌else◌, length, map, filter, slice_index_or, OnOk, IfOk};
ghost use Rattle.std.specs.List.{list_any};
ghost use Rattle.std.specs.List.Sorted.{IsNonDecreasingBy, IsPartitionPoint, IsPermutation, IsSortedByKey, IsStableByKey};
ghost use Rattle.std.specs.Ordering.{is_lt, is_le, ordering_index};
ghost use Rattle.array_rows.specs.Rows.{row_major};
ghost use Rattle.logical_plan.specs.BoxOps.{items_but, numbers_at};
ghost use Rattle.exec_join.specs.Inner.Partners.{against, has_paired, paired_of, partner};

use cell_values::{Cell, Coord, List, Memory, Row, number_at, row_major};

/// A right row, with its numbers in the paired dimensions apart from the others.
#[derive(Drop)]
pub(crate) struct Partner {
    pub(crate) paired: Coord,
    pub(crate) others: Coord,
    pub(crate) cell: Cell,
}

/// The numbers of a coordinate in these dimensions.
pub(crate) fn numbers_at(places: &[u32], at: &Coord) -> Coord
    requires { length places.now ≤ 6 }
    ensures { result.items ≡ numbers_at places.now at.now.items }
{
    let mut numbers = Coord::new();
    for place in places {
        numbers.push(number_at(at, *place as usize));
    }
    numbers
}

/// Whether a place is among these.
pub(crate) fn is_among(places: &[u32], place: usize) -> bool
    ensures { result ≡ list_any (λ p. p == place) places.now }
{
    places.iter().any(|p| *p as usize == place)
}

fn push_unless(out: &mut Coord, is_left_out: bool, number: &i64)
    requires { length out.old.items < 6 }
    ensures value { out.new.items ≡ out.old.items ++ (if is_left_out then [] else number.now ∷ []) }
    ensures room { length out.new.items ≤ length out.old.items + 1 }
{
    if !is_left_out {
        out.push(*number);
    }
}

/// Adds the numbers of a coordinate at all other places. The first one has the place `place`.
fn push_others(out: &mut Coord, at: &[i64], places: &[u32], place: usize)
    requires room { length out.old.items + length at.now ≤ 6 }
    requires place { place + length at.now ≤ 6 }
    ensures { out.new.items ≡ out.old.items ++ items_but places.now place at.now }
{
    match at {
        [] => {}
        [number, at @ ..] => {
            push_unless(out, is_among(places, place), number);
            push_others(out, at, places, place + 1);
        }
    }
}

fn partner_of(row: Row, places: &[u32]) -> Partner
    requires { length places.now ≤ 6 }
    ensures { result ≡ partner places.now row }
{
    let paired = numbers_at(places, &row.at);
    let mut others = Coord::new();
    push_others(&mut others, row.at.as_slice(), places, 0);
    Partner {
        paired,
        others,
        cell: row.cell,
    }
}

/// The rows as partners, whose cells are moved.
fn partners_of(rows: List<Row>, places: &[u32]) -> Result<Vec<Partner>, Memory>
    requires { length places.now ≤ 6 }
    ensures { IfOk result (λ partners. partners.items ≡ map (partner places.now) rows) }
{
    let mut partners = Vec::with_capacity(rows.allocator(), rows.len())?;
    for row in rows.into_vec() {
        partners.push(partner_of(row, places))?;
    }
    Ok(partners)
}

/// Puts partners in the order of their paired numbers. Those that have the same stay as they are.
fn put_in_order(partners: &mut Vec<Partner>) -> Result<(), Memory>
    ensures same { IsPermutation partners.old.items partners.new.items }
    ensures sorted { OnOk result (IsSortedByKey paired_of row_major partners.new.items) }
    ensures stable { IsStableByKey paired_of row_major partners.old.items partners.new.items }
{
    partners.sort_by(|a, b| row_major(&a.paired, &b.paired))?;
    Ok(())
}

/// The rows as partners, in the order of their paired numbers.
pub(crate) fn ordered_partners(rows: List<Row>, places: &[u32]) -> Result<Vec<Partner>, Memory>
    requires { length places.now ≤ 6 }
    ensures same { IfOk result (λ partners. IsPermutation (map (partner places.now) rows) partners.items) }
    ensures sorted { IfOk result (λ partners. IsSortedByKey paired_of row_major partners.items) }
    ensures stable { IfOk result (λ partners. IsStableByKey paired_of row_major (map (partner places.now) rows) partners.items) }
{
    let mut partners = partners_of(rows, places)?;
    put_in_order(&mut partners)?;
    Ok(partners)
}

/// How many come before a left row's numbers.
fn count_below(partners: &[Partner], key: &Coord) -> usize
    requires { IsNonDecreasingBy (λ p. ordering_index (against key.now.items p)) partners.now }
    ensures bound { result ≤ length partners.now }
    ensures point { IsPartitionPoint (λ p. is_lt (against key.now.items p) ≡ true) (λ p. is_lt (against key.now.items p) ≡ false) partners.now result }
{
    partners.partition_point(|partner| row_major(&partner.paired, key).is_lt())
}

/// How many come before a left row's numbers, or have them.
fn count_through(partners: &[Partner], key: &Coord) -> usize
    requires { IsNonDecreasingBy (λ p. ordering_index (against key.now.items p)) partners.now }
    ensures bound { result ≤ length partners.now }
    ensures point { IsPartitionPoint (λ p. is_le (against key.now.items p) ≡ true) (λ p. is_le (against key.now.items p) ≡ false) partners.now result }
{
    partners.partition_point(|partner| row_major(&partner.paired, key).is_le())
}

/// The partners that have these paired numbers, which stand one after another.
pub(crate) fn partners_at<'a>(partners: &'a [Partner], key: &Coord) -> &'a [Partner]
    requires { IsSortedByKey paired_of row_major partners.now }
    ensures { result.now ≡ filter (has_paired key.now.items) partners.now }
{
    let rest = &partners[count_below(partners, key)..];
    &rest[..count_through(rest, key)]
}
