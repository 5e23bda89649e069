//! Rows of two arrays side by side, where their coordinates agree in some dimensions.
ghost use Rattle.std.specs.Prelude.{◌≡◌, ◌+◌, ◌≤◌, ◌++◌, length, map, OnOk, IfOk};
ghost use Rattle.std.specs.List.{All, flat_map};
ghost use Rattle.std.specs.List.Sorted.{IsSortedByKey};
ghost use Rattle.array_rows.specs.Rows.{row_major};
ghost use Rattle.logical_plan.specs.Joins.{cross_rows, right_places};
ghost use Rattle.logical_plan.specs.Typing.{left_places};
ghost use Rattle.exec_join.specs.Inner.Cross.{HaveRoom};
ghost use Rattle.exec_join.specs.Inner.Partners.{HasRoom, crossed, crossed_with, paired_of};

use crate::beside::copies_beside;
use crate::partners::{Partner, numbers_at, ordered_partners, partners_at};
use cell_values::{Coord, List, Memory, Row, copy_coord};
use logical_plan::Pair;

fn push_numbers(at: &mut Coord, more: &[i64])
    requires { length at.old.items + length more.now ≤ 6 }
    ensures { at.new.items ≡ at.old.items ++ more.now }
{
    for number in more {
        at.push(*number);
    }
}

fn crossed_row(left: &Row, partner: &Partner) -> Result<Row, Memory>
    requires { length left.now.at.items + length partner.now.others.items ≤ 6 }
    ensures { IfOk result (λ row. row ≡ crossed left.now partner.now) }
{
    let mut at = copy_coord(&left.at);
    push_numbers(&mut at, partner.others.as_slice());
    Ok(Row {
        at,
        cell: copies_beside(&left.cell, &partner.cell)?,
    })
}

/// Adds a row for each of these partners of a left row.
fn push_crossed(made: &mut List<Row>, left: &Row, partners: &[Partner]) -> Result<(), Memory>
    requires { HasRoom partners.now left.now }
    ensures { OnOk result (made.new ≡ made.old ++ map (crossed left.now) partners.now) }
{
    for partner in partners {
        made.push(crossed_row(left, partner)?)?;
    }
    Ok(())
}

/// Adds a row for each partner that has a left row's numbers at these places.
fn push_partners(
    made: &mut List<Row>,
    left: &Row,
    partners: &[Partner],
    places: &[u32],
) -> Result<(), Memory>
    requires few { length places.now ≤ 6 }
    requires sorted { IsSortedByKey paired_of row_major partners.now }
    requires room { HasRoom partners.now left.now }
    ensures { OnOk result (made.new ≡ made.old ++ crossed_with places.now partners.now left.now) }
{
    let key = numbers_at(places, &left.at);
    push_crossed(made, left, partners_at(partners, &key))
}

/// A row for each left row and each partner that has its numbers at these places.
fn cross_each(left: &List<Row>, partners: &[Partner], places: &[u32]) -> Result<List<Row>, Memory>
    requires few { length places.now ≤ 6 }
    requires sorted { IsSortedByKey paired_of row_major partners.now }
    requires room { All (HasRoom partners.now) left.now }
    ensures { IfOk result (λ rows. rows ≡ flat_map (crossed_with places.now partners.now) left.now) }
{
    let mut made = left.another();
    for row in left.as_slice() {
        push_partners(&mut made, row, partners, places)?;
    }
    Ok(made)
}

fn left_places(left: &List<Row>, pairs: &[Pair]) -> Result<List<u32>, Memory>
    ensures { IfOk result (λ places. places ≡ left_places pairs.now) }
{
    let mut places = left.another();
    for pair in pairs {
        places.push(pair.left)?;
    }
    Ok(places)
}

/// The places, in a right row, of the numbers of these pairs, pair by pair.
pub(crate) fn right_places(right: &List<Row>, pairs: &[Pair]) -> Result<List<u32>, Memory>
    ensures { IfOk result (λ places. places ≡ right_places pairs.now) }
{
    let mut places = right.another();
    for pair in pairs {
        places.push(pair.right)?;
    }
    Ok(places)
}

/// A row for each two rows whose coordinates agree in the paired dimensions, with copies of their cells: the left one's numbers, then
/// the right one's that are not paired. Takes time for a sort of the right rows, a search for each left row and the result.
pub(crate) fn cross_of_rows(
    left: List<Row>,
    right: List<Row>,
    pairs: &[Pair],
) -> Result<List<Row>, Memory>
    requires few { length pairs.now ≤ 6 }
    requires room { HaveRoom pairs.now left right }
    ensures { IfOk result (λ rows. rows ≡ cross_rows pairs.now left right) }
{
    let places = left_places(&left, pairs)?;
    let paired = right_places(&right, pairs)?;
    let partners = ordered_partners(right, paired.as_slice())?;
    cross_each(&left, partners.as_slice(), places.as_slice())
}
