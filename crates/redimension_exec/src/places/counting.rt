//! How many cells landed before with the same numbers.
ghost use Rattle.std.specs.Prelude.{◌≡◌, ◌+◌, ◌≤◌, ◌++◌, ◌<◌, ◌∷◌, ◌+ℤ◌, ◌&&◌, [], pos, int_le};
ghost use Rattle.std.specs.Prelude.{Some, None, length, map, false, IsTrue, IfOk, OnOk, IfSome};
ghost use Rattle.std.specs.BTreeMap as tree;
ghost use Rattle.std.specs.BTreeMap.{Updates};
ghost use Rattle.std.specs.Option.{unwrap_or};
ghost use Rattle.array_rows.specs.Boxes.{is_between, is_inside};
ghost use Rattle.logical_plan.specs.Redimension.{counted_up};
ghost use Rattle.redimension_exec.specs.Inner.Counting.{by_numbers, has_counted, uncounted};
ghost use Rattle.redimension_exec.specs.Inner.Places.{origin};

use crate::places::places::Place;
use cell_values::{Bounds, Coord, Memory};
use std::collections::BTreeMap;

fn is_counted(place: &Place) -> bool
    ensures { result ≡ Rattle.redimension_exec.specs.Inner.Counting.is_counted (origin place.now) }
{
    match place {
        Place::Counted(_) => true,
        Place::OfDimension(_) => false,
        Place::OfAttribute(_) => false,
    }
}

/// Whether some dimension is synthetic.
pub(crate) fn has_counted(places: &[Place]) -> bool
    ensures { result ≡ has_counted (map origin places.now) }
{
    match places {
        [] => false,
        [place, places @ ..] => is_counted(place) || has_counted(places),
    }
}

fn push_uncounted(out: &mut Coord, places: &[Place], at: &[i64])
    requires { length out.old.items + length at.now ≤ 6 }
    ensures { out.new.items ≡ out.old.items ++ uncounted (map origin places.now) at.now }
{
    match at {
        [] => {}
        [number, rest @ ..] => match places {
            [] => {
                out.push(*number);
                push_uncounted(out, places, rest);
            }
            [Place::Counted(_), places @ ..] => push_uncounted(out, places, rest),
            [_, places @ ..] => {
                out.push(*number);
                push_uncounted(out, places, rest);
            }
        },
    }
}

/// The numbers of a target but the synthetic ones.
pub(crate) fn uncounted(places: &[Place], at: &Coord) -> Coord
    ensures { result.items ≡ uncounted (map origin places.now) at.now.items }
{
    let mut key = Coord::new();
    push_uncounted(&mut key, places, at.as_slice());
    key
}

/// The number raised by a count, if it stays within the high bound.
fn raised(number: &i64, count: u64, most: &i64) -> Option<i64>
    ensures within { IfSome result (λ raised. raised ≡ number.now +ℤ pos count) }
    ensures beyond { result ≡ None → int_le (number.now +ℤ pos count) most.now ≡ false }
{
    let raised = *number as i128 + count as i128;
    if raised <= *most as i128 {
        Some(raised as i64)
    } else {
        None
    }
}

/// Adds a number, and says whether it lies between these.
fn push_number(out: &mut Coord, number: &i64, least: &i64, most: &i64) -> bool
    requires { length out.old.items < 6 }
    ensures inside { result ≡ (int_le least.now number.now && int_le number.now most.now) }
    ensures numbers { out.new.items ≡ out.old.items ++ number.now ∷ [] }
    ensures room { length out.new.items ≤ length out.old.items + 1 }
{
    out.push(*number);
    *least <= *number && *number <= *most
}

/// Adds a number raised by a count, if the sum lies between these, and says whether it does.
#[tactic(auto, using(crate::proofs::CountLaws::and_false))]
fn push_raised(out: &mut Coord, number: &i64, count: u64, least: &i64, most: &i64) -> bool
    requires { length out.old.items < 6 }
    ensures inside { result ≡ (int_le least.now (number.now +ℤ pos count) && int_le (number.now +ℤ pos count) most.now) }
    ensures numbers { IsTrue result → out.new.items ≡ out.old.items ++ (number.now +ℤ pos count) ∷ [] }
    ensures room { length out.new.items ≤ length out.old.items + 1 }
{
    match raised(number, count, most) {
        Some(raised) => push_number(out, &raised, least, most),
        None => false,
    }
}

/// Adds the numbers, the synthetic ones raised by the count, and says whether they lie between these. The numbers are whole only
/// where they do.
fn push_counted(
    out: &mut Coord,
    places: &[Place],
    count: u64,
    at: &[i64],
    low: &[i64],
    high: &[i64],
) -> bool
    requires room { length out.old.items + length at.now ≤ 6 }
    requires each { length at.now ≡ length places.now }
    ensures inside { result ≡ is_between low.now high.now (counted_up (map origin places.now) count at.now) }
    ensures numbers { IsTrue result → out.new.items ≡ out.old.items ++ counted_up (map origin places.now) count at.now }
{
    match places {
        [] => match low {
            [] => high.is_empty(),
            [_, ..] => false,
        },
        [place, places @ ..] => match at {
            [] => false,
            [number, at @ ..] => match low {
                [] => false,
                [least, low @ ..] => match high {
                    [] => false,
                    [most, high @ ..] => match place {
                        Place::Counted(_) => {
                            push_raised(out, number, count, least, most)
                                && push_counted(out, places, count, at, low, high)
                        }
                        Place::OfDimension(_) | Place::OfAttribute(_) => {
                            push_number(out, number, least, most)
                                && push_counted(out, places, count, at, low, high)
                        }
                    },
                },
            },
        },
    }
}

/// The target of the first numbers where so many cells with these came before, if it lies within the bounds.
pub(crate) fn target_within(
    places: &[Place],
    bounds: &Bounds,
    count: u64,
    first: &Coord,
) -> Option<Coord>
    requires { length first.now.items ≡ length places.now }
    ensures inside { IfSome result (λ at. (at.items ≡ counted_up (map origin places.now) count first.now.items) × IsTrue (is_inside bounds.now at.items)) }
    ensures outside { result ≡ None → is_inside bounds.now (counted_up (map origin places.now) count first.now.items) ≡ false }
{
    let mut at = Coord::new();
    let low = bounds.lo.as_slice();
    let high = bounds.hi.as_slice();
    if push_counted(&mut at, places, count, first.as_slice(), low, high) {
        Some(at)
    } else {
        None
    }
}

/// How many cells came before with these numbers.
pub(crate) fn count_of(counts: &BTreeMap<Coord, u64>, key: &Coord) -> u64
    ensures { result ≡ unwrap_or (tree.get by_numbers counts.now key.now) 0 }
{
    match counts.get(key) {
        Some(count) => *count,
        None => 0,
    }
}

/// One cell more with these numbers. More cells than can be counted are as good as no memory.
pub(crate) fn count_one(
    counts: &mut BTreeMap<Coord, u64>,
    key: Coord,
    count: u64,
) -> Result<(), Memory>
    ensures { OnOk result (Updates by_numbers counts.old counts.new key (Some (count + 1))) }
{
    match count.checked_add(1) {
        Some(count) => {
            counts.insert(key, count)?;
            Ok(())
        }
        None => Err(Memory),
    }
}

/// Takes the place of these numbers, and says how many cells came before with them. Only that one came is kept.
pub(crate) fn take_place(counts: &mut BTreeMap<Coord, u64>, key: Coord) -> Result<u64, Memory>
    ensures before { IfOk result (λ before. before ≡ unwrap_or (tree.get by_numbers counts.old key) 0) }
    ensures counts { OnOk result (Updates by_numbers counts.old counts.new key (Some 1)) }
{
    match counts.insert(key, 1)? {
        Some(before) => Ok(before),
        None => Ok(0),
    }
}
