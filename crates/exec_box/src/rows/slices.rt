//! Rows with fixed numbers, without these.
ghost use Rattle.std.specs.Prelude.{◌≡◌, ◌+◌, ◌≤◌, ◌<◌, ◌==◌, ◌++◌, ◌∷◌, [], pos, if◌then◌else◌, length, map, slice_index_or, OnOk, IfOk};
ghost use Rattle.std.specs.List.{list_any};
ghost use Rattle.array_rows.specs.Boxes.{moved};
ghost use Rattle.logical_plan.specs.BoxOps.{fixed_places, has_fixed, items_but, slice_rows};

use cell_values::{Coord, List, Memory, Row, number_at};
use logical_plan::Fixed;

fn has_fixed(at: &Coord, fixed: &[Fixed]) -> bool
    ensures { result ≡ has_fixed fixed.now at.now.items }
{
    fixed
        .iter()
        .all(|f| number_at(at, f.dimension as usize) == f.at)
}

pub(crate) fn is_fixed(fixed: &[Fixed], place: usize) -> bool
    ensures { result ≡ list_any (λ f. f.dimension == place) fixed.now }
{
    fixed.iter().any(|f| f.dimension as usize == place)
}

fn push_unless(out: &mut Coord, is_left_out: bool, number: &i64)
    requires { length out.old.items < 6 }
    ensures value { out.new.items ≡ out.old.items ++ (if is_left_out then [] else number.now ∷ []) }
    ensures room { length out.new.items ≤ length out.old.items + 1 }
{
    if !is_left_out {
        out.push(*number);
    }
}

/// Adds the numbers of a coordinate that are not fixed. The first one has the place `place`.
fn push_free(out: &mut Coord, at: &[i64], fixed: &[Fixed], place: usize)
    requires room { length out.old.items + length at.now ≤ 6 }
    requires place { place + length at.now ≤ 6 }
    ensures { out.new.items ≡ out.old.items ++ items_but (fixed_places fixed.now) place at.now }
{
    match at {
        [] => {}
        [number, at @ ..] => {
            push_unless(out, is_fixed(fixed, place), number);
            push_free(out, at, fixed, place + 1);
        }
    }
}

fn free_row(row: &Row, fixed: &[Fixed]) -> Result<Row, Memory>
    ensures { IfOk result (λ made. made ≡ moved (items_but (fixed_places fixed.now) 0) row.now) }
{
    let mut at = Coord::new();
    push_free(&mut at, row.at.as_slice(), fixed, 0);
    Ok(Row {
        at,
        cell: row.cell.copy()?,
    })
}

/// Adds a row, if it has the fixed numbers.
fn push_slice(rows: &mut List<Row>, row: &Row, fixed: &[Fixed]) -> Result<(), Memory>
    ensures { OnOk result (rows.new ≡ rows.old
        ++ (if has_fixed fixed.now row.now.at.items then moved (items_but (fixed_places fixed.now) 0) row.now ∷ [] else [])) }
{
    if has_fixed(&row.at, fixed) {
        rows.push(free_row(row, fixed)?)
    } else {
        Ok(())
    }
}

/// The rows with the fixed numbers, without these.
pub fn slice_of_rows(rows: &List<Row>, fixed: &[Fixed]) -> Result<List<Row>, Memory>
    ensures { IfOk result (λ slice. slice ≡ slice_rows fixed.now rows.now) }
{
    let mut slice = rows.another();
    for row in rows.as_slice() {
        push_slice(&mut slice, row, fixed)?;
    }
    Ok(slice)
}
