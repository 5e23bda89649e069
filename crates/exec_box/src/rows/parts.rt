//! Rows in a box, moved so that it begins at 0.
ghost use Rattle.std.specs.Prelude.{◌≡◌, ◌+◌, ◌≤◌, ◌++◌, ◌∷◌, [], if◌then◌else◌, length, map, OnOk, IfOk};
ghost use Rattle.array_rows.specs.Boxes.{is_inside, moved, within};
ghost use Rattle.logical_plan.specs.BoxOps.{subarray_rows};
ghost use Rattle.exec_box.specs.Moves.{IsShort, lowered};

use array_rows::is_in_box;
use cell_values::{Bounds, Coord, List, Memory, Row};

/// Adds the numbers of a coordinate less those of another.
fn push_lowered(out: &mut Coord, at: &[i64], low: &[i64])
    requires { length out.old.items + length at.now ≤ 6 }
    ensures { out.new.items ≡ out.old.items ++ lowered low.now at.now }
{
    match at {
        [] => {}
        [number, at @ ..] => match low {
            [] => {}
            [least, low @ ..] => {
                out.push(number.saturating_sub(*least));
                push_lowered(out, at, low);
            }
        },
    }
}

fn moved_row(row: &Row, low: &Coord) -> Result<Row, Memory>
    ensures { IfOk result (λ made. made ≡ moved (lowered low.now.items) row.now) }
{
    let mut at = Coord::new();
    push_lowered(&mut at, row.at.as_slice(), low.as_slice());
    Ok(Row {
        at,
        cell: row.cell.copy()?,
    })
}

/// Adds a row, if it lies in the box.
fn push_part(parts: &mut List<Row>, row: &Row, area: &Bounds) -> Result<(), Memory>
    ensures { OnOk result (parts.new ≡ parts.old ++ (if is_inside area.now row.now.at.items then moved (lowered area.now.lo.items) row.now ∷ [] else [])) }
{
    if is_in_box(area, &row.at) {
        parts.push(moved_row(row, &area.lo)?)
    } else {
        Ok(())
    }
}

/// The rows in a box, lowered as far as 64 bits go.
fn lowered_rows(rows: &List<Row>, area: &Bounds) -> Result<List<Row>, Memory>
    ensures { IfOk result (λ parts. parts ≡ map (moved (lowered area.now.lo.items)) (within area.now rows.now)) }
{
    let mut parts = rows.another();
    for row in rows.as_slice() {
        push_part(&mut parts, row, area)?;
    }
    Ok(parts)
}

/// The rows in a box, each less the box's lowest coordinate, so that the box begins at 0.
#[tactic(auto, using(crate::proofs::PartLaws::lowered_exactly))]
pub fn part_of_rows(rows: &List<Row>, area: &Bounds) -> Result<List<Row>, Memory>
    requires { IsShort area.now }
    ensures { IfOk result (λ parts. parts ≡ subarray_rows area.now rows.now) }
{
    lowered_rows(rows, area)
}
