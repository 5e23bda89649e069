//! Stretches of a row of a grid that lie in two boxes, or outside one of them.
ghost use Rattle.std.specs.Prelude.{◌≡◌, ◌≤◌, ◌<◌, ◌-◌, ◌&&◌, ◌≤ℤ◌, pos, ◌+ℤ◌, ℕ, int_le, unsigned_abs, ◌-ℤ◌, true, length, IsTrue};
ghost use Rattle.array_rows.specs.Boxes.{is_inside};
ghost use Rattle.array_rows.specs.Rows.{Coordinate};
ghost use Rattle.array_geom.specs.Geometry.{volume};
ghost use Rattle.array_geom.specs.Inner.Ranges.{IsGrid, is_in_grid};
ghost use Rattle.area_cells.specs.Inner.Stretches.{HasRoom, IsStretch, KeepsSide};

use array_geom::Grid;
use array_rows::is_in_box;
use cell_values::Bounds;

/// Places of a grid, from one up to a last one, that stand in one of its rows: all lie in two boxes,
/// or none does. Where they do they stand in another grid too, from `there` on.
#[derive(Drop)]
pub(crate) struct Stretch {
    pub(crate) from: u64,
    pub(crate) last: u64,
    pub(crate) inside: bool,
    pub(crate) there: u64,
}

/// How far a row of a grid goes on from a coordinate.
#[tactic(auto, using(crate::proofs::StretchLaws::last_in_grid))]
fn room_after(low: &[i64], lengths: &[u64], at: &[i64]) -> u64
    requires { IsTrue (is_in_grid low.now lengths.now at.now) }
    ensures { HasRoom low.now lengths.now at.now result }
{
    if at.is_empty() {
        return 0;
    }
    let last = at.len() - 1;
    lengths[last] - 1 - at[last].abs_diff(low[last])
}

/// How far numbers lie between two others, or not, as this one does.
fn steps_from(lo: &i64, hi: &i64, x: &i64, room: u64) -> u64
    ensures within { result ≤ room }
    ensures sides { (d : ℕ) → d ≤ result → (int_le lo.now (x.now +ℤ pos d) && int_le (x.now +ℤ pos d) hi.now) ≡ (int_le lo.now x.now && int_le x.now hi.now) }
{
    if *x < *lo {
        room.min((*lo).abs_diff(*x) - 1)
    } else if *hi < *x {
        room
    } else {
        room.min((*hi).abs_diff(*x))
    }
}

/// How far a row goes on in a box, or outside.
fn steps_along(lo: &[i64], hi: &[i64], at: &[i64], room: u64) -> u64
    ensures within { result ≤ room }
    ensures sides { KeepsSide lo.now hi.now at.now result }
{
    if at.is_empty() || lo.len() != at.len() || hi.len() != at.len() {
        return 0;
    }
    let last = at.len() - 1;
    steps_from(&lo[last], &hi[last], &at[last], room)
}

/// The stretch that begins at a place.
pub(crate) fn stretch_at(
    source: &Grid,
    target: &Grid,
    core: &Bounds,
    area: &Bounds,
    position: u64,
) -> Stretch
    requires source { IsGrid source.now }
    requires target { IsGrid target.now }
    requires held { (c : Coordinate) → is_inside area.now c ≡ true → is_in_grid target.now.low.items target.now.lengths.items c ≡ true }
    requires place { position < volume source.now.lengths.items }
    ensures stretch { IsStretch source.now target.now core.now area.now result }
    ensures from { result.from ≡ position }
    ensures some { position ≤ result.last }
{
    let at = source.place(position);
    let room = room_after(
        source.low.as_slice(),
        source.lengths.as_slice(),
        at.as_slice(),
    );
    let in_core = steps_along(core.lo.as_slice(), core.hi.as_slice(), at.as_slice(), room);
    let steps = steps_along(
        area.lo.as_slice(),
        area.hi.as_slice(),
        at.as_slice(),
        in_core,
    );
    let last = position + steps;
    if is_in_box(core, &at) && is_in_box(area, &at) {
        Stretch {
            from: position,
            last,
            inside: true,
            there: target.position(&at),
        }
    } else {
        Stretch {
            from: position,
            last,
            inside: false,
            there: 0,
        }
    }
}
