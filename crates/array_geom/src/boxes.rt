//! Boxes of coordinates.
ghost use Rattle.std.specs.Prelude.{◌≡◌, ◌+◌, ◌≤◌, ◌++◌, length, IsTrue};
ghost use Rattle.std.specs.Int.{int_max, int_min};
ghost use Rattle.std.specs.List.{list_all};
ghost use Rattle.array_rows.specs.Table.{fits_int64};
ghost use Rattle.array_rows.specs.Bounds.{Bounds as Area};
ghost use Rattle.array_rows.specs.Boxes.{by_pairs, is_between, is_inside, meet};
ghost use Rattle.array_geom.specs.Areas.{is_in_range, moved_by, shifted};

use array_rows::{Bounds, Coord};

/// The calls of a box of coordinates.
pub trait Boxes {
    ghost area: { Self → Area };

    /// The box that two boxes share.
    fn meet(&self, other: &Bounds) -> Bounds
        ensures { result ≡ meet (area self.now) other.now };

    /// Whether a coordinate lies in the box.
    fn holds(&self, at: &Coord) -> bool
        ensures { result ≡ is_inside (area self.now) at.now.items };

    /// The box moved by so much in each dimension.
    fn shift(&self, by: &Coord) -> Bounds
        requires { IsTrue (is_in_range (shifted (area self.now) by.now.items)) }
        ensures { result ≡ shifted (area self.now) by.now.items };
}

fn push_greater(out: &mut Coord, a: &[i64], b: &[i64])
    requires { length out.old.items + length a.now ≤ 6 }
    ensures { out.new.items ≡ out.old.items ++ by_pairs int_max a.now b.now }
{
    match a {
        [] => {}
        [x, a @ ..] => match b {
            [] => {}
            [y, b @ ..] => {
                out.push((*x).max(*y));
                push_greater(out, a, b);
            }
        },
    }
}

fn push_less(out: &mut Coord, a: &[i64], b: &[i64])
    requires { length out.old.items + length a.now ≤ 6 }
    ensures { out.new.items ≡ out.old.items ++ by_pairs int_min a.now b.now }
{
    match a {
        [] => {}
        [x, a @ ..] => match b {
            [] => {}
            [y, b @ ..] => {
                out.push((*x).min(*y));
                push_less(out, a, b);
            }
        },
    }
}

fn is_between(lo: &[i64], hi: &[i64], at: &[i64]) -> bool
    ensures { result ≡ is_between lo.now hi.now at.now }
{
    match lo {
        [] => hi.is_empty() && at.is_empty(),
        [l, lo @ ..] => match hi {
            [] => false,
            [h, hi @ ..] => match at {
                [] => false,
                [x, at @ ..] => *l <= *x && *x <= *h && is_between(lo, hi, at),
            },
        },
    }
}

/// Adds a coordinate, moved by so much.
fn push_moved(out: &mut Coord, at: &[i64], by: &[i64])
    requires room { length out.old.items + length at.now ≤ 6 }
    requires in_range { IsTrue (list_all fits_int64 (moved_by by.now at.now)) }
    ensures { out.new.items ≡ out.old.items ++ moved_by by.now at.now }
{
    match at {
        [] => {}
        [x, at @ ..] => match by {
            [] => {}
            [n, by @ ..] => {
                out.push(*x + *n);
                push_moved(out, at, by);
            }
        },
    }
}

impl Boxes for Bounds {
    ghost area = { λ b. b };

    fn meet(&self, other: &Bounds) -> Bounds {
        let mut lo = Coord::new();
        let mut hi = Coord::new();
        push_greater(&mut lo, self.lo.as_slice(), other.lo.as_slice());
        push_less(&mut hi, self.hi.as_slice(), other.hi.as_slice());
        Bounds { lo, hi }
    }

    fn holds(&self, at: &Coord) -> bool {
        is_between(self.lo.as_slice(), self.hi.as_slice(), at.as_slice())
    }

    fn shift(&self, by: &Coord) -> Bounds {
        let mut lo = Coord::new();
        let mut hi = Coord::new();
        push_moved(&mut lo, self.lo.as_slice(), by.as_slice());
        push_moved(&mut hi, self.hi.as_slice(), by.as_slice());
        Bounds { lo, hi }
    }
}
