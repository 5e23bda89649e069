//! Coordinates, boxes and rows.

use crate::show::push_corners;
use crate::words::front_of;
use array_rows::is_in_box;
use cell_values::{Bounds, Broken, Datum, FaultKind, Memory, Row, row_major};
use std::cmp::Ordering;
use test_kit::{
    Transcript, cell_of, coord_in, fault_of, push_cell, push_coord, push_datum, push_word,
};

fn bounds_of(lo: &str, hi: &str) -> Bounds {
    Bounds {
        lo: coord_in(lo),
        hi: coord_in(hi),
    }
}

/// Adds a copy of the box of two corners.
pub(crate) fn push_bounds(out: &mut Transcript, corners: &str) {
    let (lo, hi) = front_of(corners);
    match bounds_of(lo, hi).copy() {
        Ok(copy) => push_corners(out, &copy),
        Err(Memory) => out.note_short(),
    }
}

/// Adds a copy of what breaks an array.
pub(crate) fn push_broken(out: &mut Transcript, operands: &str) {
    let (at, kind) = front_of(operands);
    let broken = Broken {
        at: coord_in(at),
        kind: fault_of(kind).unwrap_or(FaultKind::Overflow),
    };
    match broken.copy() {
        Ok(copy) => {
            push_coord(out, &copy.at);
            push_word(out, " ");
            push_datum(out, &Datum::Bad(copy.kind));
        }
        Err(Memory) => out.note_short(),
    }
}

fn push_copied(out: &mut Transcript, row: &Row) {
    match row.copy() {
        Ok(copy) => {
            push_coord(out, &copy.at);
            push_cell(out, &copy.cell);
            drop(copy);
        }
        Err(Memory) => out.note_short(),
    }
}

/// Adds a copy of a row of two values.
pub(crate) fn push_row(out: &mut Transcript, operands: &str) {
    let (at, values) = front_of(operands);
    let (first, second) = front_of(values);
    match cell_of(out.alloc(), &[first], second) {
        Ok(cell) => {
            let at = coord_in(at);
            let row = Row { at, cell };
            push_copied(out, &row);
            drop(row);
        }
        Err(Memory) => out.note_short(),
    }
}

/// How two coordinates stand to each other in an array.
pub(crate) fn order_of(operands: &str) -> &'static str {
    let (one, other) = front_of(operands);
    let (one, other) = (coord_in(one), coord_in(other));
    if one.len() != other.len() {
        return "no order";
    }
    match row_major(&one, &other) {
        Ordering::Less => "before",
        Ordering::Equal => "equal",
        Ordering::Greater => "behind",
    }
}

/// Whether a coordinate, behind the corners of a box, lies in it.
pub(crate) fn side_of(operands: &str) -> &'static str {
    let (lo, operands) = front_of(operands);
    let (hi, at) = front_of(operands);
    if is_in_box(&bounds_of(lo, hi), &coord_in(at)) {
        "inside"
    } else {
        "outside"
    }
}
