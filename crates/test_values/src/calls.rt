//! Calls of the value table.

use crate::show::push_result;
use crate::words::front_of;
use cell_values::{
    CompareOp, Datum, Memory, add, and3, compare, div, mul, neg, not3, or3, rem, sub,
};
use std::alloc::Global;
use test_kit::{Transcript, datum_of, push_value};

fn comparison_of(op: &str) -> CompareOp {
    match op {
        "=" => CompareOp::Equal,
        "<>" => CompareOp::Differs,
        "<" => CompareOp::Less,
        "<=" => CompareOp::AtMost,
        ">" => CompareOp::More,
        _ => CompareOp::AtLeast,
    }
}

/// What a call on two numbers but a sum gives, or a comparison.
fn worked(op: &str, a: &Datum, b: &Datum) -> Datum {
    match op {
        "-" => sub(a, b),
        "*" => mul(a, b),
        "/" => div(a, b),
        "%" => rem(a, b),
        op => compare(comparison_of(op), a, b),
    }
}

fn of_two(alloc: Global, op: &str, a: &Datum, b: &Datum) -> Result<Datum, Memory> {
    match op {
        "+" => add(alloc, a, b),
        "and" => Ok(and3(a, b)),
        "or" => Ok(or3(a, b)),
        op => Ok(worked(op, a, b)),
    }
}

/// Adds what a call with one operand gives.
pub(crate) fn push_one(out: &mut Transcript, op: &str, a: &str) {
    match datum_of(out.alloc(), a) {
        Ok(a) => {
            let value = if op == "-" { neg(&a) } else { not3(&a) };
            drop(a);
            push_value(out, value);
        }
        Err(Memory) => out.note_short(),
    }
}

/// What a call gives whose second operand is a word.
fn of_word(alloc: Global, op: &str, a: &Datum, b: &str) -> Result<Datum, Memory> {
    let b = datum_of(alloc, b)?;
    let value = of_two(alloc, op, a, &b);
    drop(b);
    value
}

/// Adds what a call with two operands gives, the first of which stands before it.
pub(crate) fn push_two(out: &mut Transcript, a: &str, behind: &str) {
    let (op, b) = front_of(behind);
    match datum_of(out.alloc(), a) {
        Ok(a) => {
            let value = of_word(out.alloc(), op, &a, b);
            drop(a);
            push_result(out, value);
        }
        Err(Memory) => out.note_short(),
    }
}
