//! What aggregates of a few cells give.
//!
//! `aggregate sum 1:5 | 0:null` takes two sets of places into two states, merges them and tells the aggregate.
ghost use Rattle.std.specs.Prelude.{◌+◌, ◌≤◌, IfOk};

use crate::show::push_result;
use crate::words::front_of;
use agg_states::AggState;
use cell_values::{Datum, Memory, coord_of};
use logical_plan::AggFunction;
use std::alloc::Global;
use test_kit::{Transcript, cell_of, place_in};

/// How many places of a part are taken at most.
const LIMIT: usize = 100;

fn function_of(word: &str) -> AggFunction {
    match word {
        "sum" => AggFunction::Sum,
        "count" => AggFunction::Count,
        "count(*)" => AggFunction::CountAll,
        "min" => AggFunction::Min,
        _ => AggFunction::Max,
    }
}

/// Takes a place, whose cell has the value behind another.
fn take_place(state: &mut AggState, alloc: Global, word: &str) -> Result<(), Memory>
    requires { state.old.cells ≤ 100 }
    ensures { IfOk result (λ done. state.new.cells ≤ state.old.cells + 1) }
{
    let (at, held) = place_in(word);
    let cell = cell_of(alloc, &["true"], held)?;
    let taken = state.take(&coord_of(&[at]), &cell, 1);
    drop(cell);
    taken
}

fn taken(alloc: Global, function: AggFunction, words: &str) -> Result<AggState, Memory>
    ensures { IfOk result (λ state. state.cells ≤ 100) }
{
    let mut state = AggState::empty(function);
    let mut count = 0;
    for word in words.split_whitespace() {
        if count < LIMIT {
            take_place(&mut state, alloc, word)?;
            count += 1;
        }
    }
    Ok(state)
}

/// The aggregate of two parts, the first of which is taken first.
fn merged(
    alloc: Global,
    function: AggFunction,
    first: &str,
    second: &str,
) -> Result<Datum, Memory> {
    let first = taken(alloc, function, first)?;
    match taken(alloc, function, second) {
        Ok(second) => Ok(first.merge(second).finish()),
        Err(Memory) => {
            drop(first);
            Err(Memory)
        }
    }
}

/// Adds the aggregate of two parts.
pub(crate) fn push_aggregate(out: &mut Transcript, operands: &str) {
    let (function, places) = front_of(operands);
    let (first, second) = places.split_once('|').unwrap_or((places, ""));
    let value = merged(out.alloc(), function_of(function), first, second);
    push_result(out, value);
}
