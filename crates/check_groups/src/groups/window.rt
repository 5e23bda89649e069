//! `window`.
ghost use Rattle.std.specs.Prelude.{◌≡◌, ◌+◌, ◌-◌, ◌*◌, ◌^◌, ◌≤◌, [], length, max, min};
ghost use Rattle.logical_plan.specs.Typing.{are_windows_of, reached_size, window_size};
ghost use Rattle.check_rules.specs.Checked.{Answers};
ghost use Rattle.check_rules.specs.InTurn.{pairs_in_turn};
ghost use Rattle.check_groups.specs.Windows.{reach_one, window_parts, windows_of, with_reach};

use crate::aggregates::{first_but_aggregates, leading_numbers};
use crate::groups::number::number_from;
use crate::groups::source::aggregates_over;
use afl_trees::Tree;
use cell_values::{Dimension, List, Schema, Span};
use check_rules::{TypeFault, broken};
use logical_plan::{Aggregate, Reach};
use schema_grammar::TypeKind;
use std::alloc::Global;

/// The most places of a window.
const MAX_WINDOW: u64 = 16777216;

/// The most places of a chunk with what the windows of its cells reach.
const MAX_REACHED: u64 = 281474976710656;

/// The parts of a `window` besides its source.
#[derive(Drop)]
pub struct Windows {
    /// How far a window reaches along each dimension.
    pub reach: List<Reach>,
    pub aggregates: List<Aggregate>,
}

/// How many places a window has along a dimension, or 2^64 - 1 where they are more.
fn window_length(reach: &Reach) -> u64
    ensures { result ≡ min (reach.now.before + reach.now.after + 1) (2 ^ 64 - 1) }
{
    reach.before.saturating_add(reach.after).saturating_add(1)
}

/// How many places a window has, or 2^64 - 1 where they are more.
#[tactic(auto, using(crate::proofs::Sizes::window_on))]
fn window_size(reach: &[Reach]) -> u64
    ensures { result ≡ min (window_size reach.now) (2 ^ 64 - 1) }
{
    match reach {
        [] => 1,
        [first, rest @ ..] => window_length(first).saturating_mul(window_size(rest)),
    }
}

/// How many places a chunk and its windows have along a dimension, or 2^64 - 1 where they are more.
fn reached_length(dimension: &Dimension, reach: &Reach) -> u64
    ensures { result ≡ min (dimension.now.chunk + 2 * max dimension.now.overlap (max reach.now.before reach.now.after)) (2 ^ 64 - 1) }
{
    let farthest = dimension.overlap.max(reach.before.max(reach.after));
    dimension.chunk.saturating_add(farthest.saturating_mul(2))
}

/// How many places a chunk and its windows have, or 2^64 - 1 where they are more.
#[tactic(auto, using(crate::proofs::Sizes::reached_on))]
fn reached_size(dimensions: &[Dimension], reach: &[Reach]) -> u64
    ensures { result ≡ min (reached_size dimensions.now reach.now) (2 ^ 64 - 1) }
{
    match dimensions {
        [] => 1,
        [dimension, dimensions @ ..] => match reach {
            [] => 1,
            [first, rest @ ..] => {
                reached_length(dimension, first).saturating_mul(reached_size(dimensions, rest))
            }
        },
    }
}

/// Whether windows that reach so far are small enough.
fn are_windows_of(source: &Schema, reach: &[Reach]) -> bool
    ensures { result ≡ are_windows_of source.now reach.now }
{
    reach.len() == source.dimensions.len()
        && window_size(reach) <= MAX_WINDOW
        && reached_size(source.dimensions.as_slice(), reach) <= MAX_REACHED
}

/// How far a window reaches before and after its centre.
#[tactic(auto, using(check_rules::proofs::Steps::ok_then, check_rules::proofs::Steps::err_then))]
fn reach_one(before: &Tree, after: &Tree) -> Result<Reach, TypeFault>
    ensures { Answers result (reach_one [] before.now after.now) }
{
    let before = number_from(0, before)?;
    let after = number_from(0, after)?;
    Ok(Reach { before, after })
}

/// How far a window reaches along each dimension, two numbers for each.
#[tactic(auto, using(check_rules::proofs::Steps::ok_then, check_rules::proofs::Steps::err_then))]
fn reach_of(alloc: Global, numbers: &[Tree]) -> Result<List<Reach>, TypeFault>
    ensures { Answers result (pairs_in_turn reach_one [] numbers.now) }
{
    let mut done = List::new(alloc);
    let mut left = numbers;
    while let [before, after, rest @ ..] = left {
        let reach = reach_one(before, after)?;
        done.push(reach)?;
        left = rest;
    }
    Ok(done)
}

/// Windows that are small enough, with their aggregates.
#[tactic(auto, using(check_rules::proofs::Steps::ok_then, check_rules::proofs::Steps::err_then))]
fn with_reach(
    alloc: Global,
    span: Span,
    source: &Schema,
    arguments: &[Tree],
    reach: List<Reach>,
) -> Result<Windows, TypeFault>
    requires { length source.now.attributes ≤ 64 }
    ensures { Answers result (with_reach span source.now arguments.now reach) }
{
    if !are_windows_of(source, reach.as_slice()) {
        return Err(broken(span, TypeKind::WindowTooLarge));
    }
    let aggregates = aggregates_over(alloc, span, source, arguments)?;
    Ok(Windows { reach, aggregates })
}

/// Numbers of places before and after, and aggregates.
#[tactic(auto, using(check_rules::proofs::Steps::ok_then, check_rules::proofs::Steps::err_then))]
fn windows_of(
    alloc: Global,
    span: Span,
    source: &Schema,
    numbers: &[Tree],
    aggregates: &[Tree],
) -> Result<Windows, TypeFault>
    requires attributes { length source.now.attributes ≤ 64 }
    requires dimensions { length source.now.dimensions ≤ 6 }
    ensures { Answers result (windows_of span source.now numbers.now aggregates.now) }
{
    if let Some(other) = first_but_aggregates(aggregates) {
        return Err(broken(other, TypeKind::WrongType));
    }
    if numbers.len() != 2 * source.dimensions.len() || aggregates.is_empty() {
        return Err(broken(span, TypeKind::WrongCount));
    }
    let reach = reach_of(alloc, numbers)?;
    with_reach(alloc, span, source, aggregates, reach)
}

/// The parts of `window` over a source of this schema, with what stands behind the source.
///
/// `span` is that of the whole call.
pub fn window_parts(
    alloc: Global,
    span: Span,
    source: &Schema,
    arguments: &[Tree],
) -> Result<Windows, TypeFault>
    requires attributes { length source.now.attributes ≤ 64 }
    requires dimensions { length source.now.dimensions ≤ 6 }
    ensures { Answers result (window_parts span source.now arguments.now) }
{
    let (numbers, aggregates) = arguments.split_at(leading_numbers(arguments));
    windows_of(alloc, span, source, numbers, aggregates)
}
