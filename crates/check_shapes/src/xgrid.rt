//! `xgrid`.
ghost use Rattle.std.specs.Prelude.{◌≡◌, ◌^◌, ◌-◌, min, nat_le};
ghost use Rattle.logical_plan.specs.Typing.{product_of};
ghost use Rattle.check_rules.specs.Checked.{Answers};
ghost use Rattle.check_shapes.specs.Tables.{all_hold};
ghost use Rattle.check_shapes.specs.Xgrid.{bound_rules, with_sizes, xgrid_parts};

use crate::bounds::has_room;
use crate::rules::all_hold;
use afl_trees::Tree;
use cell_values::{Dimension, List, Schema, Span};
use check_groups::block_sizes;
use check_rules::{TypeFault, broken, first_but_numbers};
use schema_grammar::TypeKind;
use schema_grammar::rules::Rule;
use std::alloc::Global;

/// The most places of a block.
const MAX_BLOCK: u64 = 65536;

/// The product of the numbers, or 2^64 - 1 where it is more.
#[tactic(auto, using(crate::proofs::Room::product_on))]
fn product_of(sizes: &[u64]) -> u64
    ensures { result ≡ min (product_of sizes.now) (2 ^ 64 - 1) }
{
    match sizes {
        [] => 1,
        [size, sizes @ ..] => size.saturating_mul(product_of(sizes)),
    }
}

/// Whether a block has at most 65,536 places.
fn is_small(sizes: &[u64]) -> bool
    ensures { result ≡ nat_le (product_of sizes.now) 65536 }
{
    product_of(sizes) <= MAX_BLOCK
}

/// That each new high bound is a bound, and then another rule.
fn check_bounds(
    dimensions: &[Dimension],
    sizes: &[u64],
    arguments: &[Tree],
    last: Rule,
) -> Result<(), TypeFault>
    ensures { Answers result (all_hold (bound_rules dimensions.now sizes.now arguments.now last)) }
{
    match dimensions {
        [] => all_hold(&[last]),
        [dimension, dimensions @ ..] => match sizes {
            [] => all_hold(&[last]),
            [size, sizes @ ..] => match arguments {
                [] => all_hold(&[last]),
                [argument, arguments @ ..] => {
                    if !has_room(dimension, *size) {
                        return Err(broken(argument.span, TypeKind::BoundsRange));
                    }
                    check_bounds(dimensions, sizes, arguments, last)
                }
            },
        },
    }
}

/// The sizes, where the bounds that they give are in range and a block is not too large.
#[tactic(auto, using(check_rules::proofs::Steps::ok_then, check_rules::proofs::Steps::err_then))]
fn with_sizes(
    span: Span,
    source: &Schema,
    arguments: &[Tree],
    sizes: List<u64>,
) -> Result<List<u64>, TypeFault>
    ensures { Answers result (with_sizes span source.now arguments.now sizes) }
{
    let last = Rule {
        holds: is_small(sizes.as_slice()),
        span,
        kind: TypeKind::OutOfRange,
    };
    check_bounds(
        source.dimensions.as_slice(),
        sizes.as_slice(),
        arguments,
        last,
    )?;
    Ok(sizes)
}

/// How many places a block has along each dimension in `xgrid` over a source of this schema, with the numbers behind the source.
///
/// `span` is that of the whole call.
#[tactic(auto, using(check_rules::proofs::Steps::ok_then, check_rules::proofs::Steps::err_then))]
pub fn xgrid_parts(
    alloc: Global,
    span: Span,
    source: &Schema,
    arguments: &[Tree],
) -> Result<List<u64>, TypeFault>
    ensures { Answers result (xgrid_parts span source.now arguments.now) }
{
    if let Some(other) = first_but_numbers(arguments) {
        return Err(broken(other, TypeKind::WrongType));
    }
    if arguments.len() != source.dimensions.len() {
        return Err(broken(span, TypeKind::WrongCount));
    }
    let sizes = block_sizes(alloc, arguments)?;
    with_sizes(span, source, arguments, sizes)
}
