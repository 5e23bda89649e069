//! `regrid`.
ghost use Rattle.std.specs.Prelude.{◌≡◌, ◌≤◌, [], length};
ghost use Rattle.check_rules.specs.Checked.{Answers};
ghost use Rattle.check_rules.specs.InTurn.{in_turn};
ghost use Rattle.check_groups.specs.Blocks.{block_one, blocks_of, regrid_parts, with_blocks};

use crate::aggregates::{first_but_aggregates, leading_numbers};
use crate::groups::number::number_from;
use crate::groups::source::aggregates_over;
use afl_trees::Tree;
use cell_values::{List, Schema, Span};
use check_rules::{TypeFault, broken};
use logical_plan::Aggregate;
use schema_grammar::TypeKind;
use std::alloc::Global;

/// The parts of a `regrid` besides its source.
#[derive(Drop)]
pub struct Blocks {
    /// The places of a block along each dimension.
    pub sizes: List<u64>,
    pub aggregates: List<Aggregate>,
}

/// The places of a block along each dimension.
#[tactic(auto, using(check_rules::proofs::Steps::ok_then, check_rules::proofs::Steps::err_then))]
pub fn block_sizes(alloc: Global, numbers: &[Tree]) -> Result<List<u64>, TypeFault>
    ensures { Answers result (in_turn block_one [] numbers.now) }
{
    let mut sizes = List::with_capacity(alloc, numbers.len())?;
    for number in numbers {
        let size = number_from(1, number)?;
        sizes.push(size)?;
    }
    Ok(sizes)
}

/// Blocks with their aggregates.
#[tactic(auto, using(check_rules::proofs::Steps::ok_then, check_rules::proofs::Steps::err_then))]
fn with_blocks(
    alloc: Global,
    span: Span,
    source: &Schema,
    arguments: &[Tree],
    sizes: List<u64>,
) -> Result<Blocks, TypeFault>
    requires { length source.now.attributes ≤ 64 }
    ensures { Answers result (with_blocks span source.now arguments.now sizes) }
{
    let aggregates = aggregates_over(alloc, span, source, arguments)?;
    Ok(Blocks { sizes, aggregates })
}

/// Numbers of places, and aggregates.
#[tactic(auto, using(check_rules::proofs::Steps::ok_then, check_rules::proofs::Steps::err_then))]
fn blocks_of(
    alloc: Global,
    span: Span,
    source: &Schema,
    numbers: &[Tree],
    aggregates: &[Tree],
) -> Result<Blocks, TypeFault>
    requires { length source.now.attributes ≤ 64 }
    ensures { Answers result (blocks_of span source.now numbers.now aggregates.now) }
{
    if let Some(other) = first_but_aggregates(aggregates) {
        return Err(broken(other, TypeKind::WrongType));
    }
    if numbers.len() != source.dimensions.len() || aggregates.is_empty() {
        return Err(broken(span, TypeKind::WrongCount));
    }
    let sizes = block_sizes(alloc, numbers)?;
    with_blocks(alloc, span, source, aggregates, sizes)
}

/// The parts of `regrid` over a source of this schema, with what stands behind the source.
///
/// `span` is that of the whole call.
pub fn regrid_parts(
    alloc: Global,
    span: Span,
    source: &Schema,
    arguments: &[Tree],
) -> Result<Blocks, TypeFault>
    requires { length source.now.attributes ≤ 64 }
    ensures { Answers result (regrid_parts span source.now arguments.now) }
{
    let (numbers, aggregates) = arguments.split_at(leading_numbers(arguments));
    blocks_of(alloc, span, source, numbers, aggregates)
}
