//! `cross_join`.
ghost use Rattle.std.specs.Prelude.{◌≡◌, ◌==◌, ◌≤◌, ◌++◌, ◌∷◌, [], if◌then◌else◌, length, IfOk, OnOk};
ghost use Rattle.std.specs.List.{list_any};
ghost use Rattle.logical_plan.specs.BoxOps.{items_but};
ghost use Rattle.logical_plan.specs.Joins.{right_places};
ghost use Rattle.logical_plan.specs.PlanSchema.{cross_schema};
ghost use Rattle.check_rules.specs.Checked.{Answers};
ghost use Rattle.check_rules.specs.InTurn.{pairs_in_turn};
ghost use Rattle.check_joins.specs.Crosses.{crossed_by, crossed_schema, cross_parts, pair_beside, pair_one};

use crate::beside::{attributes_of_both, beside};
use afl_trees::Tree;
use cell_values::{Dimension, List, Memory, Schema, Span};
use check_groups::dimension_one;
use check_rules::{TypeFault, broken, first_but_names};
use logical_plan::Pair;
use schema_grammar::TypeKind;
use std::alloc::Global;

/// The parts of a `cross_join` besides its sources.
#[derive(Drop)]
pub struct Crossed {
    pub pairs: List<Pair>,
    /// The schema of the result.
    pub schema: Schema,
}

fn has_place(places: &[u32], place: u32) -> bool
    ensures { result ≡ list_any (λ other. other == place) places.now }
{
    places.iter().any(|other| *other == place)
}

/// The dimensions that a left and a right name pair, beside those that are paired already.
#[tactic(auto, using(check_rules::proofs::Steps::ok_then, check_rules::proofs::Steps::err_then))]
fn pair_one(
    left: &[Dimension],
    lefts: &[u32],
    right: &[Dimension],
    rights: &[u32],
    left_name: &Tree,
    right_name: &Tree,
) -> Result<Pair, TypeFault>
    requires left { length left.now ≤ 6 }
    requires right { length right.now ≤ 6 }
    ensures { Answers result (pair_beside left.now lefts.now right.now rights.now left_name.now right_name.now) }
{
    let a = dimension_one(left, lefts, left_name)?;
    let b = dimension_one(right, rights, right_name)?;
    Ok(Pair { left: a, right: b })
}

/// The dimensions that names pair.
#[tactic(auto, using(check_rules::proofs::Steps::ok_then, check_rules::proofs::Steps::err_then))]
fn pairs_of(
    alloc: Global,
    left: &[Dimension],
    right: &[Dimension],
    arguments: &[Tree],
) -> Result<List<Pair>, TypeFault>
    requires left { length left.now ≤ 6 }
    requires right { length right.now ≤ 6 }
    ensures { Answers result (pairs_in_turn (pair_one left.now right.now) [] arguments.now) }
{
    let mut done = List::new(alloc);
    let mut lefts: List<u32> = List::new(alloc);
    let mut rights: List<u32> = List::new(alloc);
    let mut names = arguments;
    while let [left_name, right_name, rest @ ..] = names {
        let pair = pair_one(
            left,
            lefts.as_slice(),
            right,
            rights.as_slice(),
            left_name,
            right_name,
        )?;
        done.push(pair)?;
        lefts.push(pair.left)?;
        rights.push(pair.right)?;
        names = rest;
    }
    Ok(done)
}

/// The places of the right's dimensions in pairs.
fn right_places(alloc: Global, pairs: &[Pair]) -> Result<List<u32>, Memory>
    ensures { IfOk result (λ places. places ≡ right_places pairs.now) }
{
    let mut places = List::with_capacity(alloc, pairs.len())?;
    for pair in pairs {
        places.push(pair.right)?;
    }
    Ok(places)
}

fn push_unless(
    dimensions: &mut List<Dimension>,
    is_left_out: bool,
    dimension: &Dimension,
) -> Result<(), Memory>
    ensures { OnOk result (dimensions.new ≡ dimensions.old ++ (if is_left_out then [] else dimension.now ∷ [])) }
{
    if is_left_out {
        Ok(())
    } else {
        dimensions.push(dimension.copy()?)
    }
}

/// Adds the dimensions at other places than these.
#[tactic(auto, using(crate::proofs::Unpaired::unpaired_step))]
fn push_unpaired(
    both: &mut List<Dimension>,
    dimensions: &[Dimension],
    places: &[u32],
) -> Result<(), Memory>
    requires { length dimensions.now ≤ 6 }
    ensures { OnOk result (both.new ≡ both.old ++ items_but places.now 0 dimensions.now) }
{
    for (place, dimension) in dimensions.iter().enumerate() {
        push_unless(both, has_place(places, place as u32), dimension)?;
    }
    Ok(())
}

/// The dimensions of the left, and those of the right that are not paired.
fn dimensions_of_both(
    left: &List<Dimension>,
    right: &[Dimension],
    pairs: &[Pair],
) -> Result<List<Dimension>, Memory>
    requires { length right.now ≤ 6 }
    ensures { IfOk result (λ both. both ≡ left.now ++ items_but (right_places pairs.now) 0 right.now) }
{
    let paired = right_places(left.allocator(), pairs)?;
    let mut both = left.copy()?;
    push_unpaired(&mut both, right, paired.as_slice())?;
    Ok(both)
}

/// The schema of `cross_join` by these pairs.
fn crossed_schema(
    alloc: Global,
    span: Span,
    pairs: &[Pair],
    left: &Schema,
    right: &Schema,
) -> Result<Schema, TypeFault>
    requires { length right.now.dimensions ≤ 6 }
    ensures { Answers result (crossed_schema span pairs.now left.now right.now) }
{
    let dimensions = dimensions_of_both(&left.dimensions, right.dimensions.as_slice(), pairs)?;
    let attributes = attributes_of_both(&left.attributes, &right.attributes)?;
    beside(alloc, span, dimensions.as_slice(), attributes.as_slice())
}

/// Pairs with the schema of `cross_join`.
#[tactic(auto, using(check_rules::proofs::Steps::ok_then, check_rules::proofs::Steps::err_then))]
fn crossed_by(
    alloc: Global,
    span: Span,
    left: &Schema,
    right: &Schema,
    pairs: List<Pair>,
) -> Result<Crossed, TypeFault>
    requires { length right.now.dimensions ≤ 6 }
    ensures { Answers result (crossed_by span left.now right.now pairs) }
{
    let schema = crossed_schema(alloc, span, pairs.as_slice(), left, right)?;
    Ok(Crossed { pairs, schema })
}

/// The pairs and the schema of `cross_join` over sources of these schemas, with the names behind the sources.
///
/// `span` is that of the whole call.
#[tactic(auto, using(check_rules::proofs::Steps::ok_then, check_rules::proofs::Steps::err_then))]
pub fn cross_parts(
    alloc: Global,
    span: Span,
    left: &Schema,
    right: &Schema,
    arguments: &[Tree],
) -> Result<Crossed, TypeFault>
    requires left { length left.now.dimensions ≤ 6 }
    requires right { length right.now.dimensions ≤ 6 }
    ensures answer { Answers result (cross_parts span left.now right.now arguments.now) }
    ensures schema { IfOk result (λ parts. parts.schema ≡ cross_schema parts.pairs left.now right.now) }
{
    if let Some(other) = first_but_names(arguments) {
        return Err(broken(other, TypeKind::WrongType));
    }
    let pairs = pairs_of(
        alloc,
        left.dimensions.as_slice(),
        right.dimensions.as_slice(),
        arguments,
    )?;
    crossed_by(alloc, span, left, right, pairs)
}
