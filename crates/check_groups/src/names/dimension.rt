//! Dimensions that are named.
ghost use Rattle.std.specs.Prelude.{◌≡◌, ◌≤◌, [], length};
ghost use Rattle.check_exprs.specs.Expressions.{dimension_place};
ghost use Rattle.check_rules.specs.InTurn.{in_turn, new_place};
ghost use Rattle.check_rules.specs.Checked.{Answers};
ghost use Rattle.check_groups.specs.Names.{dimension_one};

use afl_trees::{Node, Tree};
use cell_values::{Dimension, List, Span};
use check_exprs::dimension_place;
use check_rules::{TypeFault, new_place, wrong_type};
use std::alloc::Global;

/// The place of the dimension of a name, written at a place.
fn place_named(
    dimensions: &[Dimension],
    done: &[u32],
    span: Span,
    name: &[u8],
) -> Result<u32, TypeFault>
    requires { length dimensions.now ≤ 6 }
    ensures { Answers result (new_place span done.now (dimension_place dimensions.now name.now)) }
{
    new_place(span, done, dimension_place(dimensions, name))
}

/// The place of the dimension that an argument names, which is not among those before.
pub fn dimension_one(dimensions: &[Dimension], done: &[u32], name: &Tree) -> Result<u32, TypeFault>
    requires { length dimensions.now ≤ 6 }
    ensures { Answers result (dimension_one dimensions.now done.now name.now) }
{
    match &name.node {
        Node::Ref(known) => place_named(dimensions, done, name.span, known.as_slice()),
        _ => Err(wrong_type(name)),
    }
}

/// The places of the dimensions of these names, from 0, each of which is there and named once.
#[tactic(auto, using(check_rules::proofs::Steps::ok_then, check_rules::proofs::Steps::err_then))]
pub fn dimension_places(
    alloc: Global,
    dimensions: &[Dimension],
    names: &[Tree],
) -> Result<List<u32>, TypeFault>
    requires { length dimensions.now ≤ 6 }
    ensures { Answers result (in_turn (dimension_one dimensions.now) [] names.now) }
{
    let mut places = List::new(alloc);
    for name in names {
        let place = dimension_one(dimensions, places.as_slice(), name)?;
        places.push(place)?;
    }
    Ok(places)
}
