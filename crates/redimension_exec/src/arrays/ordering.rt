//! Aggregates in the order of the attributes that are named by them.
ghost use Rattle.std.specs.Prelude.{◌≡◌, ◌++◌, IfOk, OnOk};
ghost use Rattle.std.specs.List.{filter_map};
ghost use Rattle.std.specs.Option.{option_to_list};
ghost use Rattle.logical_plan.specs.Redimension.{named};

use cell_values::{Attribute, List, Memory, Name};
use logical_plan::Aggregate;

/// Adds the first aggregate of this name, if there is one.
fn push_named(
    found: &mut List<Aggregate>,
    aggregates: &[Aggregate],
    name: &Name,
) -> Result<(), Memory>
    ensures { OnOk result (found.new ≡ found.old ++ option_to_list (named aggregates.now name.now)) }
{
    match aggregates {
        [] => Ok(()),
        [aggregate, aggregates @ ..] => {
            if aggregate.name == *name {
                return found.push(aggregate.copy()?);
            }
            push_named(found, aggregates, name)
        }
    }
}

/// The aggregates that have the names of the attributes, in the order of these.
pub(crate) fn aggregates_named(
    attributes: &List<Attribute>,
    aggregates: &[Aggregate],
) -> Result<List<Aggregate>, Memory>
    ensures { IfOk result (λ found. found ≡ filter_map (λ a. named aggregates.now a.name) attributes.now) }
{
    let mut found = attributes.another();
    for attribute in attributes.as_slice() {
        push_named(&mut found, aggregates, &attribute.name)?;
    }
    Ok(found)
}
