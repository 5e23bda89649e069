//! The attributes that plans compute.
ghost use Rattle.std.specs.Prelude.{◌≡◌, ◌++◌, ◌∷◌, [], IfOk, OnOk};
ghost use Rattle.logical_plan.specs.Boxes.{by_pairs};
ghost use Rattle.logical_plan.specs.BoxOps.{items_at};
ghost use Rattle.logical_plan.specs.PlanSchema.{derived, aggregate_kind, aggregate_attributes, rank_name, with_rank};
ghost use Rattle.logical_plan.specs.ShapeSchemas.{either_of};

use cell_values::{Attribute, Bytes, Kind, List, Memory, Name};
use logical_plan::{AggFunction, Aggregate};
use std::alloc::Global;

pub(crate) fn derived_attribute(name: &Name, kind: Kind) -> Result<Attribute, Memory>
    ensures { IfOk result (λ attribute. attribute ≡ derived name.now kind) }
{
    Ok(Attribute {
        name: name.copy()?,
        kind,
        nullable: true,
    })
}

fn kind_of_result(attributes: &List<Attribute>, aggregate: &Aggregate) -> Kind
    ensures { result ≡ aggregate_kind attributes.now aggregate.now }
{
    match aggregate.function {
        AggFunction::Min | AggFunction::Max => {
            match attributes.get(aggregate.attribute as usize) {
                Some(attribute) => attribute.kind,
                None => Kind::Int64,
            }
        }
        AggFunction::Sum | AggFunction::Count | AggFunction::CountAll => Kind::Int64,
    }
}

pub(crate) fn attributes_of_aggregates(
    attributes: &List<Attribute>,
    aggregates: &List<Aggregate>,
) -> Result<List<Attribute>, Memory>
    ensures { IfOk result (λ made. made ≡ aggregate_attributes attributes.now aggregates.now) }
{
    let mut made = List::with_capacity(attributes.allocator(), aggregates.len())?;
    for aggregate in aggregates.as_slice() {
        let kind = kind_of_result(attributes, aggregate);
        made.push(derived_attribute(&aggregate.name, kind)?)?;
    }
    Ok(made)
}

/// The name of the rank of an attribute.
#[tactic(auto, using(crate::proofs::RankNames::rank_is_name))]
fn rank_name(alloc: Global, name: &Name) -> Result<Name, Memory>
    ensures { IfOk result (λ made. made ≡ rank_name name.now) }
{
    let mut bytes = Bytes::from_slice(alloc, name.as_slice())?;
    bytes.extend(b"_rank".as_slice())?;
    bytes.truncate(64);
    let Some(made) = Name::new(bytes) else {
        unreachable!()
    };
    Ok(made)
}

/// The attribute at a place, and its rank.
pub(crate) fn with_rank(attributes: &List<Attribute>, place: u32) -> Result<List<Attribute>, Memory>
    ensures { IfOk result (λ made. made ≡ with_rank (items_at (place ∷ []) attributes.now)) }
{
    let mut made = attributes.another();
    if let Some(attribute) = attributes.get(place as usize) {
        made.push(attribute.copy()?)?;
        made.push(derived_attribute(
            &rank_name(attributes.allocator(), &attribute.name)?,
            Kind::Int64,
        )?)?;
    }
    Ok(made)
}

/// The left attribute, which may be null where either may be.
fn either(left: &Attribute, right: &Attribute) -> Result<Attribute, Memory>
    ensures { IfOk result (λ made. made ≡ either_of left.now right.now) }
{
    Ok(Attribute {
        name: left.name.copy()?,
        kind: left.kind,
        nullable: left.nullable || right.nullable,
    })
}

fn push_either(
    made: &mut List<Attribute>,
    left: &[Attribute],
    right: &[Attribute],
) -> Result<(), Memory>
    ensures { OnOk result (made.new ≡ made.old ++ by_pairs either_of left.now right.now) }
{
    match left {
        [] => Ok(()),
        [a, left @ ..] => match right {
            [] => Ok(()),
            [b, right @ ..] => {
                made.push(either(a, b)?)?;
                push_either(made, left, right)
            }
        },
    }
}

/// The left's attributes, which may be null where those of either may be.
pub(crate) fn either_attributes(
    left: &List<Attribute>,
    right: &List<Attribute>,
) -> Result<List<Attribute>, Memory>
    ensures { IfOk result (λ made. made ≡ by_pairs either_of left.now right.now) }
{
    let mut made = left.another();
    push_either(&mut made, left.as_slice(), right.as_slice())?;
    Ok(made)
}
