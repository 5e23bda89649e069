//! What the last operator of a plan makes of arrays that may be broken: where one of them is, an
//! array that the same cell breaks.
ghost use Rattle.std.specs.Prelude.{◌≡◌, [], ◌∷◌, Err as Bad, IfOk};
ghost use Rattle.cell_values.specs.Schemas.{IsValid};
ghost use Rattle.array_geom.specs.Link.{Is};
ghost use Rattle.logical_plan.specs.Arity.{binary_query, unary_query};
ghost use Rattle.chunk_exec.specs.Inner.Operated.{CanOperate, IsResultOf};

use crate::plans::operators::{of_one, of_two};
use afl_outside::Gate;
use array_geom::{ChunkedArray, margins_of};
use cell_values::{Broken, Memory, Schema};
use chunk_cells::broken_array;
use chunk_workers::Crew;
use logical_plan::{BinaryNode, Plan, UnaryNode};
use plan_schemas::schema_of;
use std::alloc::Global;
use std::thread::Threads;

/// The array of a schema that this cell breaks.
#[tactic(auto, using(array_geom::proofs::MarginLaws::overlap_each))]
fn broken_result(schema: &Schema, broken: &Broken) -> Result<ChunkedArray, Memory>
    requires { IsValid schema.now }
    ensures { IfOk result (λ array. Is array (record { schema = schema.now; rows = Bad broken.now })) }
{
    broken_array(schema, &margins_of(schema), broken)
}

/// The array of a plan of one source, broken where the source is.
#[tactic(auto, using(logical_plan::proofs::SchemaLaws::typed_valid))]
pub(crate) fn unary_result<R: Threads + Sync, G: Gate>(
    crew: &mut Crew<'_, R, G>,
    alloc: Global,
    plan: &Plan,
    from: &Plan,
    node: UnaryNode<'_>,
    array: ChunkedArray,
) -> Result<ChunkedArray, Memory>
    requires can { CanOperate plan.now (array ∷ []) }
    requires node { plan.now ≡ unary_query node from.now }
    ensures { IfOk result (IsResultOf plan.now (array ∷ [])) }
{
    let target = schema_of(alloc, plan)?;
    match &array.broken {
        Some(broken) => broken_result(&target, broken),
        None => of_one(crew, plan, from, node, array, target),
    }
}

/// The array of a plan of two sources, broken where one of them is. Of two broken ones the left one
/// decides.
#[tactic(auto, using(logical_plan::proofs::SchemaLaws::typed_valid))]
pub(crate) fn binary_result<R: Threads + Sync, G: Gate>(
    crew: &mut Crew<'_, R, G>,
    alloc: Global,
    plan: &Plan,
    left: &Plan,
    right: &Plan,
    node: BinaryNode<'_>,
    a: ChunkedArray,
    b: ChunkedArray,
) -> Result<ChunkedArray, Memory>
    requires can { CanOperate plan.now (a ∷ b ∷ []) }
    requires node { plan.now ≡ binary_query node left.now right.now }
    ensures { IfOk result (IsResultOf plan.now (a ∷ b ∷ [])) }
{
    let target = schema_of(alloc, plan)?;
    match &a.broken {
        Some(broken) => broken_result(&target, broken),
        None => match &b.broken {
            Some(broken) => broken_result(&target, broken),
            None => of_two(crew, plan, left, right, node, a, b, &target),
        },
    }
}
