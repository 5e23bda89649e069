//! Operators over the array, and over one with a cell in doubt, executed over a source.
ghost use Rattle.std.specs.Prelude.{◌≡◌, ◌∷◌, [], None, IfOk};
ghost use Rattle.chunk_source.specs.Source.{Reads};
ghost use Rattle.logical_plan.specs.Query.{reversed};
ghost use Rattle.test_sources.specs.Example.{leaf};
ghost use Rattle.test_sources.specs.Operators.{counting, front_of, input_of, plan_of, stored};
ghost use Rattle.test_sources.specs.Operators.{sorted_schema, total, unpacked_schema};
ghost use Rattle.test_sources.specs.declared.layout.Layout.TheVariants.{Pairs};

use crate::changes::by_zero;
use crate::example::{attributes, example_leaf};
use crate::layout::Layout;
use crate::plans::{above_five, push_plan};
use cell_values::{Attribute, Dimension, Kind, List, Memory, Schema};
use chunk_source::ChunkSource;
use logical_plan::{AggFunction, Aggregate, Plan, let_go};
use std::alloc::Global;
use std::thread::Threads;
use test_kit::{Transcript, name_of, one_more};

/// An operator over the array, with all that it needs beside.
#[derive(Clone, Copy)]
pub(crate) enum Operator {
    /// By `v`.
    Sort,
    /// Of `v`, among all cells.
    Rank,
    /// The sum of `v` along `i`.
    Cumulate,
    Transpose,
    Reverse,
    /// Along `r`.
    Unpack,
    /// Each cell twice.
    Xgrid,
    /// With the stored array, reversed.
    Merge,
    /// The stored array behind it.
    Concat,
}

/// Over what an operator is executed.
#[derive(Clone, Copy)]
pub(crate) enum Input {
    /// The stored array; merged, its cells above 5.
    Stored,
    /// A filter of it whose test has a fault at one of its cells, and is false at the other.
    Doubtful,
}

/// The operator of a word.
pub(crate) fn operator_of(word: &str) -> Operator {
    match word {
        "sort" => Operator::Sort,
        "rank" => Operator::Rank,
        "cumulate" => Operator::Cumulate,
        "transpose" => Operator::Transpose,
        "reverse" => Operator::Reverse,
        "unpack" => Operator::Unpack,
        "xgrid" => Operator::Xgrid,
        "merge" => Operator::Merge,
        _ => Operator::Concat,
    }
}

fn stored(alloc: Global) -> Result<Plan, Memory>
    ensures { IfOk result (λ plan. plan ≡ stored) }
{
    Ok(Plan::scan(example_leaf(alloc, Layout::Pairs)?))
}

fn input_of(alloc: Global, input: Input) -> Result<Plan, Memory>
    ensures { IfOk result (λ plan. plan ≡ input_of input) }
{
    match input {
        Input::Stored => stored(alloc),
        Input::Doubtful => by_zero(alloc, Layout::Pairs),
    }
}

fn front_of(alloc: Global, input: Input) -> Result<Plan, Memory>
    ensures { IfOk result (λ plan. plan ≡ front_of input) }
{
    match input {
        Input::Stored => above_five(alloc, Layout::Pairs),
        Input::Doubtful => by_zero(alloc, Layout::Pairs),
    }
}

/// `NAME=0:*,1000,0`
fn counting(alloc: Global, name: &[u8]) -> Result<List<Dimension>, Memory>
    ensures { IfOk result (λ made. made ≡ counting name.now ∷ []) }
{
    let dimension = Dimension {
        name: name_of(alloc, name)?,
        lo: 0,
        hi: 4611686018427387903,
        chunk: 1000,
        overlap: 0,
    };
    one_more(List::new(alloc), dimension)
}

fn sorted_schema(alloc: Global) -> Result<Schema, Memory>
    ensures { IfOk result (λ made. made ≡ sorted_schema) }
{
    Ok(Schema {
        attributes: attributes(alloc)?,
        dimensions: counting(alloc, b"n")?,
    })
}

fn unpacked_attributes(alloc: Global) -> Result<List<Attribute>, Memory>
    ensures { IfOk result (λ made. made ≡ unpacked_schema.attributes) }
{
    let place = Attribute {
        name: name_of(alloc, b"i")?,
        kind: Kind::Int64,
        nullable: false,
    };
    let value = Attribute {
        name: name_of(alloc, b"v")?,
        kind: Kind::Int64,
        nullable: true,
    };
    one_more(one_more(List::new(alloc), place)?, value)
}

fn unpacked_schema(alloc: Global) -> Result<Schema, Memory>
    ensures { IfOk result (λ made. made ≡ unpacked_schema) }
{
    Ok(Schema {
        attributes: unpacked_attributes(alloc)?,
        dimensions: counting(alloc, b"r")?,
    })
}

fn totals(alloc: Global) -> Result<List<Aggregate>, Memory>
    ensures { IfOk result (λ made. made ≡ total ∷ []) }
{
    let total = Aggregate {
        function: AggFunction::Sum,
        attribute: 0,
        name: name_of(alloc, b"v_sum")?,
    };
    one_more(List::new(alloc), total)
}

/// The array sorted.
fn sort_of(alloc: Global, input: Input) -> Result<Plan, Memory>
    ensures { IfOk result (λ plan. plan ≡ plan_of Operator.Sort input) }
{
    let keys = one_more(List::new(alloc), 0u32)?;
    let schema = sorted_schema(alloc)?;
    Plan::sort(alloc, input_of(alloc, input)?, keys, schema)
}

/// The ranks of the array's values.
fn rank_of(alloc: Global, input: Input) -> Result<Plan, Memory>
    ensures { IfOk result (λ plan. plan ≡ plan_of Operator.Rank input) }
{
    Plan::rank(alloc, input_of(alloc, input)?, 0, List::new(alloc))
}

/// The sums along the array.
fn cumulate_of(alloc: Global, input: Input) -> Result<Plan, Memory>
    ensures { IfOk result (λ plan. plan ≡ plan_of Operator.Cumulate input) }
{
    let totals = totals(alloc)?;
    Plan::cumulate(alloc, input_of(alloc, input)?, totals, 0)
}

/// The array unpacked.
fn unpack_of(alloc: Global, input: Input) -> Result<Plan, Memory>
    ensures { IfOk result (λ plan. plan ≡ plan_of Operator.Unpack input) }
{
    let schema = unpacked_schema(alloc)?;
    Plan::unpack(alloc, input_of(alloc, input)?, schema)
}

/// Each cell of the array twice.
fn xgrid_of(alloc: Global, input: Input) -> Result<Plan, Memory>
    ensures { IfOk result (λ plan. plan ≡ plan_of Operator.Xgrid input) }
{
    let sizes = one_more(List::new(alloc), 2u64)?;
    Plan::xgrid(alloc, input_of(alloc, input)?, sizes)
}

fn reversed(alloc: Global) -> Result<Plan, Memory>
    ensures { IfOk result (λ plan. plan ≡ reversed stored) }
{
    Plan::reverse(alloc, stored(alloc)?)
}

/// An array merged with the stored one, reversed.
fn merge_of(alloc: Global, input: Input) -> Result<Plan, Memory>
    ensures { IfOk result (λ plan. plan ≡ plan_of Operator.Merge input) }
{
    let right = reversed(alloc)?;
    match front_of(alloc, input) {
        Ok(left) => Plan::merge(alloc, left, right),
        Err(Memory) => {
            let_go(right);
            Err(Memory)
        }
    }
}

/// The stored array behind an array.
fn concat_of(alloc: Global, input: Input) -> Result<Plan, Memory>
    ensures { IfOk result (λ plan. plan ≡ plan_of Operator.Concat input) }
{
    let right = stored(alloc)?;
    match input_of(alloc, input) {
        Ok(left) => Plan::concat(alloc, left, right),
        Err(Memory) => {
            let_go(right);
            Err(Memory)
        }
    }
}

fn plan_of(alloc: Global, operator: Operator, input: Input) -> Result<Plan, Memory>
    ensures { IfOk result (λ plan. plan ≡ plan_of operator input) }
{
    match operator {
        Operator::Sort => sort_of(alloc, input),
        Operator::Rank => rank_of(alloc, input),
        Operator::Cumulate => cumulate_of(alloc, input),
        Operator::Transpose => Plan::transpose(alloc, input_of(alloc, input)?),
        Operator::Reverse => Plan::reverse(alloc, input_of(alloc, input)?),
        Operator::Unpack => unpack_of(alloc, input),
        Operator::Xgrid => xgrid_of(alloc, input),
        Operator::Merge => merge_of(alloc, input),
        Operator::Concat => concat_of(alloc, input),
    }
}

/// Executes an operator over a source that has the array.
#[tactic(auto, using(crate::proofs::Operated::can_execute))]
pub(crate) fn push_operator<S: ChunkSource, R: Threads + Sync>(
    rt: &R,
    out: &mut Transcript,
    source: &mut S,
    operator: Operator,
    input: Input,
)
    requires undamaged { (S.state source.old).damaged ≡ None }
    requires reads { Reads (S.state source.old) (leaf Pairs) }
{
    match plan_of(out.alloc(), operator, input) {
        Ok(plan) => {
            push_plan(rt, out, source, &plan);
            let_go(plan);
        }
        Err(Memory) => out.note_short(),
    }
}
