//! Changes of the array: the chunks that they write.
ghost use Rattle.std.specs.Prelude.{◌≡◌, None, IfOk, codes};
ghost use Rattle.plan_changes.specs.declared.change.Change.TheVariants.{Insert};
ghost use Rattle.chunk_source.specs.Source.{Reads};
ghost use Rattle.changed_chunks.specs.Changing.{CanChange};
ghost use Rattle.test_sources.specs.Changed.{by_zero, change_of, plan_of, share, target_of, version_of};
ghost use Rattle.test_sources.specs.Example.{leaf, schema};
ghost use Rattle.test_sources.specs.declared.changes.Case.TheVariants.{Stores};

use crate::example::{example_leaf, schema};
use crate::layout::Layout;
use crate::plans::above_five;
use crate::show::{push_broken, push_cause, push_chunks, push_faults};
use afl_outside::OpenGate;
use array_geom::Changed;
use cell_values::{Broken, CompareOp, Datum, Memory};
use changed_chunks::{Asking, changed};
use chunk_source::{ChunkSource, ExecFault};
use expr_nulls::{ArithOp, TypedExpr};
use logical_plan::{Leaf, Plan};
use plan_changes::{Change, let_go_change};
use std::alloc::Global;
use std::thread::Threads;
use test_kit::{Transcript, name_of, push_word};

/// What is made of the array of a plan.
#[derive(Clone, Copy)]
pub(crate) enum Case {
    /// It is stored.
    Stores,
    /// It is put into the array.
    Inserts,
    /// It is put into an array without versions.
    Begins,
    /// One with a fault is put into the array.
    Faults,
}

/// The case of a word.
pub(crate) fn case_of(word: &str) -> Case {
    match word {
        "store" => Case::Stores,
        "insert" => Case::Inserts,
        "begin" => Case::Begins,
        _ => Case::Faults,
    }
}

/// The version over which the change is made.
fn version_of(case: Case) -> u32
    ensures { result ≡ version_of case }
{
    match case {
        Case::Stores => 0,
        Case::Inserts => 1,
        Case::Begins => 0,
        Case::Faults => 1,
    }
}

fn target_of(alloc: Global, case: Case, layout: Layout) -> Result<Leaf, Memory>
    ensures { IfOk result (λ made. made ≡ target_of case layout) }
{
    Ok(Leaf {
        name: name_of(alloc, b"a")?,
        version: version_of(case),
        schema: schema(alloc, layout)?,
    })
}

/// `1/(v-5)`
fn share(alloc: Global) -> Result<TypedExpr, Memory>
    ensures { IfOk result (λ made. made ≡ share) }
{
    let five = TypedExpr::lit(Datum::Int(5));
    let less = TypedExpr::arith(alloc, ArithOp::Sub, TypedExpr::attr(0), five)?;
    TypedExpr::arith(alloc, ArithOp::Div, TypedExpr::lit(Datum::Int(1)), less)
}

/// `filter(a, 1/(v-5)>0)`
pub(crate) fn by_zero(alloc: Global, layout: Layout) -> Result<Plan, Memory>
    ensures { IfOk result (λ plan. plan ≡ by_zero layout) }
{
    let leaf = example_leaf(alloc, layout)?;
    let share = share(alloc)?;
    let none = TypedExpr::lit(Datum::Int(0));
    let test = TypedExpr::compare(alloc, CompareOp::More, share, none)?;
    Plan::filter(alloc, Plan::scan(leaf), test)
}

fn plan_of(alloc: Global, case: Case, layout: Layout) -> Result<Plan, Memory>
    ensures { IfOk result (λ plan. plan ≡ plan_of case layout) }
{
    match case {
        Case::Stores => above_five(alloc, layout),
        Case::Inserts => above_five(alloc, layout),
        Case::Begins => above_five(alloc, layout),
        Case::Faults => by_zero(alloc, layout),
    }
}

/// The array of a plan, stored as `b`.
fn store_of(alloc: Global, layout: Layout) -> Result<Change, Memory>
    ensures { IfOk result (λ change. change ≡ change_of Stores layout) }
{
    let name = name_of(alloc, b"b")?;
    let schema = schema(alloc, layout)?;
    let plan = plan_of(alloc, Case::Stores, layout)?;
    Ok(Change::Store { name, schema, plan })
}

/// The array of a plan, put into `a`.
fn insert_of(alloc: Global, case: Case, layout: Layout) -> Result<Change, Memory>
    ensures { IfOk result (λ change. change ≡ Insert (codes "a") (schema layout) (plan_of case layout)) }
{
    let name = name_of(alloc, b"a")?;
    let schema = schema(alloc, layout)?;
    let plan = plan_of(alloc, case, layout)?;
    Ok(Change::Insert { name, schema, plan })
}

fn change_of(alloc: Global, case: Case, layout: Layout) -> Result<Change, Memory>
    ensures { IfOk result (λ change. change ≡ change_of case layout) }
{
    match case {
        Case::Stores => store_of(alloc, layout),
        Case::Inserts => insert_of(alloc, case, layout),
        Case::Begins => insert_of(alloc, case, layout),
        Case::Faults => insert_of(alloc, case, layout),
    }
}

fn push_written(out: &mut Transcript, made: &Changed) {
    let title = if made.whole {
        "all chunks\n"
    } else {
        "these chunks\n"
    };
    push_word(out, title);
    push_chunks(out, made.chunks.as_slice());
}

/// Adds the chunks that are written, the fault that comes in their place, or why there are none.
fn push_outcome(out: &mut Transcript, outcome: Result<Result<Changed, Broken>, ExecFault>) {
    match outcome {
        Ok(Ok(made)) => {
            push_written(out, &made);
            drop(made);
        }
        Ok(Err(broken)) => {
            push_broken(out, &broken);
            drop(broken);
        }
        Err(cause) => push_cause(out, cause),
    }
}

/// Adds the chunks that a change writes, its fault, or why there are none, and how often the source has failed.
fn push_made<S: ChunkSource, R: Threads + Sync>(
    rt: &R,
    out: &mut Transcript,
    source: &mut S,
    change: &Change,
    target: &Leaf,
)
    requires undamaged { (S.state source.old).damaged ≡ None }
    requires can { CanChange (S.state source.old) change.now target.now }
{
    let mut asking = Asking {
        asked: 0,
        stored: 0,
    };
    let outcome = changed(
        rt,
        out.alloc(),
        change,
        target,
        source,
        &mut asking,
        1,
        0,
        &OpenGate,
    );
    push_outcome(out, outcome);
    push_faults(out, source);
}

/// Makes a change of a target over a source that has the array.
#[tactic(auto, using(crate::proofs::Made::can_change))]
fn push_change<S: ChunkSource, R: Threads + Sync>(
    rt: &R,
    out: &mut Transcript,
    source: &mut S,
    case: Case,
    layout: Layout,
    target: &Leaf,
)
    requires undamaged { (S.state source.old).damaged ≡ None }
    requires reads { Reads (S.state source.old) (leaf layout) }
    requires target { target.now ≡ target_of case layout }
{
    match change_of(out.alloc(), case, layout) {
        Ok(change) => {
            push_made(rt, out, source, &change, target);
            let_go_change(change);
        }
        Err(Memory) => out.note_short(),
    }
}

/// Makes a change over a source that has the array.
pub(crate) fn push_case<S: ChunkSource, R: Threads + Sync>(
    rt: &R,
    out: &mut Transcript,
    source: &mut S,
    case: Case,
    layout: Layout,
)
    requires undamaged { (S.state source.old).damaged ≡ None }
    requires reads { Reads (S.state source.old) (leaf layout) }
{
    match target_of(out.alloc(), case, layout) {
        Ok(target) => {
            push_change(rt, out, source, case, layout, &target);
            drop(target);
        }
        Err(Memory) => out.note_short(),
    }
}
