//! Plans over plans that are given.
ghost use Rattle.std.specs.Prelude.{◌≡◌, Some, IfOk};
ghost use Rattle.std.specs.Option.{option_copied};
ghost use Rattle.logical_plan.specs.Query.{filtered, applied, projected, between};
ghost use Rattle.plan_rewrite.specs.Inner.Pending.{boxed, pending, shown};
ghost use Rattle.plan_rewrite.specs.Inner.Settling.{applied_for};
ghost use Rattle.plan_rewrite.specs.Inner.Trimmed.{met};

use crate::places::kept;
use array_geom::Boxes;
use cell_values::{Bounds, List, Memory, copy_coord};
use expr_nulls::TypedExpr;
use logical_plan::{Applied, Plan, let_go};
use std::alloc::Global;

fn between_of(alloc: Global, source: Plan, area: &Bounds) -> Result<Plan, Memory>
    ensures { IfOk result (λ p. p ≡ between source area.now) }
{
    match area.copy() {
        Ok(area) => Plan::between(alloc, source, area),
        Err(Memory) => {
            let_go(source);
            Err(Memory)
        }
    }
}

fn project_of(alloc: Global, source: Plan, places: &List<u32>) -> Result<Plan, Memory>
    ensures { IfOk result (λ p. p ≡ projected source places.now) }
{
    match places.copy() {
        Ok(places) => Plan::project(alloc, source, places),
        Err(Memory) => {
            let_go(source);
            Err(Memory)
        }
    }
}

fn boxed(alloc: Global, plan: Plan, area: Option<&Bounds>) -> Result<Plan, Memory>
    ensures { IfOk result (λ p. p ≡ boxed (option_copied area.entry) plan) }
{
    match area {
        Some(area) => between_of(alloc, plan, area),
        None => Ok(plan),
    }
}

fn shown(alloc: Global, plan: Plan, places: Option<&List<u32>>) -> Result<Plan, Memory>
    ensures { IfOk result (λ p. p ≡ shown (option_copied places.entry) plan) }
{
    match places {
        Some(places) => project_of(alloc, plan, places),
        None => Ok(plan),
    }
}

/// A plan with the box and the project that are to be put on it.
pub(crate) fn enclosed(
    alloc: Global,
    plan: Plan,
    area: Option<&Bounds>,
    places: Option<&List<u32>>,
) -> Result<Plan, Memory>
    ensures { IfOk result (λ p. p ≡ pending (option_copied area.entry) (option_copied places.entry) plan) }
{
    shown(alloc, boxed(alloc, plan, area)?, places)
}

fn filter_of(alloc: Global, source: Plan, test: &TypedExpr) -> Result<Plan, Memory>
    ensures { IfOk result (λ p. p ≡ filtered source test.now) }
{
    match test.copy() {
        Ok(test) => Plan::filter(alloc, source, test),
        Err(Memory) => {
            let_go(source);
            Err(Memory)
        }
    }
}

pub(crate) fn filter_over(
    alloc: Global,
    source: Plan,
    test: &TypedExpr,
    places: Option<&List<u32>>,
) -> Result<Plan, Memory>
    ensures { IfOk result (λ p. p ≡ shown (option_copied places.entry) (filtered source test.now)) }
{
    shown(alloc, filter_of(alloc, source, test)?, places)
}

fn apply_of(alloc: Global, source: Plan, values: &List<Applied>) -> Result<Plan, Memory>
    ensures { IfOk result (λ p. p ≡ applied source values.now) }
{
    match values.copy() {
        Ok(values) => Plan::apply(alloc, source, values),
        Err(Memory) => {
            let_go(source);
            Err(Memory)
        }
    }
}

fn apply_kept(
    alloc: Global,
    source: Plan,
    values: List<Applied>,
    places: List<u32>,
) -> Result<Plan, Memory>
    ensures { IfOk result (λ p. p ≡ projected (applied source values) places) }
{
    match Plan::apply(alloc, source, values) {
        Ok(plan) => Plan::project(alloc, plan, places),
        Err(Memory) => {
            drop(places);
            Err(Memory)
        }
    }
}

fn apply_some(
    alloc: Global,
    source: Plan,
    values: &List<Applied>,
    first: u32,
    places: &List<u32>,
) -> Result<Plan, Memory>
    ensures { IfOk result (λ p. p ≡ applied_for first values.now (Some places.now) source) }
{
    match kept(alloc, values, first, places) {
        Ok((values, places)) => apply_kept(alloc, source, values, places),
        Err(Memory) => {
            let_go(source);
            Err(Memory)
        }
    }
}

/// The computed attributes, the first of which has the place `first`, that a project names, and the project. Without a project all
/// of them.
pub(crate) fn apply_over(
    alloc: Global,
    source: Plan,
    values: &List<Applied>,
    first: u32,
    places: Option<&List<u32>>,
) -> Result<Plan, Memory>
    ensures { IfOk result (λ p. p ≡ applied_for first values.now (option_copied places.entry) source) }
{
    match places {
        Some(places) => apply_some(alloc, source, values, first, places),
        None => apply_of(alloc, source, values),
    }
}

/// What a box and one that may be put on it share.
pub(crate) fn met(area: Option<&Bounds>, own: &Bounds) -> Bounds
    ensures { result ≡ met (option_copied area.entry) own.now }
{
    match area {
        Some(area) => area.meet(own),
        None => Bounds {
            lo: copy_coord(&own.lo),
            hi: copy_coord(&own.hi),
        },
    }
}
