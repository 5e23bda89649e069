//! The numbers of groups in their order, by the places of the groups, and their ranks.
ghost use Rattle.std.specs.Prelude.{◌≡◌, ◌+◌, ◌<◌, ◌^◌, ◌∷◌, ◌++◌, [], pos, map, length, slice_index_or, slice_set, IfOk, OnOk};
ghost use Rattle.std.specs.List.{AllByRecursion};
ghost use Rattle.cell_values.specs.declared.datum.Datum.TheVariants.{Int};
ghost use Rattle.logical_plan.specs.Ordered.{below, sorted_by};
ghost use Rattle.order_exec.specs.Inner.Counted.{number_before};
ghost use Rattle.order_exec.specs.Inner.GroupNumbers.{AreRising, TakesNumbers, number_rank, ranks_in};
ghost use Rattle.order_exec.specs.Inner.Ranked.{AreInOrder};

use cell_values::{List, Memory};
use std::alloc::Global;

/// Puts a number behind those of a group.
fn push_at(groups: &mut Vec<List<i64>>, place: usize, number: &i64) -> Result<(), Memory>
    requires { place < length groups.old.items }
    ensures { OnOk result (groups.new.items ≡ slice_set groups.old.items place (slice_index_or groups.old.items place [] ++ number.now ∷ [])) }
{
    groups[place].push(*number)?;
    Ok(())
}

/// Puts each number behind those of its group.
pub(crate) fn take_numbers(
    groups: &mut Vec<List<i64>>,
    places: &[u64],
    numbers: &[i64],
) -> Result<(), Memory>
    requires below { AllByRecursion (λ p. p < length groups.old.items) places.now }
    requires each { length numbers.now ≡ length places.now }
    ensures { OnOk result (TakesNumbers places.now numbers.now groups.old.items groups.new.items) }
{
    for k in 0..places.len() {
        push_at(groups, places[k] as usize, &numbers[k])?;
    }
    Ok(())
}

/// Numbers in their order.
fn in_order(numbers: List<i64>) -> Result<List<i64>, Memory>
    ensures { IfOk result (λ sorted. sorted ≡ sorted_by number_before numbers) }
{
    let mut numbers = numbers.into_vec();
    numbers.sort_by(|a, b| a.cmp(b))?;
    Ok(List::from_vec(numbers))
}

/// The numbers of each group in their order.
pub(crate) fn sorted_numbers(
    alloc: Global,
    groups: List<List<i64>>,
) -> Result<List<List<i64>>, Memory>
    ensures { IfOk result (λ sorted. sorted ≡ map (sorted_by number_before) groups) }
{
    let mut sorted = List::with_capacity(alloc, groups.len())?;
    for numbers in groups.into_vec() {
        sorted.push(in_order(numbers)?)?;
    }
    Ok(sorted)
}

/// How many of some numbers in their order are less than another.
fn count_less(numbers: &[i64], number: &i64) -> usize
    requires { AreInOrder (map Int numbers.now) }
    ensures { result ≡ below (Int number.now) (map Int numbers.now) }
{
    let mut start = 0;
    let mut end = numbers.len();
    while start < end {
        let middle = start + (end - start) / 2;
        if numbers[middle] < *number {
            start = middle + 1;
        } else {
            end = middle;
        }
    }
    start
}

fn number_after(before: usize) -> i64
    requires { before < 2 ^ 62 }
    ensures { result ≡ pos (1 + before) }
{
    (1 + before) as i64
}

/// The rank of a number in a group. More than can be numbered are as good as no memory.
fn rank_at(groups: &[List<i64>], place: usize, number: &i64) -> Result<i64, Memory>
    requires inside { place < length groups.now }
    requires order { AreRising groups.now }
    ensures { IfOk result (λ rank. rank ≡ number_rank groups.now place number.now) }
{
    let before = count_less(groups[place].as_slice(), number);
    if before >= 1 << 62 {
        return Err(Memory);
    }
    Ok(number_after(before))
}

/// The rank of each number in its group.
pub(crate) fn ranks_of(
    alloc: Global,
    groups: &[List<i64>],
    places: &[u64],
    numbers: &[i64],
) -> Result<List<i64>, Memory>
    requires below { AllByRecursion (λ p. p < length groups.now) places.now }
    requires each { length numbers.now ≡ length places.now }
    requires order { AreRising groups.now }
    ensures { IfOk result (λ ranks. ranks ≡ ranks_in groups.now places.now numbers.now) }
{
    let mut ranks = List::with_capacity(alloc, places.len())?;
    for k in 0..places.len() {
        ranks.push(rank_at(groups, places[k] as usize, &numbers[k])?)?;
    }
    Ok(ranks)
}
