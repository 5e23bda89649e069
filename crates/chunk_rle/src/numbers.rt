//! Columns of numbers as bytes: no value is made of a number.
ghost use Rattle.std.specs.Prelude.{◌≡◌, ◌+◌, ◌<◌, ◌≤◌, ◌^◌, ◌++◌, ◌∷◌, List as Items, length, map, replicate, IfOk, IfSome, OnOk};
ghost use Rattle.std.specs.Int.{w64};
ghost use Rattle.file_items.specs.Items.{spell_counted};
ghost use Rattle.array_geom.specs.Datum.{Datum as OneDatum};
ghost use Rattle.array_geom.specs.Datum.TheVariants.{Int};
ghost use Rattle.chunk_rle.specs.Chunks.{spelling};
ghost use Rattle.chunk_rle.specs.Longest.{value_runs};
ghost use Rattle.chunk_rle.specs.Spelling.{spell_run};
ghost use Rattle.chunk_rle.specs.Table.{is_same};
ghost use Rattle.chunk_rle.specs.Inner.Valued.{as_run};

use crate::collecting::position_runs;
use crate::runs::NumberRun;
use crate::writing::{put_integer, put_position_runs};
use array_geom::{Attribute, Bytes, Chunk, List, Memory};
use file_items::put_u64;
use std::alloc::Global;

/// Whether two numbers are the same value.
#[tactic(auto, unfolding(crate::specs::Table::is_same))]
pub(crate) fn is_same_number(a: i64, b: i64) -> bool
    ensures { result ≡ is_same (Int a) (Int b) }
{
    a == b
}

/// The next number: the run so far goes on, or it is done and another begins.
fn take_number(runs: &mut List<NumberRun>, run: NumberRun, number: i64) -> Result<NumberRun, Memory>
    requires { (0 < run.length) × (run.length < 2 ^ 63) }
    ensures same { IfOk result (λ now. (rest : Items OneDatum) → map as_run runs.new ++ value_runs (replicate now.length (Int now.number) ++ rest)
        ≡ map as_run runs.old ++ value_runs (replicate run.length (Int run.number) ++ Int number ∷ rest)) }
    ensures length { IfOk result (λ now. (0 < now.length) × (now.length ≤ run.length + 1)) }
{
    if is_same_number(run.number, number) {
        return Ok(NumberRun {
            length: run.length + 1,
            number,
        });
    }
    runs.push(run)?;
    Ok(NumberRun { length: 1, number })
}

fn number_runs_from(alloc: Global, first: i64, numbers: &[i64]) -> Result<List<NumberRun>, Memory>
    ensures { IfOk result (λ runs. map as_run runs ≡ value_runs (Int first ∷ map Int numbers.now)) }
{
    let mut runs = List::new(alloc);
    let mut run = NumberRun {
        length: 1,
        number: first,
    };
    for number in numbers {
        run = take_number(&mut runs, run, *number)?;
    }
    runs.push(run)?;
    Ok(runs)
}

/// The longest runs of numbers.
fn number_runs(alloc: Global, numbers: &[i64]) -> Result<List<NumberRun>, Memory>
    ensures { IfOk result (λ runs. map as_run runs ≡ value_runs (map Int numbers.now)) }
{
    match numbers {
        [] => Ok(List::new(alloc)),
        [first, rest @ ..] => number_runs_from(alloc, *first, rest),
    }
}

fn put_number_run(out: &mut Bytes, run: NumberRun) -> Result<(), Memory>
    ensures { OnOk result (out.new ≡ out.old ++ spell_run (as_run run)) }
{
    put_u64(out, run.length)?;
    put_integer(out, run.number)?;
    Ok(())
}

fn put_number_runs(out: &mut Bytes, runs: &[NumberRun]) -> Result<(), Memory>
    ensures { OnOk result (out.new ≡ out.old ++ spell_counted w64 spell_run (map as_run runs.now)) }
{
    put_u64(out, runs.len() as u64)?;
    for run in runs {
        put_number_run(out, *run)?;
    }
    Ok(())
}

fn put_numbers(alloc: Global, out: &mut Bytes, numbers: &[i64]) -> Result<(), Memory>
    ensures { OnOk result (out.new ≡ out.old ++ spell_counted w64 spell_run (value_runs (map Int numbers.now))) }
{
    let runs = number_runs(alloc, numbers)?;
    put_number_runs(out, runs.as_slice())
}

/// The spelling of a chunk, if all values of its cells are kept as numbers.
pub(crate) fn number_bytes(
    alloc: Global,
    attributes: &[Attribute],
    chunk: &Chunk,
) -> Result<Option<Bytes>, Memory>
    ensures { IfOk result (λ found. IfSome found (λ bytes. bytes ≡ spelling attributes.now chunk.now)) }
{
    let mut out = Bytes::new(alloc);
    let positions = position_runs(alloc, chunk.positions.as_slice())?;
    put_position_runs(&mut out, positions.as_slice())?;
    for k in 0..attributes.len() {
        match chunk.cells.numbers(k) {
            Some(numbers) => put_numbers(alloc, &mut out, numbers)?,
            None => return Ok(None),
        }
    }
    Ok(Some(out))
}
