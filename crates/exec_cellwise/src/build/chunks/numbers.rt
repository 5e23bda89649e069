//! The numbers of all chunks of an array.
ghost use Rattle.std.specs.Prelude.{◌≡◌, ◌+◌, ◌≤◌, ◌<◌, [], ◌∷◌, ◌++◌, length, IfOk, OnOk};
ghost use Rattle.chunk_cells.specs.Inner.Numbers.{numbers_in};
ghost use Rattle.exec_cellwise.specs.Inner.Walks.{numbers_under};

use cell_values::{ChunkAt, List, Memory, copy_numbers};

/// Adds the numbers that begin so and go on up to the last ones.
#[cycle(push_numbers)]
pub(crate) fn push_numbers(
    out: &mut List<ChunkAt>,
    at: &ChunkAt,
    last: &[u64],
) -> Result<(), Memory>
    requires { length at.now.items + length last.now ≤ 6 }
    ensures { OnOk result (numbers_in out.new ≡ numbers_in out.old ++ numbers_under at.now.items last.now) }
{
    match last {
        [] => out.push(copy_numbers(at)),
        [number, last @ ..] => push_along(out, at, *number, last),
    }
}

/// Adds the numbers along a first dimension, and then along the rest.
#[cycle(push_numbers)]
fn push_along(
    out: &mut List<ChunkAt>,
    at: &ChunkAt,
    number: u64,
    last: &[u64],
) -> Result<(), Memory>
    requires { length at.now.items + length last.now < 6 }
    ensures { OnOk result (numbers_in out.new ≡ numbers_in out.old ++ numbers_under at.now.items (number ∷ last.now)) }
{
    for k in 0..after(number)? {
        let mut next = copy_numbers(at);
        next.push(k);
        push_numbers(out, &next, last)?;
    }
    Ok(())
}

/// The next number, as far as there is one.
fn after(number: u64) -> Result<u64, Memory>
    ensures { IfOk result (λ next. next ≡ number + 1) }
{
    match number.checked_add(1) {
        Some(next) => Ok(next),
        None => Err(Memory),
    }
}
