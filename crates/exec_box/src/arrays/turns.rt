//! Chunks one after the other.
ghost use Rattle.std.specs.Prelude.{IfOk};
ghost use Rattle.std.specs.List.{AllByRecursion, AllZip};

use array_geom::Chunk;
use cell_values::{ChunkAt, List, Memory};
use chunk_workers::Work;

/// What becomes of each number, one after the other.
pub fn in_turn<W: Work<ChunkAt, Chunk>>(
    numbers: List<ChunkAt>,
    work: &W,
) -> Result<List<Chunk>, Memory>
    requires { AllByRecursion (W.accepts work.now) numbers }
    ensures { IfOk result (AllZip (W.gives work.now) numbers) }
{
    let mut made = List::with_capacity(numbers.allocator(), numbers.len())?;
    for number in numbers.into_vec() {
        made.push(work.work(number)?)?;
    }
    Ok(made)
}
