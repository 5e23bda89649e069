//! The numbers of chunks.
ghost use Rattle.std.specs.Prelude.{◌≡◌, map, IfOk};

use array_geom::Chunk;
use cell_values::{ChunkAt, List, Memory, copy_numbers};

/// The number of each chunk.
pub fn numbers_of(chunks: &List<Chunk>) -> Result<List<ChunkAt>, Memory>
    ensures { IfOk result (λ numbers. numbers ≡ map (λ chunk. chunk.at) chunks.now) }
{
    let mut numbers = List::with_capacity(chunks.allocator(), chunks.len())?;
    for chunk in chunks.as_slice() {
        numbers.push(copy_numbers(&chunk.at))?;
    }
    Ok(numbers)
}
