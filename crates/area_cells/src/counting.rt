//! Whether rows can be counted.
ghost use Rattle.std.specs.Prelude.{ℕ, ◌<◌, ◌^◌, List as Items, length, IsTrue};
ghost use Rattle.cell_values.specs.declared.schema.Dimension.{Dimension};
ghost use Rattle.array_geom.specs.Link.{core_rows};

use array_geom::Chunk;

/// Whether chunks hold fewer than 2^63 cells, and so their cores.
pub fn are_few(chunks: &[Chunk]) -> bool
    ensures { IsTrue result → (dims : Items Dimension) (margins : Items ℕ) → length (core_rows dims margins chunks.now) < 2 ^ 63 }
{
    let mut rest = chunks;
    let mut count = 0u64;
    while let Some((chunk, further)) = rest.split_first() {
        match count.checked_add(chunk.cells.len() as u64) {
            Some(more) => count = more,
            None => return false,
        }
        rest = further;
    }
    count < 1 << 63
}
