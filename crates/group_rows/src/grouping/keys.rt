//! The groups of cells, by how they are grouped.
ghost use Rattle.std.specs.Prelude.{◌≡◌, IfOk};
ghost use Rattle.std.specs.List.{All};
ghost use Rattle.group_rows.specs.Inner.Places.{HasKey, key_of};
ghost use Rattle.group_rows.specs.Sets.{AreKeys};

use crate::grouping::blocks::block_key;
use crate::grouping::named::named_key;
use cell_values::{Coord, Dimension, List, Memory, Row};

/// How cells are grouped.
#[derive(Drop)]
pub enum Grouping<'a> {
    /// By their numbers in some dimensions, named by their places.
    Named(&'a [u32]),
    /// By blocks of these sizes, counted from the low bounds of the dimensions.
    Blocks(&'a [Dimension], &'a [u64]),
}

/// The coordinate of the group of a cell.
pub(crate) fn key_at(grouping: &Grouping<'_>, at: &Coord) -> Coord
    requires { HasKey grouping.now at.now.items }
    ensures { result.items ≡ key_of grouping.now at.now.items }
{
    match grouping {
        Grouping::Named(places) => named_key(places, at),
        Grouping::Blocks(dims, sizes) => block_key(dims, sizes, at),
    }
}

/// The coordinate of the group of each row.
pub(crate) fn keys_of(grouping: &Grouping<'_>, rows: &List<Row>) -> Result<List<Coord>, Memory>
    requires { All (λ row. HasKey grouping.now row.at.items) rows.now }
    ensures { IfOk result (λ keys. AreKeys (key_of grouping.now) keys rows.now) }
{
    let mut keys = List::with_capacity(rows.allocator(), rows.len())?;
    for row in rows.as_slice() {
        keys.push(key_at(grouping, &row.at))?;
    }
    Ok(keys)
}
