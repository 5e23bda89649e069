//! Reading names.
ghost use Rattle.std.specs.Prelude.{◌≡◌};
ghost use Rattle.std.specs.Str.{bytes_eq};
ghost use Rattle.file_items.specs.Items.{IsRead};
ghost use Rattle.file_items.specs.Table.{name_fields, name_at};

use crate::bytes::{Stop, bytes_at, u8_at};
use cell_values::{List, Name};
use std::alloc::Global;

/// The bytes of a name, behind their count.
#[tactic(auto, unfolding(crate::specs::Table::name_fields))]
fn fields(bytes: &[u8]) -> Result<(&[u8], &[u8]), Stop>
    ensures { IsRead (λ x. (x.0.now, x.1.now)) result (name_fields bytes.now) }
{
    let (count, rest) = u8_at(bytes)?;
    bytes_at(count as usize, rest)
}

/// A name, which is one item. It stops where the name begins, if these bytes begin with none.
#[tactic(auto, unfolding(crate::specs::Table::name_at))]
pub fn name(alloc: Global, bytes: &[u8]) -> Result<(Name, &[u8]), Stop>
    ensures { IsRead (λ x. (x.0, x.1.now)) result (name_at bytes.now) }
{
    match fields(bytes) {
        Ok((text, rest)) => match Name::new(List::from_slice(alloc, text)?) {
            Some(name) => Ok((name, rest)),
            None => Err(Stop::Left(bytes.len())),
        },
        Err(Stop::Left(_)) => Err(Stop::Left(bytes.len())),
        Err(Stop::Memory) => Err(Stop::Memory),
    }
}

/// Whether two names are the same.
pub(crate) fn is_same(a: &Name, b: &Name) -> bool
    ensures { result ≡ bytes_eq a.now b.now }
{
    a.as_slice() == b.as_slice()
}
