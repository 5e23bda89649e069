//! Values of worked examples.
ghost use Rattle.std.specs.Prelude.{◌≡◌, ◌∷◌, [], ◌++◌, IfOk};

use cell_values::{List, Memory, Name};
use std::alloc::Global;

/// The name that a text is. A text that is none counts as want of memory.
pub fn name_of(alloc: Global, bytes: &[u8]) -> Result<Name, Memory>
    ensures { IfOk result (λ name. name ≡ bytes.now) }
{
    match Name::new(List::from_slice(alloc, bytes)?) {
        Some(name) => Ok(name),
        None => Err(Memory),
    }
}

/// Some items, and one behind them.
pub fn one_more<T: Drop>(items: List<T>, item: T) -> Result<List<T>, Memory>
    ensures { IfOk result (λ more. more ≡ items ++ item ∷ []) }
{
    let mut more = items;
    more.push(item)?;
    Ok(more)
}
