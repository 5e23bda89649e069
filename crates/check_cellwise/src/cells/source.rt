//! Expressions over a source.
ghost use Rattle.std.specs.Prelude.{◌≤◌, length};
ghost use Rattle.check_rules.specs.Checked.{Answers};
ghost use Rattle.check_exprs.specs.Expressions.{typed};

use afl_trees::Tree;
use cell_values::Schema;
use check_exprs::{Operand, typed};
use check_rules::TypeFault;
use std::alloc::Global;

/// An expression over the attributes and dimensions of a source.
pub(crate) fn typed_over(alloc: Global, source: &Schema, value: &Tree) -> Result<Operand, TypeFault>
    requires attributes { length source.now.attributes ≤ 64 }
    requires dimensions { length source.now.dimensions ≤ 6 }
    ensures { Answers result (typed source.now.attributes source.now.dimensions value.now) }
{
    let attributes = source.attributes.as_slice();
    typed(alloc, attributes, source.dimensions.as_slice(), value)
}
