//! Names that are given one after the other.
ghost use Rattle.std.specs.Prelude.{◌≡◌, [], nat_le, length, IfOk};
ghost use Rattle.cell_values.specs.Naming.{is_name};
ghost use Rattle.logical_plan.specs.PlanSchema.{free_from, free_name, with_suffix};
ghost use Rattle.check_rules.specs.Checked.{Answers};
ghost use Rattle.check_rules.specs.InTurn.{in_turn};
ghost use Rattle.check_groups.specs.Names.{short_name};
ghost use Rattle.check_joins.specs.JoinSchemas.{next_name};

use cell_values::{Bytes, List, Memory, Name, Span};
use check_groups::{ended, is_given, named};
use check_rules::TypeFault;
use itoa::Buffer;
use std::alloc::Global;

/// The name with `_` and a number behind it: a name, unless its bytes are too many.
#[tactic(auto, using(crate::proofs::FreeNames::suffix_ends))]
fn suffixed(alloc: Global, name: &Name, number: u64) -> Result<Bytes, Memory>
    ensures value { IfOk result (λ bytes. bytes ≡ with_suffix name.now number) }
    ensures named { IfOk result (λ bytes. is_name bytes ≡ nat_le (length bytes) 64) }
{
    let mut buffer = Buffer::new();
    let digits = buffer.format(number).as_bytes();
    let mut suffix = Bytes::from_slice(alloc, b"_".as_slice())?;
    suffix.extend(digits)?;
    ended(alloc, name, suffix.as_slice())
}

/// The name with the least number from 2 that makes it a free one.
fn free_from(alloc: Global, span: Span, given: &[Name], name: &Name) -> Result<Name, TypeFault>
    ensures { Answers result (short_name span (free_from (length given.now) 2 given.now name.now)) }
{
    let last = given.len() as u64 + 2;
    for number in 2..last {
        let bytes = suffixed(alloc, name, number)?;
        if !is_given(given, bytes.as_slice()) {
            return named(span, bytes);
        }
    }
    named(span, suffixed(alloc, name, last)?)
}

/// A name as it is, unless it is already given: then with `_` and the least number from 2 that makes it a free one.
///
/// Fails where it is too long, at `span`.
pub fn free_name(alloc: Global, span: Span, given: &[Name], name: &Name) -> Result<Name, TypeFault>
    ensures { Answers result (short_name span (free_name given.now name.now)) }
{
    if is_given(given, name.as_slice()) {
        return free_from(alloc, span, given, name);
    }
    Ok(name.copy()?)
}

/// The names in turn, each that is already given with a number behind it.
///
/// Fails at the first one that is too long, at `span`.
#[tactic(auto, using(check_rules::proofs::Steps::ok_then, check_rules::proofs::Steps::err_then))]
pub(crate) fn free_names(alloc: Global, span: Span, names: &[Name]) -> Result<List<Name>, TypeFault>
    ensures { Answers result (in_turn (next_name span) [] names.now) }
{
    let mut given = List::with_capacity(alloc, names.len())?;
    for name in names {
        let free = free_name(alloc, span, given.as_slice(), name)?;
        given.push(free)?;
    }
    Ok(given)
}
