//! Names with more behind them.
ghost use Rattle.std.specs.Prelude.{◌≡◌, ◌++◌, length, nat_le, IfOk, IsTrue};
ghost use Rattle.cell_values.specs.Naming.{is_name};
ghost use Rattle.cell_values.specs.Schemas.{is_among};
ghost use Rattle.check_rules.specs.Checked.{Answers};
ghost use Rattle.check_groups.specs.Names.{is_ending, short_name};

use cell_values::{Bytes, Memory, Name, Span};
use check_rules::{TypeFault, broken, same_name};
use schema_grammar::TypeKind;
use std::alloc::Global;

/// Whether a name is one of these.
pub fn is_given(names: &[Name], name: &[u8]) -> bool
    ensures { result ≡ is_among name.now names.now }
{
    names.iter().any(|other| name == other.as_slice())
}

/// The bytes as a name, or that it is too long, at a place.
pub fn named(span: Span, bytes: Bytes) -> Result<Name, TypeFault>
    requires { is_name bytes ≡ nat_le (length bytes) 64 }
    ensures { Answers result (short_name span bytes) }
{
    match Name::new(bytes) {
        Some(name) => Ok(name),
        None => Err(broken(span, TypeKind::NameTooLong)),
    }
}

/// The bytes of a name with an ending: a name, unless they are too many.
#[tactic(auto, using(crate::proofs::Longer::longer_name))]
pub fn ended(alloc: Global, name: &Name, ending: &[u8]) -> Result<Bytes, Memory>
    requires { IsTrue (is_ending ending.now) }
    ensures value { IfOk result (λ bytes. bytes ≡ name.now ++ ending.now) }
    ensures named { IfOk result (λ bytes. is_name bytes ≡ nat_le (length bytes) 64) }
{
    let mut bytes = Bytes::from_slice(alloc, name.as_slice())?;
    bytes.extend(ending)?;
    Ok(bytes)
}

/// The name with an ending, or that it is too long, at a place.
pub fn with_ending(alloc: Global, span: Span, name: &Name, ending: &[u8]) -> Result<Name, TypeFault>
    requires { IsTrue (is_ending ending.now) }
    ensures { Answers result (short_name span (name.now ++ ending.now)) }
{
    named(span, ended(alloc, name, ending)?)
}
