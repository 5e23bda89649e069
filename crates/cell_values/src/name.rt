//! Names of arrays, attributes and dimensions, and spans of a text.
ghost use Rattle.std.specs.Prelude.{◌≡◌, ◌↔◌, IsTrue, IsOk, IfOk, IsSome, IfSome};
ghost use Rattle.std.specs.List.{list_all};
ghost use Rattle.cell_values.specs.Naming.{IsName, is_name, begins_well, is_word_byte, is_first_byte, is_reserved};

use crate::{Bytes, Copies, Memory};
use std::marker::Model;

/// A part of a text: the places of its first byte and of the byte after its last, from 0.
#[derive(Clone, Copy)]
pub struct Span {
    pub start: u32,
    pub end: u32,
}

/// A name: 1 to 64 bytes, a letter or `_` and then letters, digits and `_`, and no reserved word.
#[derive(PartialEq, Eq, PartialOrd, Ord)]
pub struct Name {
    bytes: Bytes,
}

impl Drop for Name {
    fn drop(self) {
        let Name { bytes: _ } = self;
    }
}

impl Model for Name {
    ghost use Rattle.std.specs.Prelude.{ℕ, List};
    ghost use Rattle.cell_values.specs.Naming.{IsName};

    ghost Value = { List ℕ };

    ghost view = { λ name. name.bytes };

    ghost invariant = { λ name. IsName name.bytes };

    ghost inverse = { λ bytes. record { bytes = bytes } };
}

fn is_first(byte: u8) -> bool
    ensures { result ≡ is_first_byte byte }
{
    byte.is_ascii_alphabetic() || byte == b'_'
}

fn is_word(byte: u8) -> bool
    ensures { result ≡ is_word_byte byte }
{
    byte.is_ascii_alphanumeric() || byte == b'_'
}

fn begins_as_a_name(bytes: &[u8]) -> bool
    ensures { result ≡ begins_well bytes.now }
{
    match bytes.first() {
        None => false,
        Some(first) => is_first(*first),
    }
}

fn has_only_word_bytes(bytes: &[u8]) -> bool
    ensures { result ≡ list_all is_word_byte bytes.now }
{
    bytes.iter().all(|byte| is_word(*byte))
}

/// Whether these bytes are a name.
pub fn is_a_name(bytes: &[u8]) -> bool
    ensures { result ≡ is_name bytes.now }
{
    bytes.len() <= 64
        && begins_as_a_name(bytes)
        && has_only_word_bytes(bytes)
        && !is_reserved_word(bytes)
}

/// Whether the language keeps this word for itself.
pub fn is_reserved_word(bytes: &[u8]) -> bool
    ensures { result ≡ is_reserved bytes.now }
{
    bytes == b"and".as_slice()
        || bytes == b"or".as_slice()
        || bytes == b"not".as_slice()
        || bytes == b"null".as_slice()
        || bytes == b"true".as_slice()
        || bytes == b"false".as_slice()
        || bytes == b"as".as_slice()
        || bytes == b"create".as_slice()
        || bytes == b"array".as_slice()
}

impl Name {
    /// The name that these bytes are.
    pub fn new(bytes: Bytes) -> Option<Name>
        ensures valid { IsSome result ↔ IsName bytes }
        ensures same { IfSome result (λ name. name ≡ bytes) }
    {
        if is_a_name(bytes.as_slice()) {
            Some(Name { bytes })
        } else {
            None
        }
    }

    /// The bytes of the name.
    pub fn as_slice(&self) -> &[u8]
        ensures value { result.now ≡ self.now }
        ensures valid { IsName self.now }
    {
        self.bytes.as_slice()
    }

    /// An equal name.
    pub fn copy(&self) -> Result<Name, Memory>
        ensures { IfOk result (λ copy. copy ≡ self.now) }
    {
        Ok(Name {
            bytes: self.bytes.copy()?,
        })
    }
}

impl Copies for Name {
    fn copy(&self) -> Result<Name, Memory> {
        self.copy()
    }
}

impl Copies for Span {
    fn copy(&self) -> Result<Span, Memory>
        ensures value { IfOk result (λ copy. copy ≡ self.now) }
        ensures succeeds { IsOk result }
    {
        Ok(*self)
    }
}
