//! Why a text of CSV has no script.

use cell_values::{Bytes, Memory};
use itoa::Buffer;
use result_print::{Refusal, refusal_line};
use std::alloc::Global;

/// What is wrong with a field.
#[derive(Clone, Copy)]
pub enum FieldFault {
    NoInt,
    NoText,
    NoTruth,
    NullHere,
    OutOfBounds,
}

/// Why there is no script, or no more of it. Lines count from 1.
#[derive(Drop)]
pub enum CsvFault {
    /// The name of the array is no name.
    NoName,
    /// The schema is none, with places that count from the schema's first byte.
    Schema(Refusal),
    /// The name of the array is one of a staging array.
    Reserved,
    /// The array has too many columns for a literal, or too long a name for a staging array's.
    TooManyColumns,
    NameTooLong,
    /// A number of decimals that is none of a column.
    NoDecimals,
    /// There is no first line.
    NoHeader,
    /// A column of the schema that the first line hasn't.
    NoColumn(Bytes),
    /// A column of the first line that the schema hasn't.
    UnknownColumn(Bytes),
    /// A column that the first line has twice.
    RepeatedColumn(Bytes),
    /// A record with another number of fields than the first.
    Fields {
        line: u64,
        expected: u64,
        found: u64,
    },
    /// A field that isn't what its column holds.
    Field {
        line: u64,
        column: Bytes,
        why: FieldFault,
    },
    /// A record whose values are too long for a literal.
    TooLong {
        line: u64,
    },
    Read,
    Write,
    Memory,
}

impl From<Memory> for CsvFault {
    fn from(_: Memory) -> CsvFault {
        CsvFault::Memory
    }
}

fn why_words(why: FieldFault) -> &'static [u8] {
    match why {
        FieldFault::NoInt => b"no int64 (--decimals COLUMN=N takes a point)",
        FieldFault::NoText =>
            b"no text in quotes of the form 'text' (--bare takes the bytes as they are)",
        FieldFault::NoTruth => b"neither true nor false",
        FieldFault::NullHere => b"a value has to be here",
        FieldFault::OutOfBounds => b"outside the dimension's bounds",
    }
}

fn push_number(text: &mut Bytes, number: u64) -> Result<(), Memory> {
    let mut buffer = Buffer::new();
    text.extend(buffer.format(number).as_bytes())
}

/// Adds `line 7: `.
fn push_line(text: &mut Bytes, line: u64) -> Result<(), Memory> {
    text.extend(b"line ")?;
    push_number(text, line)?;
    text.extend(b": ")
}

fn push_named(text: &mut Bytes, words: &[u8], name: &Bytes) -> Result<(), Memory> {
    text.extend(words)?;
    text.extend(name.as_slice())
}

fn push_fault(text: &mut Bytes, fault: &CsvFault) -> Result<(), Memory> {
    match fault {
        CsvFault::NoName => text.extend(b"the array's name is no name"),
        CsvFault::Schema(refusal) => {
            text.extend(b"schema: ")?;
            let line = refusal_line(text.allocator(), refusal)?;
            let end = line.len().saturating_sub(1);
            match line.as_slice().get(7..end) {
                Some(words) => text.extend(words),
                None => Ok(()),
            }
        }
        CsvFault::Reserved => {
            text.extend(b"names that begin with csv2afl_ are kept for csv2afl's own arrays")
        }
        CsvFault::TooManyColumns => text.extend(b"more than 64 attributes and dimensions"),
        CsvFault::NameTooLong => text.extend(b"the array's name has more than 56 bytes"),
        CsvFault::NoDecimals => text.extend(b"decimals are told as COLUMN=N, with N up to 18"),
        CsvFault::NoHeader => text.extend(b"line 1: the names of the columns are missing"),
        CsvFault::NoColumn(name) => push_named(text, b"line 1: no column ", name),
        CsvFault::UnknownColumn(name) => {
            push_named(
                text,
                b"line 1: the schema has no attribute or dimension ",
                name,
            )
        }
        CsvFault::RepeatedColumn(name) => push_named(text, b"line 1: twice the column ", name),
        CsvFault::Fields {
            line,
            expected,
            found,
        } => {
            push_line(text, *line)?;
            push_number(text, *found)?;
            text.extend(b" fields, where the first line has ")?;
            push_number(text, *expected)
        }
        CsvFault::Field { line, column, why } => {
            push_line(text, *line)?;
            text.extend(column.as_slice())?;
            text.extend(b": ")?;
            text.extend(why_words(*why))
        }
        CsvFault::TooLong { line } => {
            push_line(text, *line)?;
            text.extend(b"the record has more than 65,533 bytes as a literal")
        }
        CsvFault::Read => text.extend(b"the input can't be read"),
        CsvFault::Write => text.extend(b"the output can't be written"),
        CsvFault::Memory => text.extend(b"out of memory"),
    }
}

/// The words of a fault, without a line feed.
pub fn fault_text(alloc: Global, fault: &CsvFault) -> Result<Bytes, Memory> {
    let mut text = Bytes::new(alloc);
    push_fault(&mut text, fault)?;
    Ok(text)
}
