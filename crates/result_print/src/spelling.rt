//! How values, names and places are spelled, one behind the other.
ghost use Rattle.std.specs.Prelude.{◌≡◌, ℕ, ℤ, ◌++◌, List, map, codes, OnOk};
ghost use Rattle.std.specs.Fmt.{decimal, signed_decimal};
ghost use Rattle.afl_lexer.specs.Spelling.{escaped, quoted_text};
ghost use Rattle.result_print.specs.Texts.{listed, place_text, spelled};
ghost use Rattle.schema_grammar.specs.SchemaBytes.{separator};

use cell_values::{Attribute, Bytes, Datum, Dimension, Memory};
use itoa::Buffer;

/// What has a text: an attribute and a dimension have their names.
pub(crate) trait Spelled {
    ghost bytes: { Self → List ℕ };

    /// Adds the text at the end.
    fn write(&self, out: &mut Bytes) -> Result<(), Memory>
        ensures { OnOk result (out.new ≡ out.old ++ bytes self.now) };
}

/// Adds a number in decimal digits.
pub(crate) fn write_count(out: &mut Bytes, number: u64) -> Result<(), Memory>
    ensures { OnOk result (out.new ≡ out.old ++ decimal number) }
{
    let mut buffer = Buffer::new();
    out.extend(buffer.format(number).as_bytes())
}

/// Adds a code behind its `?`.
fn write_code(out: &mut Bytes, code: u8) -> Result<(), Memory>
    ensures { OnOk result (out.new ≡ out.old ++ (codes "?" ++ decimal code)) }
{
    let mut buffer = Buffer::new();
    out.push(b'?')?;
    out.extend(buffer.format(code).as_bytes())
}

fn write_escaped(out: &mut Bytes, byte: u8) -> Result<(), Memory>
    ensures { OnOk result (out.new ≡ out.old ++ escaped byte) }
{
    if byte == b'\'' || byte == b'\\' {
        out.push(b'\\')?;
    }
    out.push(byte)
}

/// Adds a text in quotes.
pub fn write_text(out: &mut Bytes, content: &[u8]) -> Result<(), Memory>
    ensures { OnOk result (out.new ≡ out.old ++ quoted_text content.now) }
{
    out.push(b'\'')?;
    for byte in content {
        write_escaped(out, *byte)?;
    }
    out.push(b'\'')
}

impl Spelled for i64 {
    ghost use Rattle.std.specs.Fmt.{signed_decimal};

    ghost bytes = { signed_decimal };

    fn write(&self, out: &mut Bytes) -> Result<(), Memory> {
        let mut buffer = Buffer::new();
        out.extend(buffer.format(*self).as_bytes())
    }
}

impl Spelled for Datum {
    ghost use Rattle.result_print.specs.Texts.{spelled};

    ghost bytes = { spelled };

    fn write(&self, out: &mut Bytes) -> Result<(), Memory> {
        match self {
            Datum::Null => out.extend(b"null"),
            Datum::Missing(code) => write_code(out, code.number()),
            Datum::Int(number) => number.write(out),
            Datum::Text(text) => write_text(out, text.as_slice()),
            Datum::Truth(true) => out.extend(b"true"),
            Datum::Truth(false) => out.extend(b"false"),
            Datum::Bad(_) => Ok(()),
        }
    }
}

impl Spelled for Attribute {
    ghost bytes = { λ attribute. attribute.name };

    fn write(&self, out: &mut Bytes) -> Result<(), Memory> {
        out.extend(self.name.as_slice())
    }
}

impl Spelled for Dimension {
    ghost bytes = { λ dimension. dimension.name };

    fn write(&self, out: &mut Bytes) -> Result<(), Memory> {
        out.extend(self.name.as_slice())
    }
}

/// Adds the comma that stands before every part but the first.
fn separate(out: &mut Bytes, at: usize) -> Result<(), Memory>
    ensures { OnOk result (out.new ≡ out.old ++ separator at) }
{
    if at > 0 { out.push(b',') } else { Ok(()) }
}

/// Adds the texts of parts, with commas between.
pub(crate) fn write_list<T: Spelled>(out: &mut Bytes, parts: &[T]) -> Result<(), Memory>
    ensures { OnOk result (out.new ≡ out.old ++ listed (map T.bytes parts.now)) }
{
    for (at, part) in parts.iter().enumerate() {
        separate(out, at)?;
        part.write(out)?;
    }
    Ok(())
}

/// Adds values as a literal spells them, with commas between. A fault has no text.
pub fn write_values(out: &mut Bytes, values: &[Datum]) -> Result<(), Memory>
    ensures { OnOk result (out.new ≡ out.old ++ listed (map spelled values.now)) }
{
    write_list(out, values)
}

/// Adds the text of a coordinate.
pub(crate) fn write_place(out: &mut Bytes, numbers: &[i64]) -> Result<(), Memory>
    ensures { OnOk result (out.new ≡ out.old ++ place_text numbers.now) }
{
    out.push(b'{')?;
    write_list(out, numbers)?;
    out.push(b'}')
}
