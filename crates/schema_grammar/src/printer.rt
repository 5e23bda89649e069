//! The text of a schema.
ghost use Rattle.std.specs.Prelude.{◌≡◌, ℕ, ℤ, ◌++◌, [], ◌∷◌, List, map, IfOk, OnOk};
ghost use Rattle.std.specs.Fmt.{decimal, signed_decimal};
ghost use Rattle.std.specs.List.{All, join_with_byte};
ghost use Rattle.afl_lexer.specs.Naming.{IsName};
ghost use Rattle.afl_lexer.specs.Schemas.{IsValid};
ghost use Rattle.schema_grammar.specs.ReadAs.{IsReadAs};
ghost use Rattle.schema_grammar.specs.SchemaBytes.{attr_bytes, bounds_bytes, dim_bytes, high_bytes, kind_bytes};
ghost use Rattle.schema_grammar.specs.SchemaBytes.{lengths_bytes, parts_bytes, schema_bytes, separator, shape_bytes};

use crate::shape_text::UNBOUNDED;
use crate::{AttrText, DimText, SchemaText};
use afl_lexer::{Attribute, Bytes, Dimension, Kind, List, Memory, Name, Schema};
use std::alloc::Global;

/// An attribute or a dimension, which has a text.
trait Written {
    ghost bytes: { Self → List ℕ };

    ghost named: { Self → List ℕ };

    /// Adds the text at the end.
    fn write(&self, out: &mut Bytes) -> Result<(), Memory>
        ensures text { OnOk result (out.new ≡ out.old ++ bytes self.now) }
        ensures name { IsName (named self.now) };
}

fn kind_word(kind: Kind) -> &'static [u8]
    ensures { result.now ≡ kind_bytes kind }
{
    match kind {
        Kind::Int64 => b"int64",
        Kind::Str => b"string",
        Kind::Bool => b"bool",
    }
}

fn write_number(out: &mut Bytes, number: u64) -> Result<(), Memory>
    ensures { OnOk result (out.new ≡ out.old ++ decimal number) }
{
    out.extend(number.to_string(out.allocator())?.as_bytes())
}

fn write_bound(out: &mut Bytes, bound: i64) -> Result<(), Memory>
    ensures { OnOk result (out.new ≡ out.old ++ signed_decimal bound) }
{
    out.extend(bound.to_string(out.allocator())?.as_bytes())
}

fn write_high(out: &mut Bytes, bound: i64) -> Result<(), Memory>
    ensures { OnOk result (out.new ≡ out.old ++ high_bytes bound) }
{
    if bound == UNBOUNDED {
        out.push(b'*')
    } else {
        write_bound(out, bound)
    }
}

fn write_attribute(out: &mut Bytes, name: &Name, word: &[u8], nullable: bool) -> Result<(), Memory>
    ensures text { OnOk result (out.new ≡ out.old ++ attr_bytes name.now word.now nullable) }
    ensures name { IsName name.now }
{
    out.extend(name.as_slice())?;
    out.push(b':')?;
    out.extend(word)?;
    if nullable {
        Ok(())
    } else {
        out.extend(b" not null")
    }
}

fn write_bounds(out: &mut Bytes, lo: i64, hi: i64) -> Result<(), Memory>
    ensures { OnOk result (out.new ≡ out.old ++ bounds_bytes lo hi) }
{
    write_bound(out, lo)?;
    out.push(b':')?;
    write_high(out, hi)
}

fn write_lengths(out: &mut Bytes, chunk: u64, overlap: u64) -> Result<(), Memory>
    ensures { OnOk result (out.new ≡ out.old ++ lengths_bytes chunk overlap) }
{
    write_number(out, chunk)?;
    out.push(b',')?;
    write_number(out, overlap)
}

fn write_dimension(
    out: &mut Bytes,
    name: &Name,
    lo: i64,
    hi: i64,
    chunk: u64,
    overlap: u64,
) -> Result<(), Memory>
    ensures text { OnOk result (out.new ≡ out.old ++ dim_bytes name.now lo hi chunk overlap) }
    ensures name { IsName name.now }
{
    out.extend(name.as_slice())?;
    out.push(b'=')?;
    write_bounds(out, lo, hi)?;
    out.push(b',')?;
    write_lengths(out, chunk, overlap)
}

impl Written for Attribute {
    ghost use Rattle.schema_grammar.specs.SchemaBytes.{attribute_bytes};

    ghost bytes = { attribute_bytes };

    ghost named = { λ part. part.name };

    fn write(&self, out: &mut Bytes) -> Result<(), Memory> {
        write_attribute(out, &self.name, kind_word(self.kind), self.nullable)
    }
}

impl Written for AttrText {
    ghost use Rattle.schema_grammar.specs.SchemaBytes.{attr_text_bytes};

    ghost bytes = { attr_text_bytes };

    ghost named = { λ part. part.name };

    fn write(&self, out: &mut Bytes) -> Result<(), Memory> {
        write_attribute(out, &self.name, self.word.as_slice(), self.nullable)
    }
}

impl Written for Dimension {
    ghost use Rattle.schema_grammar.specs.SchemaBytes.{dimension_bytes};

    ghost bytes = { dimension_bytes };

    ghost named = { λ part. part.name };

    fn write(&self, out: &mut Bytes) -> Result<(), Memory> {
        write_dimension(out, &self.name, self.lo, self.hi, self.chunk, self.overlap)
    }
}

impl Written for DimText {
    ghost use Rattle.schema_grammar.specs.SchemaBytes.{dim_text_bytes};

    ghost bytes = { dim_text_bytes };

    ghost named = { λ part. part.name };

    fn write(&self, out: &mut Bytes) -> Result<(), Memory> {
        write_dimension(out, &self.name, self.lo, self.hi, self.chunk, self.overlap)
    }
}

/// Adds what stands before a part.
fn separate(out: &mut Bytes, at: usize) -> Result<(), Memory>
    ensures { OnOk result (out.new ≡ out.old ++ separator at) }
{
    if at > 0 { out.push(b',') } else { Ok(()) }
}

/// Adds the texts of parts, with commas between.
fn write_all<T: Written>(out: &mut Bytes, parts: &[T]) -> Result<(), Memory>
    ensures text { OnOk result (out.new ≡ out.old ++ join_with_byte 44 (map T.bytes parts.now)) }
    ensures names { OnOk result (All (λ part. IsName (T.named part)) parts.now) }
{
    for (at, part) in parts.iter().enumerate() {
        separate(out, at)?;
        part.write(out)?;
    }
    Ok(())
}

/// Adds the text of these parts.
fn write_schema<A: Written, D: Written>(
    out: &mut Bytes,
    attributes: &[A],
    dimensions: &[D],
) -> Result<(), Memory>
    ensures text { OnOk result (out.new ≡ out.old ++ parts_bytes (map A.bytes attributes.now) (map D.bytes dimensions.now)) }
    ensures attributes { OnOk result (All (λ part. IsName (A.named part)) attributes.now) }
    ensures dimensions { OnOk result (All (λ part. IsName (D.named part)) dimensions.now) }
{
    out.push(b'<')?;
    write_all(out, attributes)?;
    out.extend(b">[")?;
    write_all(out, dimensions)?;
    out.push(b']')
}

fn write_parts<A: Written, D: Written>(
    alloc: Global,
    attributes: &[A],
    dimensions: &[D],
) -> Result<Bytes, Memory>
    ensures text { IfOk result (λ text. text ≡ parts_bytes (map A.bytes attributes.now) (map D.bytes dimensions.now)) }
    ensures attributes { OnOk result (All (λ part. IsName (A.named part)) attributes.now) }
    ensures dimensions { OnOk result (All (λ part. IsName (D.named part)) dimensions.now) }
{
    let mut text = List::new(alloc);
    match write_schema(&mut text, attributes, dimensions) {
        Ok(()) => Ok(text),
        Err(Memory) => {
            drop(text);
            Err(Memory)
        }
    }
}

/// The one text of a schema, as `<v:int64 not null>[x=0:*,100,2]`. Read again, it means the schema.
#[tactic(auto, using(crate::proofs::SchemaAgain::read_as))]
pub fn schema_text(alloc: Global, schema: &Schema) -> Result<Bytes, Memory>
    ensures text { IfOk result (λ text. text ≡ schema_bytes schema.now) }
    ensures read { IsValid schema.now → IfOk result (λ text. IsReadAs text schema.now) }
{
    write_parts(
        alloc,
        schema.attributes.as_slice(),
        schema.dimensions.as_slice(),
    )
}

/// The text of a schema's syntax tree, in the form of `schema_text`.
pub fn print_shape(alloc: Global, shape: &SchemaText) -> Result<Bytes, Memory>
    ensures { IfOk result (λ text. text ≡ shape_bytes shape.now) }
{
    write_parts(
        alloc,
        shape.attributes.as_slice(),
        shape.dimensions.as_slice(),
    )
}
