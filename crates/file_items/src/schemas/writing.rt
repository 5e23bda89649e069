//! Writing names and schemas.
ghost use Rattle.std.specs.Prelude.{◌≡◌, ◌++◌, OnOk};
ghost use Rattle.std.specs.Int.{w8, w64, to_le_bytes};
ghost use Rattle.file_items.specs.Items.{spell_counted};
ghost use Rattle.file_items.specs.Spelling.{spell_name, kind_number, flag_number, spell_attribute, spell_signed, spell_dimension, spell_schema};

use crate::bytes::put_u64;
use cell_values::{Attribute, Bytes, Dimension, Kind, Memory, Name, Schema};

/// Adds a name.
#[tactic(auto, unfolding(crate::specs::Spelling::spell_name))]
pub fn put_name(out: &mut Bytes, name: &Name) -> Result<(), Memory>
    ensures { OnOk result (out.new ≡ out.old ++ spell_name name.now) }
{
    out.push((name.as_slice().len() % 256) as u8)?;
    out.extend(name.as_slice())?;
    Ok(())
}

fn kind_number(kind: Kind) -> u8
    ensures { result ≡ kind_number kind }
{
    match kind {
        Kind::Int64 => 1,
        Kind::Str => 2,
        Kind::Bool => 3,
    }
}

#[tactic(auto, unfolding(crate::specs::Spelling::spell_attribute))]
fn put_attribute(out: &mut Bytes, attribute: &Attribute) -> Result<(), Memory>
    ensures { OnOk result (out.new ≡ out.old ++ spell_attribute attribute.now) }
{
    put_name(out, &attribute.name)?;
    out.push(kind_number(attribute.kind))?;
    out.push(u8::from(attribute.nullable))?;
    Ok(())
}

#[tactic(auto, unfolding(crate::specs::Spelling::spell_signed))]
fn put_signed(out: &mut Bytes, number: i64) -> Result<(), Memory>
    ensures { OnOk result (out.new ≡ out.old ++ spell_signed number) }
{
    put_u64(out, number.cast_unsigned())
}

fn put_bounds(out: &mut Bytes, lo: i64, hi: i64) -> Result<(), Memory>
    ensures { OnOk result (out.new ≡ out.old ++ (spell_signed lo ++ spell_signed hi)) }
{
    put_signed(out, lo)?;
    put_signed(out, hi)?;
    Ok(())
}

fn put_lengths(out: &mut Bytes, chunk: u64, overlap: u64) -> Result<(), Memory>
    ensures { OnOk result (out.new ≡ out.old ++ (to_le_bytes w64 chunk ++ to_le_bytes w64 overlap)) }
{
    put_u64(out, chunk)?;
    put_u64(out, overlap)?;
    Ok(())
}

#[tactic(auto, unfolding(crate::specs::Spelling::spell_dimension))]
fn put_dimension(out: &mut Bytes, dimension: &Dimension) -> Result<(), Memory>
    ensures { OnOk result (out.new ≡ out.old ++ spell_dimension dimension.now) }
{
    put_name(out, &dimension.name)?;
    put_bounds(out, dimension.lo, dimension.hi)?;
    put_lengths(out, dimension.chunk, dimension.overlap)?;
    Ok(())
}

fn put_attributes(out: &mut Bytes, attributes: &[Attribute]) -> Result<(), Memory>
    ensures { OnOk result (out.new ≡ out.old ++ spell_counted w8 spell_attribute attributes.now) }
{
    out.push((attributes.len() % 256) as u8)?;
    for attribute in attributes {
        put_attribute(out, attribute)?;
    }
    Ok(())
}

fn put_dimensions(out: &mut Bytes, dimensions: &[Dimension]) -> Result<(), Memory>
    ensures { OnOk result (out.new ≡ out.old ++ spell_counted w8 spell_dimension dimensions.now) }
{
    out.push((dimensions.len() % 256) as u8)?;
    for dimension in dimensions {
        put_dimension(out, dimension)?;
    }
    Ok(())
}

/// Adds a schema.
#[tactic(auto, unfolding(crate::specs::Spelling::spell_schema))]
pub fn put_schema(out: &mut Bytes, schema: &Schema) -> Result<(), Memory>
    ensures { OnOk result (out.new ≡ out.old ++ spell_schema schema.now) }
{
    put_attributes(out, schema.attributes.as_slice())?;
    put_dimensions(out, schema.dimensions.as_slice())?;
    Ok(())
}
