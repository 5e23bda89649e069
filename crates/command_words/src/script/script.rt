//! The script for a number.
ghost use Rattle.std.specs.Prelude.{◌≡◌, ◌++◌, IfOk, OnOk};
ghost use Rattle.std.specs.Fmt.{decimal};
ghost use Rattle.command_words.specs.Script.{built, inserting, script, storing};

use cell_values::{Bytes, Memory};
use itoa::Buffer;
use std::alloc::Global;

/// Adds a number in decimal digits.
fn write_number(out: &mut Bytes, number: u32) -> Result<(), Memory>
    ensures { OnOk result (out.new ≡ out.old ++ decimal number) }
{
    let mut buffer = Buffer::new();
    out.extend(buffer.format(number).as_bytes())
}

/// The query of which the array's cells are taken.
fn build_for(alloc: Global, number: u32) -> Result<Bytes, Memory>
    ensures { IfOk result (λ text. text ≡ built number) }
{
    let mut text = Bytes::from_slice(alloc, b"build(<v:int64>[x=0:999,100,2,y=0:999,100,2], (")?;
    write_number(&mut text, 10 * (number % 100) + 1)?;
    text.extend(b"*x+")?;
    write_number(&mut text, 10 * (number % 10) + 3)?;
    text.extend(b"*y+")?;
    write_number(&mut text, number % 1000)?;
    text.extend(b")%1000)")?;
    Ok(text)
}

/// The statements that store cells, and read them.
fn storing(alloc: Global, number: u32) -> Result<Bytes, Memory>
    ensures { IfOk result (λ text. text ≡ storing number) }
{
    let build = build_for(alloc, number)?;
    let mut text = Bytes::from_slice(alloc, b"store(filter(")?;
    text.extend(build.as_slice())?;
    text.extend(b", v<20), G);\n")?;
    text.extend(b"aggregate(G, count(*), sum(v), min(v), max(v));\n")?;
    text.extend(b"between(G, 0, 0, 0, 199);\n")?;
    Ok(text)
}

/// The statements that insert more cells, and read both versions.
fn inserting(alloc: Global, number: u32) -> Result<Bytes, Memory>
    ensures { IfOk result (λ text. text ≡ inserting number) }
{
    let build = build_for(alloc, number)?;
    let mut text = Bytes::from_slice(alloc, b"insert(filter(")?;
    text.extend(build.as_slice())?;
    text.extend(b", v>=20 and v<30), G);\n")?;
    text.extend(b"aggregate(G, count(*), sum(v), min(v), max(v));\n")?;
    text.extend(b"aggregate(join(G@1, G@2), count(*), sum(v_2));\n")?;
    Ok(text)
}

/// The script for a number: it stores an array, inserts more of its cells, and aggregates both versions and their join.
pub fn script_of(alloc: Global, number: u32) -> Result<Bytes, Memory>
    ensures { IfOk result (λ text. text ≡ script number) }
{
    let mut text = storing(alloc, number)?;
    let more = inserting(alloc, number)?;
    text.extend(more.as_slice())?;
    Ok(text)
}
