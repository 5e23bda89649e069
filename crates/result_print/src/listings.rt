//! The texts of changes and listings.
ghost use Rattle.std.specs.Prelude.{◌≡◌, ◌++◌, codes, IfOk, OnOk};
ghost use Rattle.std.specs.Fmt.{decimal};
ghost use Rattle.afl_lexer.specs.Spelling.{quoted_text};
ghost use Rattle.schema_grammar.specs.SchemaBytes.{schema_bytes};
ghost use Rattle.result_print.specs.Listings.{array_line, list_text, numbered, ok_line, show_text, stored_line, version_line, versions_text};

use crate::spelling::{write_count, write_text};
use cell_values::{Bytes, Memory, Name, Schema};
use logical_plan::{NameEntry, Names};
use schema_grammar::schema_text;
use std::alloc::Global;

/// The line of a change that stores no version: `ok`.
pub fn ok_line(alloc: Global) -> Result<Bytes, Memory>
    ensures { IfOk result (λ line. line ≡ ok_line) }
{
    Bytes::from_slice(alloc, b"ok\n")
}

/// The line of a change that stores a version of an array, as `ok A@3`.
pub fn stored_line(alloc: Global, name: &Name, number: u32) -> Result<Bytes, Memory>
    ensures { IfOk result (λ line. line ≡ stored_line name.now number) }
{
    let mut line = Bytes::from_slice(alloc, b"ok ")?;
    line.extend(name.as_slice())?;
    line.push(b'@')?;
    write_count(&mut line, u64::from(number))?;
    line.push(b'\n')?;
    Ok(line)
}

/// Adds the number of a line, as `{3} `.
fn write_number(out: &mut Bytes, number: u64) -> Result<(), Memory>
    ensures { OnOk result (out.new ≡ out.old ++ (codes "{" ++ decimal number ++ codes "} ")) }
{
    out.push(b'{')?;
    write_count(out, number)?;
    out.extend(b"} ")
}

fn write_version(out: &mut Bytes, number: u64, version: u32) -> Result<(), Memory>
    ensures { OnOk result (out.new ≡ out.old ++ version_line number version) }
{
    write_number(out, number)?;
    write_count(out, u64::from(version))?;
    out.push(b'\n')
}

/// Adds a line for each version, from 1 on.
fn write_versions(out: &mut Bytes, versions: &[u32]) -> Result<(), Memory>
    ensures { OnOk result (out.new ≡ out.old ++ numbered version_line 1 versions.now) }
{
    for (at, version) in versions.iter().enumerate() {
        write_version(out, at as u64 + 1, *version)?;
    }
    Ok(())
}

/// The numbers of an array's versions: a header, and a line as `{1} 4` for each, from 1 on.
pub fn versions_text(alloc: Global, entry: &NameEntry) -> Result<Bytes, Memory>
    ensures { IfOk result (λ text. text ≡ versions_text entry.now) }
{
    let mut text = Bytes::from_slice(alloc, b"{VersionNo} version_id\n")?;
    write_versions(&mut text, entry.versions.as_slice())?;
    Ok(text)
}

fn write_schema(out: &mut Bytes, schema: &Schema) -> Result<(), Memory>
    ensures { OnOk result (out.new ≡ out.old ++ schema_bytes schema.now) }
{
    let text = schema_text(out.allocator(), schema)?;
    out.extend(text.as_slice())
}

/// An array's name and its schema, as `A<v:int64 not null>[i=0:*,100,0]`.
pub fn show_text(alloc: Global, entry: &NameEntry) -> Result<Bytes, Memory>
    ensures { IfOk result (λ text. text ≡ show_text entry.now) }
{
    let mut text = Bytes::from_slice(alloc, entry.name.as_slice())?;
    write_schema(&mut text, &entry.schema)?;
    text.push(b'\n')?;
    Ok(text)
}

fn write_quoted_schema(out: &mut Bytes, schema: &Schema) -> Result<(), Memory>
    ensures { OnOk result (out.new ≡ out.old ++ quoted_text (schema_bytes schema.now)) }
{
    let text = schema_text(out.allocator(), schema)?;
    write_text(out, text.as_slice())
}

fn write_array(out: &mut Bytes, number: u64, entry: &NameEntry) -> Result<(), Memory>
    ensures { OnOk result (out.new ≡ out.old ++ array_line number entry.now) }
{
    write_number(out, number)?;
    write_text(out, entry.name.as_slice())?;
    out.push(b',')?;
    write_quoted_schema(out, &entry.schema)?;
    out.push(b'\n')
}

/// Adds a line for each array, from 0 on.
fn write_arrays(out: &mut Bytes, arrays: &[NameEntry]) -> Result<(), Memory>
    ensures { OnOk result (out.new ≡ out.old ++ numbered array_line 0 arrays.now) }
{
    for (at, entry) in arrays.iter().enumerate() {
        write_array(out, at as u64, entry)?;
    }
    Ok(())
}

/// The stored arrays: a header, and a line as `{0} 'A','<v:int64>[i=0:*,100,0]'` for each, from 0 on.
pub fn list_text(alloc: Global, names: &Names) -> Result<Bytes, Memory>
    ensures { IfOk result (λ text. text ≡ list_text names.now) }
{
    let mut text = Bytes::from_slice(alloc, b"{No} name,schema\n")?;
    write_arrays(&mut text, names.arrays.as_slice())?;
    Ok(text)
}
