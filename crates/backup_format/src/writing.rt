//! Writing the items of a backup.
ghost use Rattle.std.specs.Prelude.{◌≡◌, ◌++◌, OnOk};
ghost use Rattle.std.specs.List.{flat_map};
ghost use Rattle.std.specs.Int.{w32, w64, to_le_bytes};
ghost use Rattle.backup_format.specs.Spelling.{before_arrays, before_versions, before_pieces, before_payload};

use cell_values::{Bytes, Memory, Name, Schema};
use file_items::{put_count, put_name, put_schema, put_u32, put_u64};

/// Adds the text with which a backup begins, and the count of its arrays.
pub fn put_before_arrays(out: &mut Bytes, arrays: usize) -> Result<(), Memory>
    ensures { OnOk result (out.new ≡ out.old ++ before_arrays arrays) }
{
    out.extend(b"AFLDUMP1")?;
    put_count(out, arrays)?;
    Ok(())
}

fn put_numbers_of_array(out: &mut Bytes, next: u32, versions: usize) -> Result<(), Memory>
    ensures { OnOk result (out.new ≡ out.old ++ (to_le_bytes w32 next ++ to_le_bytes w32 versions)) }
{
    put_u32(out, next)?;
    put_count(out, versions)?;
    Ok(())
}

/// Adds what stands before the versions of an array.
pub fn put_before_versions(
    out: &mut Bytes,
    name: &Name,
    schema: &Schema,
    next: u32,
    versions: usize,
) -> Result<(), Memory>
    ensures { OnOk result (out.new ≡ out.old ++ before_versions name.now schema.now next versions) }
{
    put_name(out, name)?;
    put_schema(out, schema)?;
    put_numbers_of_array(out, next, versions)?;
    Ok(())
}

/// Adds what stands before the pieces of a version.
pub fn put_before_pieces(out: &mut Bytes, number: u32, pieces: usize) -> Result<(), Memory>
    ensures { OnOk result (out.new ≡ out.old ++ before_pieces number pieces) }
{
    put_u32(out, number)?;
    put_u64(out, pieces as u64)?;
    Ok(())
}

fn put_numbers(out: &mut Bytes, numbers: &[u64]) -> Result<(), Memory>
    ensures { OnOk result (out.new ≡ out.old ++ flat_map (to_le_bytes w64) numbers.now) }
{
    for number in numbers {
        put_u64(out, *number)?;
    }
    Ok(())
}

/// Adds what stands before a payload: the chunk's number, and how many bytes the payload has.
pub fn put_before_payload(out: &mut Bytes, at: &[u64], size: usize) -> Result<(), Memory>
    ensures { OnOk result (out.new ≡ out.old ++ before_payload at.now size) }
{
    put_numbers(out, at)?;
    put_u64(out, size as u64)?;
    Ok(())
}
