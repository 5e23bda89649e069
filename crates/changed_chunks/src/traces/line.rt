//! The line that tells of one array.
ghost use Rattle.std.specs.Prelude.{◌≡◌, ◌++◌, codes, OnOk};
ghost use Rattle.std.specs.Fmt.{decimal};
ghost use Rattle.changed_chunks.specs.Line.{trace_line};

use crate::traces::asking::Asking;
use cell_values::{Bytes, Memory, Name};
use itoa::Buffer;

/// Adds a number in decimal digits.
fn write_number(out: &mut Bytes, number: u64) -> Result<(), Memory>
    ensures { OnOk result (out.new ≡ out.old ++ decimal number) }
{
    let mut buffer = Buffer::new();
    out.extend(buffer.format(number).as_bytes())
}

/// Adds how many chunks were asked for, and of how many, to the end of the line.
fn write_counts(out: &mut Bytes, asking: Asking) -> Result<(), Memory>
    ensures { OnOk result (out.new ≡ out.old
        ++ (codes " asked " ++ decimal asking.asked ++ codes " of " ++ decimal asking.stored ++ codes "\n")) }
{
    out.extend(b" asked ")?;
    write_number(out, asking.asked)?;
    out.extend(b" of ")?;
    write_number(out, asking.stored)?;
    out.push(b'\n')
}

/// Adds the line that tells how many of the stored chunks of a version of an array were asked for, as `trace: A@1 asked 1 of 3`.
pub fn write_line(out: &mut Bytes, name: &Name, version: u32, asking: Asking) -> Result<(), Memory>
    ensures { OnOk result (out.new ≡ out.old ++ trace_line name.now version asking.asked asking.stored) }
{
    out.extend(b"trace: ")?;
    out.extend(name.as_slice())?;
    out.push(b'@')?;
    write_number(out, u64::from(version))?;
    write_counts(out, asking)
}
