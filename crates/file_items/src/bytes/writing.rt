//! Numbers, the low byte first, at the end of some bytes.
ghost use Rattle.std.specs.Prelude.{◌≡◌, ◌++◌, OnOk};
ghost use Rattle.std.specs.Int.{w32, w64, to_le_bytes};

use cell_values::{Bytes, Memory};

/// Adds a number of four bytes.
pub fn put_u32(out: &mut Bytes, number: u32) -> Result<(), Memory>
    ensures { OnOk result (out.new ≡ out.old ++ to_le_bytes w32 number) }
{
    out.extend(&number.to_le_bytes())
}

/// Adds a number of eight bytes.
pub fn put_u64(out: &mut Bytes, number: u64) -> Result<(), Memory>
    ensures { OnOk result (out.new ≡ out.old ++ to_le_bytes w64 number) }
{
    out.extend(number.to_le_bytes().as_slice())
}
