//! Writing lists of pages.
ghost use Rattle.std.specs.Prelude.{◌≡◌, ◌++◌, OnOk};
ghost use Rattle.std.specs.Int.{w32, to_le_bytes};
ghost use Rattle.file_items.specs.Pages.{spell_pages};

use crate::bytes::put_u32;
use cell_values::{Bytes, Memory};

/// The low four bytes of a count.
#[tactic(auto, using(crate::proofs::PagesLaws::low_bytes))]
fn low(count: usize) -> u32
    ensures { to_le_bytes w32 result ≡ to_le_bytes w32 count }
{
    (count % 4294967296) as u32
}

/// Adds a count of four bytes, of which only the low ones of a greater count are written.
pub fn put_count(out: &mut Bytes, count: usize) -> Result<(), Memory>
    ensures { OnOk result (out.new ≡ out.old ++ to_le_bytes w32 count) }
{
    put_u32(out, low(count))
}

/// Adds pages, with their count before them.
pub fn put_pages(out: &mut Bytes, pages: &[u32]) -> Result<(), Memory>
    ensures { OnOk result (out.new ≡ out.old ++ spell_pages pages.now) }
{
    put_count(out, pages.len())?;
    for page in pages {
        put_u32(out, *page)?;
    }
    Ok(())
}
