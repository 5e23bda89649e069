//! Numbers at places of a page, the low byte first.
ghost use Rattle.std.specs.Prelude.{◌≡◌, ◌≤◌, ◌+◌, length};
ghost use Rattle.page_chain.specs.Places.{number_at};

use byteorder::{ByteOrder, LittleEndian};

/// The number in the eight bytes from a place on.
pub(crate) fn u64_in(page: &[u8], at: usize) -> u64
    requires { at + 8 ≤ length page.now }
    ensures { result ≡ number_at 8 at page.now }
{
    LittleEndian::read_u64(page.split_at(at).1)
}

/// The number in the four bytes from a place on.
pub(crate) fn u32_in(page: &[u8], at: usize) -> u32
    requires { at + 4 ≤ length page.now }
    ensures { result ≡ number_at 4 at page.now }
{
    LittleEndian::read_u32(page.split_at(at).1)
}
