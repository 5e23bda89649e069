//! The root slots of page 0.
ghost use Rattle.std.specs.Prelude.{◌≡◌, ◌≤◌, ◌<◌, ◌+◌, ◌++◌, length, IsTrue};
ghost use Rattle.byteorder.specs.Endian.{little_bytes};
ghost use Rattle.page_chain.specs.Roots.{has_front, root_at, slot_in, newer, current};

use crate::slots::layout::fields::{u32_in, u64_in};
use crate::slots::layout::{Format, PAGE, Side};
use byteorder::{ByteOrder, LittleEndian};

/// What a root slot's body says: the database's sequence, and the catalogue's length and first page. `log` is the log
/// page, and 0 in format 1.
#[derive(Clone, Copy)]
pub struct Root {
    pub sequence: u64,
    pub length: u64,
    pub first: u32,
    pub log: u32,
}

/// An open root slot.
#[derive(Clone, Copy)]
pub struct OpenRoot {
    pub side: Side,
    pub format: Format,
    pub root: Root,
}

/// `AFLSTORE`, the low byte first.
const TEXT: u64 = 0x4552_4F54_534C_4641;

fn has_front(page: &[u8]) -> bool
    ensures { result ≡ has_front page.now }
{
    if page.len() < PAGE || u64_in(page, 0) != TEXT {
        return false;
    }
    let format = u32_in(page, 8);
    format == 1 || format == 2
}

fn root_at(page: &[u8], at: usize) -> Root
    requires { at + 24 ≤ length page.now }
    ensures { result ≡ root_at at page.now }
{
    Root {
        sequence: u64_in(page, at),
        length: u64_in(page, at + 8),
        first: u32_in(page, at + 16),
        log: u32_in(page, at + 20),
    }
}

fn slot_in(page: &[u8], side: Side) -> Option<OpenRoot>
    requires { 4096 ≤ length page.now }
    ensures { result ≡ slot_in side page.now }
{
    let root = root_at(page, side.body());
    match page[side.gate()] {
        1 => Some(OpenRoot {
            side,
            format: Format::One,
            root: Root { log: 0, ..root },
        }),
        2 => Some(OpenRoot {
            side,
            format: Format::Two,
            root,
        }),
        _ => None,
    }
}

fn newer(a: Option<OpenRoot>, b: Option<OpenRoot>) -> Option<OpenRoot>
    ensures { result ≡ newer a b }
{
    match (a, b) {
        (Some(a), Some(b)) => {
            if b.root.sequence < a.root.sequence {
                Some(a)
            } else if a.root.sequence < b.root.sequence {
                Some(b)
            } else {
                None
            }
        }
        (Some(a), None) => Some(a),
        (None, b) => b,
    }
}

/// The current slot of a file whose first page this is, where the page is right and there is one.
pub fn current_in(page: &[u8]) -> Option<OpenRoot>
    ensures { result ≡ current page.now }
{
    if has_front(page) {
        newer(slot_in(page, Side::A), slot_in(page, Side::B))
    } else {
        None
    }
}

fn root_bytes(root: Root) -> [u8; 24]
    ensures { result ≡ little_bytes 8 root.sequence ++ little_bytes 8 root.length ++ little_bytes 4 root.first ++ little_bytes 4 root.log }
{
    let mut body = [0; 24];
    LittleEndian::write_u64(&mut body, root.sequence);
    LittleEndian::write_u64(&mut body[8..], root.length);
    LittleEndian::write_u32(&mut body[16..], root.first);
    LittleEndian::write_u32(&mut body[20..], root.log);
    body
}

/// The body of a root slot.
pub fn root_body(root: Root) -> [u8; 24]
    ensures bytes { result ≡ little_bytes 8 root.sequence ++ little_bytes 8 root.length ++ little_bytes 4 root.first ++ little_bytes 4 root.log }
    ensures reads { root_at 0 result ≡ root }
    ensures size { length result ≡ 24 }
{
    root_bytes(root)
}
