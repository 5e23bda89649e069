//! Chains: bytes in pages each of which names the next one.
ghost use Rattle.std.specs.Prelude.{◌≡◌, ℕ, ◌+◌, ◌-◌, ◌≤◌, ◌<◌, ◌++◌, ◌∷◌, [], List, length, take, drop, slice_index, IfSome, IfOk, OnOk, IsErrOf};
ghost use Rattle.afl_outside.specs.Disk.{FailsWithCause};
ghost use Rattle.std.specs.Int.{w32, to_le_bytes, from_le_bytes};
ghost use Rattle.std.specs.FinSet.{from_list};
ghost use Rattle.afl_outside.specs.Counts.{Rose};
ghost use Rattle.page_chain.specs.Pages.{page_size, pages_for, padded, AreDistinct};
ghost use Rattle.page_chain.specs.Places.{KeepsPages};
ghost use Rattle.page_chain.specs.Chains.{content_size, IsChainRead, IsFollowed, HoldsChain};
ghost use Rattle.page_chain.specs.Inner.Runs.{OnlyReads, OnlyWrites, Sees};

use crate::fault::{OpenCause, Stopped};
use crate::page::{PAGE, put_front, read_page, write_page};
use crate::page_set::PageSet;
use afl_outside::{Disk, Failed};
use cell_values::{Bytes, List, Memory};
use std::alloc::Global;

/// The bytes of the number with which a page of a chain begins.
const LINK: usize = 4;

/// A link: the page that holds it, and the page that it names.
#[derive(Clone, Copy)]
pub struct Link {
    pub holder: u32,
    pub page: u32,
}

/// How many pages a chain of so many bytes has.
pub fn chain_pages(count: u64) -> u64
    ensures { result ≡ pages_for (content_size page_size) count }
{
    count.div_ceil((PAGE - LINK) as u64)
}

/// Reads a chain of so many bytes, whose pages may be none of those taken. Its bytes and its pages are answered, or the page that
/// holds the first wrong link.
pub fn read_chain<D: Disk>(
    alloc: Global,
    disk: &mut D,
    first: Link,
    count: u64,
    taken: &[u32],
) -> Result<(Bytes, List<u32>), OpenCause>
    ensures exact { IfSome (D.moment disk.old).state.seen (λ seen. IsChainRead seen taken.now first.holder first.page count result) }
    ensures size { IfOk result (λ x. length x.0 ≡ count) }
    ensures pages { IfOk result (λ x. length x.1 ≡ pages_for (content_size page_size) count) }
    ensures fault { IsErrOf result OpenCause.Disk → Rose (D.moment disk.old).state.faults (D.moment disk.new).state.faults }
    ensures reads { OnlyReads (D.moment disk.old) (D.moment disk.new) }
{
    if count == 0 {
        return Err(OpenCause::NotDatabase { page: first.holder });
    }
    let mut used = PageSet::of(alloc, taken)?;
    let mut pages = List::new(alloc);
    let mut bytes = List::new(alloc);
    let mut piece = [0u8; PAGE];
    let mut link = first;
    let mut due = chain_pages(count);
    'links: while due > 0 {
        let next = match follow(disk, link, &mut used, &mut piece) {
            Ok(next) => next,
            Err(cause) => return Err(cause),
        };
        keep_page(&mut pages, &mut bytes, link.page, &piece)?;
        link = Link {
            holder: link.page,
            page: next,
        };
        due -= 1;
    }
    if link.page != 0 {
        return Err(OpenCause::NotDatabase { page: link.holder });
    }
    bytes.truncate(count as usize);
    Ok((bytes, pages))
}

/// Adds a page to those of a chain, and its content to the bytes.
fn keep_page(
    pages: &mut List<u32>,
    bytes: &mut Bytes,
    page: u32,
    piece: &[u8],
) -> Result<(), Memory>
    requires { 4 ≤ length piece.now }
    ensures pages { OnOk result (pages.new ≡ pages.old ++ page ∷ []) }
    ensures bytes { OnOk result (bytes.new ≡ bytes.old ++ drop 4 piece.now) }
{
    bytes.extend(piece.split_at(LINK).1)?;
    pages.push(page)
}

/// Reads the page that a link names into a piece, adds it to the pages in use, and answers its own link.
fn follow<D: Disk>(
    disk: &mut D,
    link: Link,
    used: &mut PageSet,
    piece: &mut [u8],
) -> Result<u32, OpenCause>
    requires { length piece.old ≡ page_size }
    ensures exact { IfSome (D.moment disk.old).state.seen (λ seen. (taken : List ℕ) → used.old ≡ from_list taken
        → IsFollowed seen taken link.holder link.page used.new piece.new result) }
    ensures fault { IsErrOf result OpenCause.Disk → Rose (D.moment disk.old).state.faults (D.moment disk.new).state.faults }
    ensures reads { OnlyReads (D.moment disk.old) (D.moment disk.new) }
{
    let wrong = OpenCause::NotDatabase { page: link.holder };
    if link.page == 0 {
        return Err(wrong);
    }
    if used.has(link.page) {
        return Err(wrong);
    }
    used.insert(link.page)?;
    match read_page(disk, link.page, piece) {
        Ok(true) => Ok(link_in(piece)),
        Ok(false) => Err(wrong),
        Err(Stopped::Disk) => Err(OpenCause::Disk),
        Err(Stopped::Memory) => Err(OpenCause::Memory),
    }
}

/// The link in a page.
#[tactic(auto, using(crate::proofs::Kept::size_is))]
fn link_in(piece: &[u8]) -> u32
    requires { length piece.now ≡ page_size }
    ensures { result ≡ from_le_bytes w32 (take 4 piece.now) }
{
    let (link, _) = piece.split_at(LINK);
    u32::from_le_bytes([link[0], link[1], link[2], link[3]])
}

/// Writes bytes as a chain.
pub fn write_chain<D: Disk>(disk: &mut D, pages: &[u32], bytes: &[u8]) -> Result<(), Failed>
    requires distinct { AreDistinct pages.now }
    requires pages { length pages.now ≡ pages_for (content_size page_size) (length bytes.now) }
    ensures seen { Sees (D.moment disk.old).state (D.moment disk.new).state
        (λ seen now. KeepsPages pages.now seen now × OnOk result (HoldsChain page_size now pages.now bytes.now)) }
    ensures cause { FailsWithCause result (D.moment disk.old) (D.moment disk.new) }
    ensures writes { OnlyWrites pages.now (D.moment disk.old) (D.moment disk.new) }
{
    let mut piece = [0u8; PAGE];
    let mut rest = bytes;
    for (i, page) in pages.iter().enumerate() {
        rest = put_linked(&mut piece, page_after(pages, i), rest);
        write_page(disk, *page, &piece)?;
    }
    Ok(())
}

/// The page behind this one in the list, and 0 behind the last.
fn page_after(pages: &[u32], at: usize) -> u32
    requires { at < length pages.now }
    ensures { result ≡ slice_index pages.now (at + 1) }
{
    match pages.get(at + 1) {
        Some(page) => *page,
        None => 0,
    }
}

/// Puts a link into a piece, and the front of some bytes behind it. What is left of them is answered.
fn put_linked<'a>(piece: &mut [u8], next: u32, bytes: &'a [u8]) -> &'a [u8]
    requires { 4 ≤ length piece.old }
    ensures piece { piece.new ≡ to_le_bytes w32 next ++ padded (length piece.old - 4) (take (length piece.old - 4) bytes.now) }
    ensures rest { result.now ≡ drop (length piece.old - 4) bytes.now }
{
    let (link, content) = piece.split_at_mut(LINK);
    link.copy_from_slice(&next.to_le_bytes());
    put_front(content, bytes)
}
