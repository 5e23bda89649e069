//! Reading lengths and lists of pages.
ghost use Rattle.std.specs.Prelude.{◌≡◌};
ghost use Rattle.std.specs.Int.{w32};
ghost use Rattle.file_items.specs.Items.{IsRead, repeat};
ghost use Rattle.file_items.specs.Pages.{positive_at, page_of, seen_nothing, pages_at, pages_needed};

use crate::bytes::{Stop, u32_at, u64_at};
use cell_values::List;
use std::alloc::Global;

/// A number of at least 1.
pub fn positive(bytes: &[u8]) -> Result<(u64, &[u8]), Stop>
    ensures { IsRead (λ x. (x.0, x.1.now)) result (positive_at bytes.now) }
{
    let (number, rest) = u64_at(bytes)?;
    if number == 0 {
        return Err(Stop::Left(bytes.len()));
    }
    Ok((number, rest))
}

fn pages_from(alloc: Global, count: u32, bytes: &[u8]) -> Result<(List<u32>, &[u8]), Stop>
    ensures { IsRead (λ x. (x.0, x.1.now)) result (repeat page_of seen_nothing count tt bytes.now) }
{
    let mut pages = List::new(alloc);
    let mut rest = bytes;
    for _index in 0..count {
        let (page, after) = u32_at(rest)?;
        pages.push(page)?;
        rest = after;
    }
    Ok((pages, rest))
}

fn pages_needed(length: u64) -> u64
    ensures { result ≡ pages_needed length }
{
    if length % 4096 == 0 {
        length / 4096
    } else {
        length / 4096 + 1
    }
}

/// The pages in which so many bytes lie, with their count before them.
#[tactic(auto, unfolding(crate::specs::Pages::pages_at))]
pub fn pages(alloc: Global, length: u64, bytes: &[u8]) -> Result<(List<u32>, &[u8]), Stop>
    ensures { IsRead (λ x. (x.0, x.1.now)) result (pages_at length bytes.now) }
{
    let (count, rest) = u32_at(bytes)?;
    if u64::from(count) != pages_needed(length) {
        return Err(Stop::Left(bytes.len()));
    }
    pages_from(alloc, count, rest)
}
