//! Writing to two pages.
ghost use Rattle.std.specs.Prelude.{◌≡◌, ◌≢◌, [], ◌∷◌, length};
ghost use Rattle.page_chain.specs.Pages.{page_size, pages_for};
ghost use Rattle.page_chain.specs.Chains.{content_size};

use afl_outside::{Disk, Failed};
use page_chain::{blob_pages, chain_pages, write_blob, write_chain};

/// Writes 5,000 bytes 7 as a chain to pages 2 and 1, and 5,000 bytes 8 as a blob to pages 4 and 3. Whether both were written.
pub(crate) fn write_two<D: Disk>(disk: &mut D) -> bool {
    chain_to(disk, 2, 1, &[7; 5000]).is_ok() && blob_to(disk, 4, 3, &[8; 5000]).is_ok()
}

fn chain_to<D: Disk>(disk: &mut D, first: u32, second: u32, bytes: &[u8]) -> Result<(), Failed> {
    if first == second || chain_pages(bytes.len() as u64) != 2 {
        return Err(Failed);
    }
    two_of_chain(disk, first, second, bytes)
}

fn two_of_chain<D: Disk>(disk: &mut D, first: u32, second: u32, bytes: &[u8]) -> Result<(), Failed>
    requires apart { first ≢ second }
    requires two { pages_for (content_size page_size) (length bytes.now) ≡ 2 }
{
    write_chain(disk, &[first, second], bytes)
}

fn blob_to<D: Disk>(disk: &mut D, first: u32, second: u32, bytes: &[u8]) -> Result<(), Failed> {
    if first == second || blob_pages(bytes.len() as u64) != 2 {
        return Err(Failed);
    }
    two_of_blob(disk, first, second, bytes)
}

fn two_of_blob<D: Disk>(disk: &mut D, first: u32, second: u32, bytes: &[u8]) -> Result<(), Failed>
    requires apart { first ≢ second }
    requires two { pages_for page_size (length bytes.now) ≡ 2 }
{
    write_blob(disk, &[first, second], bytes)
}
