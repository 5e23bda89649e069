//! The chunks that a change writes, spelled.
ghost use Rattle.std.specs.Prelude.{◌≡◌, ◌<◌, ◌≤◌, ◌^◌, map, take, drop, replicate, length, IfOk, IfSome, OnOk};
ghost use Rattle.std.specs.List.{AllByRecursion};
ghost use Rattle.array_geom.specs.Link.{NumbersRise, numbers};
ghost use Rattle.chunk_rle.specs.Chunks.{spelling as payload_spelling};
ghost use Rattle.commit_pages.specs.Changes.{AreValid};
ghost use Rattle.commit_pages.specs.Commits.{chain_count};
ghost use Rattle.commit_pages.specs.Versions.{blob_count, placed, all_placed, drafted, draft, draft_of, IsWritten, CanBeListed};

use array_geom::{Changed, Chunk};
use cell_values::{Bytes, ChunkAt, List, Memory, Schema, copy_numbers};
use chunk_rle::encode;
use page_chain::{blob_pages, chain_pages};
use page_file::Placed;
use std::alloc::Global;

/// The chunks that a change writes: their numbers, and their payloads in as many pages as these need.
#[derive(Drop)]
pub struct Written {
    /// Whether they are all chunks of the version.
    pub whole: bool,
    /// The sequence of the commit that writes them.
    pub birth: u64,
    pub numbers: List<ChunkAt>,
    pub payloads: List<Placed>,
}

/// Lets the spelled chunks of a change go.
pub fn let_go_written(written: Option<Written>) {
    drop(written);
}

/// How many pages some bytes need as a blob.
pub(crate) fn blob_count(bytes: &Bytes) -> usize
    ensures count { result ≡ blob_count bytes.now }
    ensures short { length bytes.now < 2 ^ 64 }
{
    blob_pages(bytes.len() as u64) as usize
}

/// How many pages some bytes need as a chain.
pub(crate) fn chain_count(bytes: &Bytes) -> usize
    ensures { result ≡ chain_count bytes.now }
{
    chain_pages(bytes.len() as u64) as usize
}

/// The first of some pages, as many as are asked for.
pub(crate) fn first_pages(alloc: Global, pages: &[u32], count: usize) -> Result<List<u32>, Memory>
    ensures { IfOk result (λ first. first ≡ take count pages.now) }
{
    List::from_slice(alloc, &pages[..count.min(pages.len())])
}

/// The pages behind the first ones.
pub(crate) fn pages_behind(pages: &[u32], count: usize) -> &[u32]
    ensures { result.now ≡ drop count pages.now }
{
    &pages[count.min(pages.len())..]
}

/// As many pages as some bytes need, each as if it were page 1.
pub(crate) fn drafted_pages(alloc: Global, bytes: &Bytes) -> Result<List<u32>, Memory>
    ensures pages { IfOk result (λ pages. pages ≡ replicate (blob_count bytes.now) 1) }
    ensures short { IfOk result (λ _. length bytes.now < 2 ^ 64) }
{
    Ok(List::from_vec(vec![in alloc; 1u32; blob_count(bytes)]?))
}

fn drafted_payload(alloc: Global, schema: &Schema, chunk: &Chunk) -> Result<Placed, Memory>
    ensures drafted { IfOk result (λ one. one ≡ drafted (payload_spelling schema.now.attributes chunk.now)) }
    ensures short { IfOk result (λ one. length one.bytes < 2 ^ 64) }
{
    let bytes = encode(alloc, schema, chunk)?;
    let pages = drafted_pages(alloc, &bytes)?;
    Ok(Placed { pages, bytes })
}

fn drafted_payloads(
    alloc: Global,
    schema: &Schema,
    chunks: &[Chunk],
) -> Result<List<Placed>, Memory>
    ensures drafted { IfOk result (λ payloads. payloads ≡ map (λ chunk. drafted (payload_spelling schema.now.attributes chunk)) chunks.now) }
    ensures short { IfOk result (AllByRecursion (λ one. length one.bytes < 2 ^ 64)) }
{
    let mut payloads = List::with_capacity(alloc, chunks.len())?;
    for chunk in chunks {
        payloads.push(drafted_payload(alloc, schema, chunk)?)?;
    }
    Ok(payloads)
}

fn numbers_of(alloc: Global, chunks: &[Chunk]) -> Result<List<ChunkAt>, Memory>
    ensures { IfOk result (λ numbers. numbers ≡ map (λ chunk. chunk.at) chunks.now) }
{
    let mut numbers = List::with_capacity(alloc, chunks.len())?;
    for chunk in chunks {
        numbers.push(copy_numbers(&chunk.at))?;
    }
    Ok(numbers)
}

fn draft_chunks(alloc: Global, changed: &Changed, birth: u64) -> Result<Written, Memory>
    ensures drafted { IfOk result (λ written. written ≡ draft birth changed.now) }
    ensures short { IfOk result (λ written. AllByRecursion (λ one. length one.bytes < 2 ^ 64) written.payloads) }
{
    let chunks = changed.chunks.as_slice();
    let numbers = numbers_of(alloc, chunks)?;
    match drafted_payloads(alloc, &changed.schema, chunks) {
        Ok(payloads) => Ok(Written {
            whole: changed.whole,
            birth,
            numbers,
            payloads,
        }),
        Err(Memory) => {
            drop(numbers);
            Err(Memory)
        }
    }
}

/// The chunks that the commit of this sequence writes, before their pages are known.
pub fn draft(
    alloc: Global,
    changed: &Option<Changed>,
    birth: u64,
) -> Result<Option<Written>, Memory>
    requires { IfSome changed.now (λ some. NumbersRise (numbers some.chunks)) }
    ensures spelled { IfOk result (λ written. written ≡ draft_of birth changed.now) }
    ensures ready { IfOk result (λ written. IfSome written IsWritten) }
    ensures listed { IfOk result (λ _. IfSome changed.now (λ some. AreValid some → 1 ≤ birth
        → CanBeListed (length some.schema.dimensions) (draft birth some))) }
{
    match changed {
        Some(changed) => Ok(Some(draft_chunks(alloc, changed, birth)?)),
        None => Ok(None),
    }
}

/// Puts a blob into the first of these pages, and gives those behind them.
fn settle<'a>(alloc: Global, one: &mut Placed, pages: &'a [u32]) -> Result<&'a [u32], Memory>
    ensures own { OnOk result (one.new ≡ placed pages.now one.old.bytes) }
    ensures rest { IfOk result (λ rest. rest.now ≡ drop (blob_count one.old.bytes) pages.now) }
{
    let count = blob_count(&one.bytes);
    one.pages = first_pages(alloc, pages, count)?;
    Ok(pages_behind(pages, count))
}

/// Puts blobs one after the other into these pages.
pub(crate) fn settle_all(alloc: Global, blobs: &mut [Placed], pages: &[u32]) -> Result<(), Memory>
    ensures { OnOk result (blobs.new ≡ all_placed pages.now blobs.old) }
{
    let mut rest = pages;
    for blob in blobs.iter_mut() {
        rest = settle(alloc, blob, rest)?;
    }
    Ok(())
}
