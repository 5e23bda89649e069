//! The payloads of a directory.
ghost use Rattle.std.specs.Prelude.{◌≡◌, ◌+◌, ◌&&◌, ℕ, List, [], length, nat_lt};
ghost use Rattle.std.specs.List.{AllByRecursion, list_all};
ghost use Rattle.array_geom.specs.Link.{number_order};
ghost use Rattle.chunk_map.specs.Entries.{AreRising};
ghost use Rattle.file_meaning.specs.Opening.{are_pages, is_entry, is_same, is_seen, payload_in, payloads_in};
ghost use Rattle.file_reading.specs.Inner.Rows.{entries_of};
ghost use Rattle.file_reading.specs.Inner.Taken.{IsTaken, IsClaimed};

use crate::base::Base;
use crate::taken::{TakenPages, claim};
use array_geom::has_core;
use cell_values::{Schema, compare_numbers};
use chunk_map::{DirEntry, Directory};
use std::cmp::Ordering;

/// Whether two entries agree in all that they say.
fn is_same(a: &DirEntry, b: &DirEntry) -> bool
    ensures { result ≡ is_same a.now b.now }
{
    compare_numbers(&a.at, &b.at).is_eq()
        && (a.length == b.length
            && (a.birth == b.birth && a.pages.as_slice().cmp(b.pages.as_slice()).is_eq()))
}

fn order_of(other: &DirEntry, entry: &DirEntry) -> Ordering
    ensures { result ≡ number_order other.now.at.items entry.now.at.items }
{
    compare_numbers(&other.at, &entry.at)
}

/// Whether an equal entry is among some that rise.
fn has_entry(entries: &[DirEntry], entry: &DirEntry) -> bool
    requires { AreRising entries.now }
    ensures { result ≡ is_seen entries.now entry.now }
{
    match entries.binary_search_by(|other| order_of(other, entry)) {
        Ok(place) => is_same(entry, &entries[place]),
        Err(_) => false,
    }
}

/// Whether one of these directories has an equal entry. The last one is looked at first, since a version shares most with the one
/// before it.
fn is_seen(before: &[Directory], entry: &DirEntry) -> bool
    requires { AllByRecursion (λ directory. AreRising directory.entries) before.now }
    ensures { result ≡ is_seen (entries_of [] before.now) entry.now }
{
    let mut left = before;
    while let Some((last, rest)) = left.split_last() {
        if has_entry(last.entries.as_slice(), entry) {
            return true;
        }
        left = rest;
    }
    false
}

fn all_pages(taken: &TakenPages, pages: &[u32]) -> bool
    ensures { result ≡ list_all (λ page. nat_lt 0 page && nat_lt page (length taken.now)) pages.now }
{
    pages.iter().all(|page| taken.is_page(*page))
}

/// Whether each is a page of the file, other than page 0.
fn are_pages(taken: &TakenPages, pages: &[u32]) -> bool
    ensures { (file before : List ℕ) → IsTaken file taken.now before → result ≡ are_pages file pages.now }
{
    all_pages(taken, pages)
}

/// Whether the core of its chunk holds a coordinate, a commit so far wrote it, and its pages are pages of the file.
fn is_entry(taken: &TakenPages, base: &Base, schema: &Schema, entry: &DirEntry) -> bool
    ensures { (file before : List ℕ) → IsTaken file taken.now before
        → result ≡ is_entry file (base.now.sequence + base.now.records) schema.now.dimensions entry.now }
{
    has_core(schema, &entry.at)
        && (base.has_commit(entry.birth) && are_pages(taken, entry.pages.as_slice()))
}

/// Takes the pages of a payload, unless a directory of the array before has it.
fn claim_payload(taken: &mut TakenPages, before: &[Directory], entry: &DirEntry) -> bool
    requires { AllByRecursion (λ directory. AreRising directory.entries) before.now }
    ensures { (file taken_before : List ℕ) (named : ℕ) → IsTaken file taken.old taken_before
        → IsClaimed file result taken.new (payload_in file named (entries_of [] before.now) taken_before entry.now) named }
{
    if is_seen(before, entry) {
        return true;
    }
    claim(taken, entry.pages.as_slice())
}

/// Tests the entries of a directory behind some of the same array, and takes the pages of their payloads.
pub(crate) fn claim_payloads(
    taken: &mut TakenPages,
    base: &Base,
    schema: &Schema,
    before: &[Directory],
    entries: &[DirEntry],
) -> bool
    requires { AllByRecursion (λ directory. AreRising directory.entries) before.now }
    ensures { (file taken_before : List ℕ) (named : ℕ) → IsTaken file taken.old taken_before
        → IsClaimed file result taken.new (payloads_in file (base.now.sequence + base.now.records) schema.now.dimensions named
        (entries_of [] before.now) taken_before entries.now) named }
{
    for entry in entries {
        if !is_entry(taken, base, schema, entry) {
            return false;
        }
        if !claim_payload(taken, before, entry) {
            return false;
        }
    }
    true
}
