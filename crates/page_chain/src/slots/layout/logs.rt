//! The log page.
ghost use Rattle.std.specs.Prelude.{◌≡◌, ◌≢◌, ◌≤◌, ◌<◌, ◌+◌, ◌*◌, ◌++◌, ◌∷◌, [], ℕ, length, slice_index, MatchBool, MatchOption};
ghost use Rattle.byteorder.specs.Endian.{little_bytes};
ghost use Rattle.page_chain.specs.Logs.{record_at, IsLog, HasStray, ArePrefix};

use crate::slots::layout::fields::{u32_in, u64_in};
use arrayvec::ArrayVec;
use byteorder::{ByteOrder, LittleEndian};
use std::marker::Model;

/// How many entries a log page has.
pub const LOG_ENTRIES: usize = 64;

const ENTRY: usize = 64;

/// Where a record lies: its length, and the first page of its chain.
#[derive(Clone, Copy, Default)]
pub struct RecordAt {
    pub length: u64,
    pub first: u32,
}

/// The records of a log, at most 64.
#[derive(Drop)]
pub struct Records {
    items: ArrayVec<RecordAt, 64>,
}

impl Model for Records {
    ghost use Rattle.std.specs.Prelude.{List};
    ghost use Rattle.page_chain.specs.declared.slots.layout.logs.RecordAt.{RecordAt};

    ghost Value = { List RecordAt };

    ghost view = { λ records. records.items.items };
}

impl Records {
    pub fn new() -> Records
        ensures { result ≡ [] }
    {
        Records {
            items: ArrayVec::new(),
        }
    }

    pub fn len(&self) -> usize
        ensures value { result ≡ length self.now }
        ensures fits { result ≤ 64 }
    {
        self.items.len()
    }

    pub fn as_slice(&self) -> &[RecordAt]
        ensures { result.now ≡ self.now }
    {
        self.items.as_slice()
    }

    pub fn push(&mut self, at: RecordAt)
        requires { length self.old < 64 }
        ensures { self.new ≡ self.old ++ at ∷ [] }
    {
        self.items.push(at);
    }
}

fn record_at(page: &[u8], at: usize) -> RecordAt
    requires { at + 12 ≤ length page.now }
    ensures { result ≡ record_at at page.now }
{
    RecordAt {
        length: u64_in(page, at),
        first: u32_in(page, at + 8),
    }
}

fn open_entries(page: &[u8]) -> Records
    requires { 4096 ≤ length page.now }
    ensures { ArePrefix result page.now }
{
    let mut records = Records::new();
    for entry in 0..LOG_ENTRIES {
        if page[ENTRY * entry] != 1 {
            return records;
        }
        records.push(record_at(page, ENTRY * entry + 8));
    }
    records
}

fn is_open_from(page: &[u8], first: usize) -> bool
    requires { 4096 ≤ length page.now }
    ensures { MatchBool result ((k : ℕ) × (first ≤ k) × (k < 64) × (slice_index page.now (64 * k) ≡ 1))
        ((k : ℕ) → first ≤ k → k < 64 → slice_index page.now (64 * k) ≢ 1) }
{
    for entry in first..LOG_ENTRIES {
        if page[ENTRY * entry] == 1 {
            return true;
        }
    }
    false
}

/// The log of a log page, unless an open entry follows a closed one.
pub fn log_in(page: &[u8]) -> Option<Records>
    requires { 4096 ≤ length page.now }
    ensures { MatchOption result (HasStray 0 page.now) (λ records. IsLog 0 records page.now) }
{
    let records = open_entries(page);
    if is_open_from(page, records.len()) {
        None
    } else {
        Some(records)
    }
}

fn record_bytes(at: RecordAt) -> [u8; 12]
    ensures { result ≡ little_bytes 8 at.length ++ little_bytes 4 at.first }
{
    let mut body = [0; 12];
    LittleEndian::write_u64(&mut body, at.length);
    LittleEndian::write_u32(&mut body[8..], at.first);
    body
}

/// The body of a log entry.
pub fn record_body(at: RecordAt) -> [u8; 12]
    ensures bytes { result ≡ little_bytes 8 at.length ++ little_bytes 4 at.first }
    ensures reads { record_at 0 result ≡ at }
    ensures size { length result ≡ 12 }
{
    record_bytes(at)
}
