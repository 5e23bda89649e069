//! Payloads of chunks: the one spelling of a chunk, and the offset of the first wrong item.
#![tactic(auto)]

mod collecting;
mod columns;
mod decoding;
mod encoding;
mod expanding;
mod numbers;
mod places;
mod reading;
mod runs;
mod writing;

pub use decoding::{BadPayload, decode, decode_runs, payload_chunk, same_spelling_same_chunk};
pub use encoding::{encode, runs_of_chunk};
pub use expanding::{chunk_of_runs, run_positions};
pub use runs::{Column, PosRun, Run, RunChunk};
