//! Sources and sinks.

use crate::answers::{push_answered, read_of, write_of};
use crate::words::front_of;
use afl_outside::{MemSink, Sink, Source, SureSink};
use test_kit::{Transcript, push_count, push_quoted, push_word};

/// Adds how often calls failed, and how often there was no memory for one.
pub(crate) fn push_faults(out: &mut Transcript, faults: u64, wants: u64) {
    push_count(out, faults);
    push_word(out, " failed, ");
    push_count(out, wants);
    push_word(out, " without memory\n");
}

fn push_reads<S: Source>(out: &mut Transcript, source: &mut S, calls: &str) {
    for call in calls.split_terminator('|') {
        let (_, count) = front_of(call);
        push_answered(out, call, read_of(source, count));
    }
    push_count(out, source.faults());
    push_word(out, " failed\n");
}

/// Adds what a source answers to calls.
pub(crate) fn push_source<S: Source + Drop>(out: &mut Transcript, source: S, calls: &str) {
    let mut source = source;
    push_reads(out, &mut source, calls);
    drop(source);
}

/// Adds what a sink answers to calls.
pub(crate) fn push_writes<S: Sink>(out: &mut Transcript, sink: &mut S, calls: &str) {
    for call in calls.split_terminator('|') {
        let (_, bytes) = front_of(call);
        push_answered(out, call, write_of(sink, bytes));
    }
    push_faults(out, sink.faults(), sink.wants());
}

/// Adds the bytes that a sink holds.
pub(crate) fn push_held(out: &mut Transcript, bytes: &[u8]) {
    push_word(out, "holds ");
    push_quoted(out, bytes);
    push_word(out, "\n");
}

/// Adds what a sink in memory answers to calls, and what it holds.
pub(crate) fn push_sink(out: &mut Transcript, sink: MemSink, calls: &str) {
    let mut sink = sink;
    push_writes(out, &mut sink, calls);
    push_held(out, sink.bytes());
    drop(sink);
}

/// Adds what a sink that never fails answers to calls, and what it holds.
pub(crate) fn push_sure_sink(out: &mut Transcript, sink: SureSink, calls: &str) {
    let mut sink = sink;
    push_writes(out, &mut sink, calls);
    push_held(out, sink.bytes());
    drop(sink);
}
