//! Disks.
ghost use Rattle.std.specs.Prelude.{◌≤◌, length};

use crate::answers::{answer_of, push_answer, push_answered};
use crate::streams::push_faults;
use crate::words::{front_of, number_in};
use afl_outside::{DeviceCall, Disk, MemDisk, SureDisk};
use cell_values::{Bytes, Memory};
use std::alloc::Global;
use test_kit::{Transcript, push_count, push_made, push_text, push_word, push_words};

/// Adds what a disk answers to calls.
pub(crate) fn push_answers<D: Disk>(out: &mut Transcript, disk: &mut D, calls: &str) {
    for call in calls.split_terminator('|') {
        push_answered(out, call, answer_of(disk, call));
    }
}

/// Which writes are kept: those at a `+`.
fn kept_in(alloc: Global, signs: &str) -> Result<Vec<bool>, Memory> {
    let mut kept = Vec::new(alloc);
    for sign in signs.as_bytes() {
        kept.push(*sign == b'+')?;
    }
    Ok(kept)
}

/// The image after so many calls, with the writes at a `+` kept and dots for those at a `-`.
fn image_of(alloc: Global, disk: &MemDisk, calls: u64, signs: &str) -> Result<Bytes, Memory>
    requires { calls ≤ length disk.now.bytes.calls }
{
    let kept = kept_in(alloc, signs)?;
    let image = disk.image(calls, kept.as_slice(), b'.');
    drop(kept);
    image
}

/// Adds the image after so many of the calls; nothing where there are fewer.
fn push_image(out: &mut Transcript, disk: &MemDisk, operands: &str) {
    let (calls, signs) = front_of(operands);
    let calls = number_in(calls);
    if calls <= disk.calls().len() as u64 {
        let image = image_of(out.alloc(), disk, calls, signs);
        push_made(out, image);
    }
}

/// Adds the word of a call, its place, and a space behind it.
fn push_placed(out: &mut Transcript, word: &str, at: u64) {
    push_word(out, word);
    push_count(out, at);
    push_word(out, " ");
}

fn push_recorded(out: &mut Transcript, call: &DeviceCall) {
    match call {
        DeviceCall::Length => push_word(out, "length"),
        DeviceCall::Read { at, length } => {
            push_placed(out, "read ", *at);
            push_count(out, *length);
        }
        DeviceCall::Sync { done: true } => push_word(out, "sync"),
        DeviceCall::Sync { done: false } => push_word(out, "sync that failed"),
        DeviceCall::Write { at, bytes } => {
            push_placed(out, "write ", *at);
            push_text(out, bytes.as_slice());
        }
    }
}

/// Adds a copy of a call.
fn push_copied(out: &mut Transcript, call: &DeviceCall) {
    match call.copy() {
        Ok(copy) => {
            push_recorded(out, &copy);
            drop(copy);
        }
        Err(Memory) => out.note_short(),
    }
}

/// Adds copies of the calls that a disk has recorded.
fn push_calls(out: &mut Transcript, disk: &MemDisk) {
    let mut comma = "";
    for call in disk.calls() {
        push_word(out, comma);
        push_copied(out, call);
        comma = ", ";
    }
}

/// Adds a line with a call of a disk in memory and its answer: the calls that it has recorded, an image, or what any disk answers.
fn push_disk_call(out: &mut Transcript, disk: &mut MemDisk, call: &str) {
    push_words(out, &[call.trim(), ": "]);
    let (word, operands) = front_of(call);
    match word {
        "calls" => push_calls(out, disk),
        "image" => push_image(out, disk, operands),
        _ => push_answer(out, answer_of(disk, call)),
    }
    push_word(out, "\n");
}

fn push_disk_calls(out: &mut Transcript, disk: &mut MemDisk, calls: &str) {
    for call in calls.split_terminator('|') {
        push_disk_call(out, disk, call);
    }
    push_faults(out, disk.faults(), disk.wants());
}

/// Adds what a disk in memory answers to calls, and what it has recorded.
pub(crate) fn push_disk(out: &mut Transcript, disk: MemDisk, calls: &str) {
    let mut disk = disk;
    push_disk_calls(out, &mut disk, calls);
    drop(disk);
}

/// Adds what a disk that never fails answers to calls.
pub(crate) fn push_sure_disk(out: &mut Transcript, disk: SureDisk, calls: &str) {
    let mut disk = disk;
    push_answers(out, &mut disk, calls);
    drop(disk);
}
