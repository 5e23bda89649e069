//! Real streams and files.
//!
//! `sink said`, `source said` and `disk page` open a reply, a script and a device of that name; the calls stand behind, each behind
//! a `|`. `shelf` is answered by how many of them could not be opened.

use crate::disks::push_answers;
use crate::streams::{push_faults, push_source, push_writes};
use crate::words::front_of;
use afl_outside::{Disk, Failed, Shelf};
use test_kit::{Transcript, push_word};

fn push_script<S: Shelf>(out: &mut Transcript, shelf: &mut S, name: &str, calls: &str) {
    match shelf.script(name) {
        Ok(source) => push_source(out, source, calls),
        Err(Failed) => push_word(out, "failed\n"),
    }
}

fn push_reply<S: Shelf>(out: &mut Transcript, shelf: &mut S, name: &str, calls: &str) {
    match shelf.reply(name) {
        Ok(mut sink) => {
            push_writes(out, &mut sink, calls);
            drop(sink);
        }
        Err(Failed) => push_word(out, "failed\n"),
    }
}

fn push_device<S: Shelf>(out: &mut Transcript, shelf: &mut S, name: &str, calls: &str) {
    match shelf.device(name) {
        Ok(mut disk) => {
            push_answers(out, &mut disk, calls);
            push_faults(out, disk.faults(), disk.wants());
            drop(disk);
        }
        Err(Failed) => push_word(out, "failed\n"),
    }
}

/// What is opened.
enum Opened {
    Script,
    Reply,
    Device,
    Nothing,
}

fn opened_by(word: &str) -> Opened {
    match word {
        "source" => Opened::Script,
        "sink" => Opened::Reply,
        "disk" => Opened::Device,
        _ => Opened::Nothing,
    }
}

/// Adds what the stream or file of a shelf answers to calls.
pub(crate) fn push_real<S: Shelf>(out: &mut Transcript, shelf: &mut S, object: &str, calls: &str) {
    let (word, name) = front_of(object);
    match opened_by(word) {
        Opened::Script => push_script(out, shelf, name, calls),
        Opened::Reply => push_reply(out, shelf, name, calls),
        Opened::Device => push_device(out, shelf, name, calls),
        Opened::Nothing => push_faults(out, shelf.faults(), shelf.wants()),
    }
}
