//! A list, its calls, and what was taken from it.

use crate::words::front_of;
use cell_values::{Bytes, Memory};
use std::alloc::Global;
use std::cmp::Ordering;
use test_kit::{Transcript, push_count, push_quoted, push_text, push_word};

/// A list, and what was last copied or taken from it.
#[derive(Drop)]
pub(crate) struct Lists {
    list: Bytes,
    taken: Bytes,
}

/// The first byte of a word.
fn byte_of(word: &str) -> u8 {
    word.as_bytes().first().copied().unwrap_or(b' ')
}

fn place_in(word: &str) -> usize {
    word.parse::<usize>().unwrap_or(usize::MAX)
}

impl Lists {
    pub(crate) fn new(alloc: Global) -> Lists {
        Lists {
            list: Bytes::new(alloc),
            taken: Bytes::new(alloc),
        }
    }

    /// Does a call on the whole list.
    fn call_whole(&mut self, word: &str, room: usize) -> Result<(), Memory> {
        match word {
            "begin" => self.list = Bytes::with_capacity(self.taken.allocator(), room.min(1024))?,
            "append" => return self.list.append(self.taken.copy()?),
            "copy" => self.taken = self.list.copy()?,
            "take" => self.taken = self.list.take(),
            _ => self.list.clear(),
        }
        Ok(())
    }

    /// Does a call with a place or a length, and perhaps a byte, or one on the whole list.
    fn call_at(&mut self, word: &str, at: usize, byte: u8) -> Result<(), Memory> {
        match word {
            "insert" => {
                if at <= self.list.len() {
                    return self.list.insert(at, byte);
                }
            }
            "set" => {
                if at < self.list.len() {
                    self.list.set(at, byte);
                }
            }
            "remove" => {
                if at < self.list.len() {
                    let _byte = self.list.remove(at);
                }
            }
            "truncate" => self.list.truncate(at),
            word => return self.call_whole(word, at),
        }
        Ok(())
    }

    /// Does a call, and adds the item that it gives, if it gives one.
    fn call(&mut self, out: &mut Transcript, call: &str) {
        let (word, operands) = front_of(call);
        let (operand, byte) = front_of(operands);
        match word {
            "get" => push_item(out, self.list.get(place_in(operand)).copied()),
            "pop" => push_item(out, self.list.pop()),
            "extend" => out.note(self.list.extend(operand.as_bytes()).is_ok()),
            "push" => out.note(self.list.push(byte_of(operand)).is_ok()),
            word => {
                let done = self.call_at(word, place_in(operand), byte_of(byte));
                out.note(done.is_ok());
            }
        }
    }

    /// Does a call, and adds what it gives, the list that it leaves with its length and its largest byte, and how that
    /// stands to what was taken.
    pub(crate) fn push_call(&mut self, out: &mut Transcript, call: &str) {
        self.call(out, call);
        push_shown(out, self.list.as_slice());
        let standing = match self.list.cmp(&self.taken) {
            Ordering::Less => ", less than ",
            Ordering::Equal => ", equal to ",
            Ordering::Greater => ", more than ",
        };
        push_word(out, standing);
        push_quoted(out, self.taken.as_slice());
    }
}

/// Adds a list with its length and its largest byte.
fn push_shown(out: &mut Transcript, list: &[u8]) {
    push_quoted(out, list);
    push_word(out, " of ");
    push_count(out, list.len() as u64);
    if let Some(most) = list.iter().copied().max() {
        push_word(out, ", largest ");
        push_text(out, &[most]);
    }
}

/// Adds an item of a list.
fn push_item(out: &mut Transcript, item: Option<u8>) {
    match item {
        Some(byte) => {
            push_text(out, &[byte]);
            push_word(out, " from ");
        }
        None => push_word(out, "nothing from "),
    }
}
