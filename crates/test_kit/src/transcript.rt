//! The transcript in which each line stands above its answer.

use crate::shown::push_words;
use cell_values::Memory;
use std::alloc::Global;
use std::io;

/// What is told so far, and whether memory was short for some of it.
pub struct Transcript {
    pub(crate) text: String,
    is_short: bool,
}

impl Transcript {
    /// A transcript that tells nothing yet.
    pub fn new(alloc: Global) -> Transcript {
        Transcript {
            text: String::new(alloc),
            is_short: false,
        }
    }

    /// Where it takes memory from.
    pub fn alloc(&self) -> Global {
        *self.text.allocator()
    }

    /// Keeps in mind that memory was short for something.
    pub fn note_short(&mut self) {
        self.is_short = true;
    }

    /// Keeps in mind where memory was short.
    pub fn note(&mut self, is_told: bool) {
        if !is_told {
            self.is_short = true;
        }
    }

    /// All that is told; where memory was short for some of it, the want of memory.
    pub fn finish(self) -> Result<String, Memory> {
        let Transcript { text, is_short } = self;
        if is_short {
            drop(text);
            return Err(Memory);
        }
        Ok(text)
    }
}

/// All of standard input.
pub fn input(rt: &(impl Input + AllocGlobal)) -> io::Result<String> {
    io::read_to_string(rt.alloc(), rt.reader())
}

/// Adds a line behind `> `, and tells that its answer follows; a title, which begins with `##`, is added as it is, and has
/// no answer.
pub fn begin_answer(out: &mut Transcript, line: &str) -> bool {
    let is_title = line.starts_with("##");
    push_words(out, &[if is_title { "" } else { "> " }, line, "\n"]);
    !is_title
}
