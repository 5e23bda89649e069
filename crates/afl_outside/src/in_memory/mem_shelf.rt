//! Files in memory.
ghost use Rattle.std.specs.Prelude.{◌≡◌, ◌≤◌};
ghost use Rattle.afl_outside.specs.Counts.{risen};
ghost use Rattle.afl_outside.specs.InMemory.{new_source};
ghost use Rattle.afl_outside.specs.Inner.Records.{new_disk};
ghost use Rattle.afl_outside.specs.Files.{new_shelf, memory_shelf_state, OpensFile, OpensReply};

use crate::in_memory::files::take_file;
use crate::in_memory::mem_file::MemFile;
use crate::in_memory::turns::FailingCalls;
use crate::in_memory::{MemDisk, MemSink, MemSource};
use crate::{Failed, Shelf};
use cell_values::{Bytes, List};
use std::marker::Model;

/// Files in memory. A call that opens a script, a reply or a device takes its file out.
#[derive(Drop)]
pub struct MemShelf {
    files: List<MemFile>,
    replies: List<MemFile>,
    turns: FailingCalls,
    wants: u64,
    handed: u64,
}

impl Model for MemShelf {
    ghost use Rattle.afl_outside.specs.Files.{MemoryShelf};

    ghost Value = { MemoryShelf };

    ghost view = { λ s. record { files = s.files; replies = s.replies; turns = s.turns; wants = s.wants; handed = s.handed } };
}

impl MemShelf {
    /// A shelf with these files and replies. `fails` has the numbers, from 0, of its calls that are to fail; where it
    /// is empty the shelf tells what it opens.
    pub fn new(files: List<MemFile>, replies: List<MemFile>, fails: List<u64>) -> MemShelf
        ensures { result ≡ new_shelf files replies fails }
    {
        MemShelf {
            files,
            replies,
            turns: FailingCalls::new(fails),
            wants: 0,
            handed: 0,
        }
    }
}

impl Shelf for MemShelf {
    type S = MemSource;

    type K = MemSink;

    type Device = MemDisk;

    ghost state = { memory_shelf_state };

    fn script(&mut self, name: &str) -> Result<MemSource, Failed>
        ensures exact { OpensFile (λ f. new_source f.name f.content f.fails) (λ n. n) name.now self.old self.new result }
        ensures later { self.old.turns.faults ≤ self.new.turns.faults }
    {
        if self.turns.fails_next() {
            return Err(Failed);
        }
        match take_file(&mut self.files, name.as_bytes()) {
            Some(
                MemFile {
                    name,
                    content,
                    fails,
                },
            ) => Ok(MemSource::named(name, content, fails)),
            None => {
                self.turns.fault();
                Err(Failed)
            }
        }
    }

    fn reply(&mut self, name: &str) -> Result<MemSink, Failed>
        ensures exact { OpensReply name.now self.old self.new result }
        ensures later { self.old.turns.faults ≤ self.new.turns.faults }
        ensures wants_later { self.old.wants ≤ self.new.wants }
    {
        if self.turns.fails_next() {
            return Err(Failed);
        }
        match take_file(&mut self.replies, name.as_bytes()) {
            Some(
                MemFile {
                    name,
                    content,
                    fails,
                },
            ) => {
                self.handed = self.handed.saturating_add(1);
                Ok(MemSink::named(name, content, fails))
            }
            None => match Bytes::from_slice(self.replies.allocator(), name.as_bytes()) {
                Ok(name) => {
                    let content = self.replies.another();
                    let fails = self.replies.another();
                    self.handed = self.handed.saturating_add(1);
                    Ok(MemSink::named(name, content, fails))
                }
                Err(_) => {
                    self.wants = self.wants.saturating_add(1);
                    Err(Failed)
                }
            },
        }
    }

    fn device(&mut self, name: &str) -> Result<MemDisk, Failed>
        ensures exact { OpensFile (λ f. new_disk f.name f.content f.fails) risen name.now self.old self.new result }
        ensures later { self.old.turns.faults ≤ self.new.turns.faults }
    {
        if self.turns.fails_next() {
            return Err(Failed);
        }
        match take_file(&mut self.files, name.as_bytes()) {
            Some(
                MemFile {
                    name,
                    content,
                    fails,
                },
            ) => {
                self.handed = self.handed.saturating_add(1);
                Ok(MemDisk::named(name, content, fails))
            }
            None => {
                self.turns.fault();
                Err(Failed)
            }
        }
    }

    fn wants(&self) -> u64 {
        self.wants
    }

    fn faults(&self) -> u64 {
        self.turns.faults()
    }
}
