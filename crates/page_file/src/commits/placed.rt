//! Bytes in pages.

ghost use Rattle.std.specs.Prelude.{◌≡◌, ◌++◌, OnOk, MatchResult};
ghost use Rattle.afl_outside.specs.Disk.{FailsWithCause};
ghost use Rattle.page_chain.specs.Places.{KeepsPages};
ghost use Rattle.page_chain.specs.declared.slots.layout.logs.RecordAt.{RecordAt};
ghost use Rattle.page_chain.specs.Pages.{page_size, HoldsBlob};
ghost use Rattle.page_chain.specs.Chains.{HoldsChain};
ghost use Rattle.page_chain.specs.Inner.Runs.{OnlyWrites, Sees};
ghost use Rattle.page_chain.specs.Standing.{IsClosed, KeepsSound};
ghost use Rattle.page_chain.specs.Steps.{emptied};
ghost use Rattle.page_file.specs.Written.{MayWrite};
ghost use Rattle.page_file.specs.Commits.{record_of, root_of, IsBlobSized, IsChainSized};

use crate::PageFile;
use afl_outside::{Disk, Failed};
use cell_values::{Bytes, List};
use page_chain::{RecordAt, Root};

/// Bytes, and the pages that they are to lie in.
#[derive(Drop)]
pub struct Placed {
    pub pages: List<u32>,
    pub bytes: Bytes,
}

impl Placed {
    /// Where it lies, as a record.
    pub(crate) fn record(&self) -> RecordAt
        requires { IsChainSized self.now }
        ensures { result ≡ record_of self.now }
    {
        let pages = self.pages.as_slice();
        RecordAt {
            length: self.bytes.as_slice().len() as u64,
            first: pages[0],
        }
    }

    /// The root that names it and a log page.
    pub(crate) fn root(&self, sequence: u64, log: u32) -> Root
        requires { IsChainSized self.now }
        ensures { result ≡ root_of sequence self.now log }
    {
        let pages = self.pages.as_slice();
        Root {
            sequence,
            length: self.bytes.as_slice().len() as u64,
            first: pages[0],
            log,
        }
    }

    /// Writes it as a blob.
    pub(crate) fn write_blob<D: Disk>(&self, file: &mut PageFile<D>) -> Result<(), Failed>
        requires closed { IsClosed file.old.slots }
        requires free { MayWrite self.now.pages file.old.slots }
        requires sized { IsBlobSized self.now }
        ensures slots { file.new.slots ≡ record (emptied file.old.slots) { zeroed = file.new.slots.zeroed } }
        ensures sound { KeepsSound file.old.slots file.new.slots (D.moment file.old.disk) (D.moment file.new.disk) }
        ensures seen { Sees (D.moment file.old.disk).state (D.moment file.new.disk).state
            (λ seen now. KeepsPages self.now.pages seen now × OnOk result (HoldsBlob page_size now self.now.pages self.now.bytes)) }
        ensures writes { OnlyWrites self.now.pages (D.moment file.old.disk) (D.moment file.new.disk) }
        ensures cause { FailsWithCause result (D.moment file.old.disk) (D.moment file.new.disk) }
    {
        let pages = self.pages.as_slice();
        let bytes = self.bytes.as_slice();
        match file.write_blob(pages, bytes) {
            Ok(()) => Ok(()),
            Err(Failed) => Err(Failed),
        }
    }

    /// Writes it as a chain.
    pub(crate) fn write_chain<D: Disk>(&self, file: &mut PageFile<D>) -> Result<(), Failed>
        requires closed { IsClosed file.old.slots }
        requires free { MayWrite self.now.pages file.old.slots }
        requires sized { IsChainSized self.now }
        ensures slots { file.new.slots ≡ record (emptied file.old.slots) { zeroed = file.new.slots.zeroed } }
        ensures sound { KeepsSound file.old.slots file.new.slots (D.moment file.old.disk) (D.moment file.new.disk) }
        ensures seen { Sees (D.moment file.old.disk).state (D.moment file.new.disk).state
            (λ seen now. KeepsPages self.now.pages seen now × OnOk result (HoldsChain page_size now self.now.pages self.now.bytes)) }
        ensures writes { OnlyWrites self.now.pages (D.moment file.old.disk) (D.moment file.new.disk) }
        ensures cause { FailsWithCause result (D.moment file.old.disk) (D.moment file.new.disk) }
    {
        let pages = self.pages.as_slice();
        let bytes = self.bytes.as_slice();
        match file.write_chain(pages, bytes) {
            Ok(()) => Ok(()),
            Err(Failed) => Err(Failed),
        }
    }
}
