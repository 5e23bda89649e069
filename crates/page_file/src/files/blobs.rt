//! Blobs and chains in a database's file.
ghost use Rattle.std.specs.Prelude.{◌≡◌, ℕ, List, [], ◌∷◌, ◌<◌, ◌/◌, length, slice_index_or, IfSome, IfOk, IfErr, OnOk, IsErrOf, MatchResult};
ghost use Rattle.page_chain.specs.Disk.{FailsWithCause};
ghost use Rattle.page_chain.specs.Counts.{Rose};
ghost use Rattle.page_chain.specs.Places.{KeepsPages};
ghost use Rattle.page_chain.specs.declared.slots.layout.logs.RecordAt.{RecordAt};
ghost use Rattle.page_chain.specs.Pages.{page_size, pages_for, IsBlobRead, HoldsBlob};
ghost use Rattle.page_chain.specs.Chains.{content_size, IsChainRead, HoldsChain};
ghost use Rattle.page_chain.specs.Inner.Runs.{OnlyReads, OnlyWrites, Sees};
ghost use Rattle.page_chain.specs.Standing.{IsClosed, IsSound, KeepsSound, LeavesOpening};
ghost use Rattle.page_chain.specs.Steps.{emptied};
ghost use Rattle.page_file.specs.OpeningOpened.{IsDeviceFault};
ghost use Rattle.page_file.specs.Written.{MayWrite, pages_written, blob_written};

use crate::files::PageFile;
use page_chain::{BlobFault, Bytes, Disk, Failed, Link, List, OpenCause, Root, has_risen};
use std::alloc::Global;

impl<D: Disk> PageFile<D> {
    /// How many whole pages the file has.
    pub fn pages(&mut self) -> Result<u64, OpenCause>
        ensures exact { IfSome (D.moment self.old.disk).state.seen (λ seen. IfOk result (λ n. n ≡ length seen / 4096)) }
        ensures cause { IfErr result (λ fault. IsDeviceFault fault (D.moment self.old.disk).state (D.moment self.new.disk).state) }
        ensures slots { self.new.slots ≡ self.old.slots }
        ensures reads { OnlyReads (D.moment self.old.disk) (D.moment self.new.disk) }
        ensures sound { (seen : List ℕ) → IsSound self.old.slots seen (D.moment self.old.disk).may_leave
            → IsSound self.new.slots seen (D.moment self.new.disk).may_leave }
    {
        let before = self.disk.faults();
        match self.disk.len() {
            Ok(length) => Ok(length / 4096),
            Err(Failed) if has_risen(before, self.disk.faults()) => Err(OpenCause::Disk),
            Err(Failed) => Err(OpenCause::Memory),
        }
    }

    /// Reads a blob of so many bytes.
    pub fn read_blob(
        &mut self,
        alloc: Global,
        pages: &[u32],
        count: u64,
    ) -> Result<Bytes, BlobFault>
        requires { length pages.now ≡ pages_for page_size count }
        ensures exact { IfSome (D.moment self.old.disk).state.seen (λ seen. IsBlobRead seen pages.now count result) }
        ensures size { IfOk result (λ bytes. length bytes ≡ count) }
        ensures fault { IsErrOf result BlobFault.Disk → Rose (D.moment self.old.disk).state.faults (D.moment self.new.disk).state.faults }
        ensures slots { self.new.slots ≡ self.old.slots }
        ensures reads { OnlyReads (D.moment self.old.disk) (D.moment self.new.disk) }
        ensures sound { (seen : List ℕ) → IsSound self.old.slots seen (D.moment self.old.disk).may_leave
            → IsSound self.new.slots seen (D.moment self.new.disk).may_leave }
    {
        page_chain::read_blob(alloc, &mut self.disk, pages, count)
    }

    /// Reads the catalogue chain of a root: its bytes and its pages. Its first link stands in page 0, and its log page isn't one of
    /// its pages.
    pub fn read_chain(&mut self, alloc: Global, root: Root) -> Result<(Bytes, List<u32>), OpenCause>
        ensures exact { IfSome (D.moment self.old.disk).state.seen (λ seen. IsChainRead seen (root.log ∷ []) 0 root.first root.length result) }
        ensures size { IfOk result (λ x. length x.0 ≡ root.length) }
        ensures pages { IfOk result (λ x. length x.1 ≡ pages_for (content_size page_size) root.length) }
        ensures fault { IsErrOf result OpenCause.Disk → Rose (D.moment self.old.disk).state.faults (D.moment self.new.disk).state.faults }
        ensures slots { self.new.slots ≡ self.old.slots }
        ensures reads { OnlyReads (D.moment self.old.disk) (D.moment self.new.disk) }
        ensures sound { (seen : List ℕ) → IsSound self.old.slots seen (D.moment self.old.disk).may_leave
            → IsSound self.new.slots seen (D.moment self.new.disk).may_leave }
    {
        let first = Link {
            holder: 0,
            page: root.first,
        };
        page_chain::read_chain(alloc, &mut self.disk, first, root.length, &[root.log])
    }

    /// Reads a record of the log, by its number: its bytes and its pages. Its first link stands in the log page. Its pages are none
    /// of those taken, which are the log page and those of the chains that were read before: the catalogue's and the earlier
    /// records'.
    pub fn read_record(
        &mut self,
        alloc: Global,
        number: u32,
        taken: &[u32],
    ) -> Result<(Bytes, List<u32>), OpenCause>
        requires { number < length self.old.slots.records }
        ensures exact { IfSome (D.moment self.old.disk).state.seen (λ seen. (d : RecordAt)
            → IsChainRead seen taken.now self.old.slots.current.root.log (slice_index_or self.old.slots.records number d).first
            (slice_index_or self.old.slots.records number d).length result) }
        ensures size { (d : RecordAt) → IfOk result (λ x. length x.0 ≡ (slice_index_or self.old.slots.records number d).length) }
        ensures pages { (d : RecordAt) → IfOk result
            (λ x. length x.1 ≡ pages_for (content_size page_size) (slice_index_or self.old.slots.records number d).length) }
        ensures fault { IsErrOf result OpenCause.Disk → Rose (D.moment self.old.disk).state.faults (D.moment self.new.disk).state.faults }
        ensures slots { self.new.slots ≡ self.old.slots }
        ensures reads { OnlyReads (D.moment self.old.disk) (D.moment self.new.disk) }
        ensures sound { (seen : List ℕ) → IsSound self.old.slots seen (D.moment self.old.disk).may_leave
            → IsSound self.new.slots seen (D.moment self.new.disk).may_leave }
    {
        let at = self.slots.records.as_slice()[number as usize];
        let log = self.slots.current.root.log;
        let first = Link {
            holder: log,
            page: at.first,
        };
        page_chain::read_chain(alloc, &mut self.disk, first, at.length, taken)
    }

    /// Writes bytes as a blob.
    pub fn write_blob(&mut self, pages: &[u32], bytes: &[u8]) -> Result<(), Failed>
        requires closed { IsClosed self.old.slots }
        requires free { MayWrite pages.now self.old.slots }
        requires pages { length pages.now ≡ pages_for page_size (length bytes.now) }
        ensures slots { MatchResult result (λ _. self.new.slots ≡ blob_written pages.now bytes.now self.old.slots)
            (λ _. self.new.slots ≡ pages_written pages.now self.old.slots) }
        ensures sound { KeepsSound self.old.slots self.new.slots (D.moment self.old.disk) (D.moment self.new.disk) }
        ensures opens { LeavesOpening self.old.slots (emptied self.old.slots) (D.moment self.old.disk) (D.moment self.new.disk) }
        ensures seen { Sees (D.moment self.old.disk).state (D.moment self.new.disk).state
            (λ seen now. KeepsPages pages.now seen now × OnOk result (HoldsBlob page_size now pages.now bytes.now)) }
        ensures writes { OnlyWrites pages.now (D.moment self.old.disk) (D.moment self.new.disk) }
        ensures cause { FailsWithCause result (D.moment self.old.disk) (D.moment self.new.disk) }
    {
        crate::writing::write_blob(&mut self.slots, &mut self.disk, pages, bytes)
    }

    /// Writes bytes as a chain.
    pub fn write_chain(&mut self, pages: &[u32], bytes: &[u8]) -> Result<(), Failed>
        requires closed { IsClosed self.old.slots }
        requires free { MayWrite pages.now self.old.slots }
        requires pages { length pages.now ≡ pages_for (content_size page_size) (length bytes.now) }
        ensures slots { self.new.slots ≡ pages_written pages.now self.old.slots }
        ensures sound { KeepsSound self.old.slots self.new.slots (D.moment self.old.disk) (D.moment self.new.disk) }
        ensures opens { LeavesOpening self.old.slots (emptied self.old.slots) (D.moment self.old.disk) (D.moment self.new.disk) }
        ensures seen { Sees (D.moment self.old.disk).state (D.moment self.new.disk).state
            (λ seen now. KeepsPages pages.now seen now × OnOk result (HoldsChain page_size now pages.now bytes.now)) }
        ensures writes { OnlyWrites pages.now (D.moment self.old.disk) (D.moment self.new.disk) }
        ensures cause { FailsWithCause result (D.moment self.old.disk) (D.moment self.new.disk) }
    {
        crate::writing::write_chain(&mut self.slots, &mut self.disk, pages, bytes)
    }
}
