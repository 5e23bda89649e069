//! A commit of each kind.
ghost use Rattle.std.specs.Prelude.{◌≡◌, ◌≢◌, ◌<◌, false, nat_eq, length, IsTrue, OnOk, OnErr, MatchBool};
ghost use Rattle.std.specs.List.{list_all};
ghost use Rattle.page_file.specs.OpeningOpened.{AreFresh};
ghost use Rattle.page_chain.specs.Standing.{IsClosed, IsReady, IsTarget};
ghost use Rattle.page_chain.specs.declared.slots.slots.slots.Target.TheVariants as targets;
ghost use Rattle.test_kit.specs.Committing.{IsLaid};

use afl_outside::{Disk, Failed};
use page_chain::{PAGE, RecordAt, Root, Slot, blob_pages, chain_pages};
use page_file::PageFile;

fn are_zeros(bytes: &[u8]) -> bool
    ensures { result ≡ list_all (λ byte. nat_eq byte 0) bytes.now }
{
    bytes.iter().all(|byte| *byte == 0)
}

/// The root slot that isn't current becomes the target.
fn aim_root<D: Disk>(file: &mut PageFile<D>)
    requires { file.old.slots.doubtful ≡ false }
    ensures { file.new.slots.target ≡ targets.Root }
{
    let slot = file.other_root();
    file.aim(slot);
}

/// Whether the target is an entry of the log.
fn aims_at_entry<D: Disk>(file: &PageFile<D>) -> bool
    ensures { IsTrue result → file.now.slots.target ≡ targets.Record }
{
    match file.target() {
        Slot::A => false,
        Slot::B => false,
        Slot::Log(_) => true,
    }
}

/// Closes the target.
fn close<D: Disk>(file: &mut PageFile<D>) -> Result<(), Failed>
    requires { IsTarget file.old.slots }
    ensures target { file.new.slots.target ≡ file.old.slots.target }
    ensures there { IsTarget file.new.slots }
    ensures closed { OnOk result (IsClosed file.new.slots) }
{
    match file.close_slot() {
        Ok(()) => Ok(()),
        Err(Failed) => Err(Failed),
    }
}

fn write_log_page<D: Disk>(file: &mut PageFile<D>, log: u32) -> Result<(), Failed>
    requires closed { IsClosed file.old.slots }
    ensures target { file.new.slots.target ≡ file.old.slots.target }
    ensures laid { OnOk result (IsLaid log file.new.slots) }
{
    let zeros = [0u8; PAGE];
    if log == 0 || log == file.root().log {
        return Err(Failed);
    }
    if blob_pages(PAGE as u64) != 1 || !are_zeros(&zeros) {
        return Err(Failed);
    }
    match file.write_blob(&[log], &zeros) {
        Ok(()) => Ok(()),
        Err(Failed) => Err(Failed),
    }
}

fn write_catalogue<D: Disk>(
    file: &mut PageFile<D>,
    page: u32,
    log: u32,
    bytes: &[u8],
) -> Result<(), Failed>
    requires laid { IsLaid log file.old.slots }
    ensures target { file.new.slots.target ≡ file.old.slots.target }
    ensures laid { IsLaid log file.new.slots }
{
    if page == 0 || page == log || page == file.root().log {
        return Err(Failed);
    }
    if chain_pages(bytes.len() as u64) != 1 {
        return Err(Failed);
    }
    file.write_chain(&[page], bytes)
}

/// Opens the target, once what it is to open is written.
fn open_written<D: Disk>(file: &mut PageFile<D>) -> Result<(), Failed>
    requires ready { IsReady file.old.slots.target file.old.slots }
    requires sure { file.old.slots.doubtful ≡ false }
    requires there { IsTarget file.old.slots }
    ensures { OnErr result (IsTarget file.new.slots) }
{
    match file.open_slot() {
        Ok(()) => Ok(()),
        Err(Failed) => Err(Failed),
    }
}

fn open_root<D: Disk>(file: &mut PageFile<D>, root: Root) -> Result<(), Failed>
    requires laid { IsLaid root.log file.old.slots }
    requires target { file.old.slots.target ≡ targets.Root }
    ensures { OnErr result (IsTarget file.new.slots) }
{
    if root.sequence <= file.root().sequence {
        return Err(Failed);
    }
    match file.write_root(root) {
        Ok(()) => open_written(file),
        Err(Failed) => Err(Failed),
    }
}

/// Writes the log page of a base, its catalogue and its root, once the target is closed.
fn write_base<D: Disk>(
    file: &mut PageFile<D>,
    page: u32,
    log: u32,
    bytes: &[u8],
) -> Result<(), Failed>
    requires closed { IsClosed file.old.slots }
    requires target { file.old.slots.target ≡ targets.Root }
    ensures { OnErr result (IsTarget file.new.slots) }
{
    let root = Root {
        sequence: file.root().sequence.saturating_add(1),
        length: bytes.len() as u64,
        first: page,
        log,
    };
    write_log_page(file, log)?;
    write_catalogue(file, page, log, bytes)?;
    open_root(file, root)
}

/// Makes a new base: its log page of zeros, its catalogue in one page, and the other root slot, whose sequence is one greater.
pub fn commit_base<D: Disk>(
    file: &mut PageFile<D>,
    page: u32,
    log: u32,
    bytes: &[u8],
) -> Result<(), Failed>
    requires { file.old.slots.doubtful ≡ false }
    ensures { OnErr result (IsTarget file.new.slots) }
{
    aim_root(file);
    close(file)?;
    write_base(file, page, log, bytes)
}

fn write_content<D: Disk>(file: &mut PageFile<D>, page: u32, bytes: &[u8]) -> Result<(), Failed>
    requires closed { IsClosed file.old.slots }
    requires there { IsTarget file.old.slots }
    ensures target { file.new.slots.target ≡ file.old.slots.target }
    ensures there { IsTarget file.new.slots }
    ensures closed { IsClosed file.new.slots }
{
    if page == 0 || page == file.root().log {
        return Err(Failed);
    }
    if chain_pages(bytes.len() as u64) != 1 {
        return Err(Failed);
    }
    file.write_chain(&[page], bytes)
}

fn open_entry<D: Disk>(file: &mut PageFile<D>, at: RecordAt) -> Result<(), Failed>
    requires closed { IsClosed file.old.slots }
    requires target { file.old.slots.target ≡ targets.Record }
    requires there { IsTarget file.old.slots }
    ensures { OnErr result (IsTarget file.new.slots) }
{
    match file.write_record(at) {
        Ok(()) => open_written(file),
        Err(Failed) => Err(Failed),
    }
}

/// Writes a record in one page, and opens the next entry of the log.
pub fn commit_record<D: Disk>(file: &mut PageFile<D>, page: u32, bytes: &[u8]) -> Result<(), Failed>
    requires { AreFresh file.old.slots }
    ensures { OnErr result (IsTarget file.new.slots) }
{
    if !aims_at_entry(file) {
        return Err(Failed);
    }
    close(file)?;
    write_content(file, page, bytes)?;
    let at = RecordAt {
        length: bytes.len() as u64,
        first: page,
    };
    open_entry(file, at)
}
