//! What a file opens as.
ghost use Rattle.std.specs.Prelude.{◌≡◌, ◌≤◌, length, slice_index, false, IsTrue, Some, None, IfSome, OnOk, IfOk, IfErr};
ghost use Rattle.page_chain.specs.Puts.{OnlySyncs};
ghost use Rattle.page_chain.specs.Standing.{IsSound, OtherHolds};
ghost use Rattle.page_chain.specs.Disk.{IsSettled};
ghost use Rattle.page_chain.specs.Places.{gate_of, other};
ghost use Rattle.page_chain.specs.Roots.{current};
ghost use Rattle.page_chain.specs.Steps.{first_target};
ghost use Rattle.page_file.specs.OpeningOpened.{FrontRead, PageLog, LogRead, RecordsRead, IsRead, IsOpened, AreFresh, HasCause};

use crate::opening::reads::{read_page, settle};
use page_chain::{
    Disk, Format, LOG_ENTRIES, NextEntry, OpenCause, OpenRoot, PAGE, Records, RootSlot, Side,
    Slots, Target, current_in, log_in,
};

fn front_of(page: &[u8]) -> Result<(OpenRoot, RootSlot), OpenCause>
    requires { length page.now ≡ 4096 }
    ensures front { FrontRead page.now result }
    ensures read { IfOk result (λ x. IsRead x.1) }
    ensures fault { IfErr result (λ fault. fault ≡ OpenCause.NotDatabase 0) }
{
    let Some(current) = current_in(page) else {
        return Err(OpenCause::NotDatabase { page: 0 });
    };
    Ok((current, other_of(page, current)))
}

fn gate_in(page: &[u8], side: Side) -> u8
    requires { length page.now ≡ 4096 }
    ensures { result ≡ slice_index page.now (gate_of side) }
{
    page[side.gate()]
}

fn other_of(page: &[u8], it: OpenRoot) -> RootSlot
    requires size { length page.now ≡ 4096 }
    requires opens { current page.now ≡ Some it }
    ensures other { OtherHolds result (other it.side) it.root.sequence page.now }
    ensures read { IsRead result }
{
    let gate = gate_in(page, it.side.other());
    if gate == 1 {
        return RootSlot::Older;
    }
    if gate == 2 {
        return RootSlot::Older;
    }
    RootSlot::Closed
}

fn read_front<D: Disk>(disk: &mut D) -> Result<(OpenRoot, RootSlot), OpenCause>
    ensures front { IfSome (D.moment disk.old).state.seen (λ seen. FrontRead seen result) }
    ensures read { IfOk result (λ x. IsRead x.1) }
    ensures reads { OnlySyncs (D.moment disk.old) (D.moment disk.new) }
    ensures cause { IfErr result (λ fault. HasCause fault (D.moment disk.old).state (D.moment disk.new).state) }
{
    let mut page = [0u8; PAGE];
    match read_page(disk, 0, &mut page) {
        Err(fault) => Err(fault),
        Ok(whole) => {
            if whole {
                front_of(&page)
            } else {
                Err(OpenCause::NotDatabase { page: 0 })
            }
        }
    }
}

fn log_of(page: &[u8], log: u32) -> Result<Records, OpenCause>
    requires { length page.now ≡ 4096 }
    ensures { PageLog page.now log result }
{
    match log_in(page) {
        None => Err(OpenCause::NotDatabase { page: log }),
        Some(records) => Ok(records),
    }
}

fn read_log<D: Disk>(disk: &mut D, log: u32) -> Result<Records, OpenCause>
    ensures log { IfSome (D.moment disk.old).state.seen (λ seen. LogRead seen log result) }
    ensures fits { IfOk result (λ records. length records ≤ 64) }
    ensures reads { OnlySyncs (D.moment disk.old) (D.moment disk.new) }
    ensures cause { IfErr result (λ fault. HasCause fault (D.moment disk.old).state (D.moment disk.new).state) }
{
    if log == 0 {
        return Err(OpenCause::NotDatabase { page: 0 });
    }
    let mut page = [0u8; PAGE];
    match read_page(disk, log, &mut page) {
        Err(fault) => Err(fault),
        Ok(whole) => {
            if whole {
                log_of(&page, log)
            } else {
                Err(OpenCause::NotDatabase { page: 0 })
            }
        }
    }
}

fn read_records<D: Disk>(disk: &mut D, current: OpenRoot) -> Result<Records, OpenCause>
    ensures log { IfSome (D.moment disk.old).state.seen (λ seen. RecordsRead seen current result) }
    ensures fits { IfOk result (λ records. length records ≤ 64) }
    ensures reads { OnlySyncs (D.moment disk.old) (D.moment disk.new) }
    ensures cause { IfErr result (λ fault. HasCause fault (D.moment disk.old).state (D.moment disk.new).state) }
{
    match current.format {
        Format::One => Ok(Records::new()),
        Format::Two => read_log(disk, current.root.log),
    }
}

fn target_of(format: Format, records: &Records) -> Target
    ensures { result ≡ first_target format (length records.now) }
{
    match format {
        Format::One => Target::Root,
        Format::Two => {
            if records.len() < LOG_ENTRIES {
                Target::Record
            } else {
                Target::Root
            }
        }
    }
}

/// The slots of a file to which nothing was written yet.
fn fresh_slots(current: OpenRoot, other: RootSlot, records: Records) -> Slots
    requires fits { length records ≤ 64 }
    requires other { IsRead other }
    ensures current { result.current ≡ current }
    ensures records { result.records ≡ records }
    ensures other { result.other ≡ other }
    ensures fresh { AreFresh result }
{
    let target = target_of(current.format, &records);
    Slots {
        current,
        records,
        target,
        other,
        next: NextEntry::Closed,
        doubtful: false,
        zeroed: None,
    }
}

fn open_parts<D: Disk>(disk: &mut D) -> Result<Slots, OpenCause>
    ensures opened { IfSome (D.moment disk.old).state.seen (λ seen. IsOpened seen result) }
    ensures other { IfSome (D.moment disk.old).state.seen
        (λ seen. IfOk result (λ slots. OtherHolds slots.other (other slots.current.side) slots.current.root.sequence seen)) }
    ensures durable { OnOk result (IsSettled (D.moment disk.old) (D.moment disk.new)) }
    ensures fresh { IfOk result (λ slots. AreFresh slots) }
    ensures reads { OnlySyncs (D.moment disk.old) (D.moment disk.new) }
    ensures cause { IfErr result (λ fault. HasCause fault (D.moment disk.old).state (D.moment disk.new).state) }
{
    match settle(disk) {
        Ok(()) => match read_front(disk) {
            Ok((current, other)) => match read_records(disk, current) {
                Ok(records) => Ok(fresh_slots(current, other, records)),
                Err(fault) => Err(fault),
            },
            Err(fault) => Err(fault),
        },
        Err(fault) => Err(fault),
    }
}

/// Opens a file: syncs it, and reads its current root and its log.
pub fn open_slots<D: Disk>(disk: &mut D) -> Result<Slots, OpenCause>
    ensures opened { IfSome (D.moment disk.old).state.seen (λ seen. IsOpened seen result) }
    ensures durable { OnOk result (IsSettled (D.moment disk.old) (D.moment disk.new)) }
    ensures sound { IsTrue (D.moment disk.old).state.honest
        → IfSome (D.moment disk.old).state.seen (λ seen. IfOk result (λ slots. IsSound slots seen (D.moment disk.new).may_leave)) }
    ensures fresh { IfOk result (λ slots. AreFresh slots) }
    ensures reads { OnlySyncs (D.moment disk.old) (D.moment disk.new) }
    ensures cause { IfErr result (λ fault. HasCause fault (D.moment disk.old).state (D.moment disk.new).state) }
{
    match open_parts(disk) {
        Ok(slots) => Ok(slots),
        Err(fault) => Err(fault),
    }
}
