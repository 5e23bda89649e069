//! The device of a run.
ghost use Rattle.std.specs.Prelude.{◌≡◌, IfOk, IfErr, IfSome, MatchResult};
ghost use Rattle.afl_outside.specs.Counts.{risen};
ghost use Rattle.afl_outside.specs.Disk.{IsNewDisk};
ghost use Rattle.afl_outside.specs.Shelf.{LeavesOthers};
ghost use Rattle.run_opening.specs.Opened.{FailsToOpenDevice};

use crate::opening::causes::unopened_notice;
use crate::reports::Notice;
use afl_outside::{Failed, Shelf};

/// The device of this name, or what is told where it isn't opened.
pub fn open_device<F: Shelf>(shelf: &mut F, name: &str) -> Result<F::Device, Notice>
    ensures new { IfOk result (λ disk. IsNewDisk name.now (F.Device.moment disk).state) }
    ensures content { IfOk result (λ disk. IfSome ((F.state shelf.old).devices name.now) (λ bytes. (F.Device.moment disk).state.first ≡ Some bytes)) }
    ensures cause { IfErr result (λ notice. FailsToOpenDevice name.now notice (F.state shelf.old) (F.state shelf.new)) }
    ensures others { LeavesOthers name.now (F.state shelf.old) (F.state shelf.new) }
    ensures handed { MatchResult result
        (λ _. (F.state shelf.new).handed ≡ risen (F.state shelf.old).handed)
        (λ _. (F.state shelf.new).handed ≡ (F.state shelf.old).handed) }
{
    let wants = shelf.wants();
    match shelf.device(name) {
        Ok(disk) => Ok(disk),
        Err(Failed) => Err(unopened_notice(wants, shelf.wants(), Notice::Disk)),
    }
}
