//! The streams of a run.
ghost use Rattle.std.specs.Prelude.{◌≡◌, ◌⊎◌, ◌<◌, ◌^◌, IfErr, IfOk, OnErr, OnOk, length};
ghost use Rattle.run_opening.specs.Names.{HaveOwnNames, stream_names};
ghost use Rattle.run_opening.specs.Opened.{AreOpenedFor, FailsToOpen, HandsOut, HandsOutSome, LeavesUnasked, StopsAt};
ghost use Rattle.run_opening.specs.Inner.Rooms.{HasRoom};

use crate::opening::replies::open_replies;
use crate::opening::room::Room;
use crate::opening::scripts::open_scripts;
use crate::reports::{Notice, Streams};
use afl_outside::Shelf;
use cell_values::{List, Memory};
use command_words::Arg;
use std::alloc::Global;

/// Opens the scripts of all sessions in order, and then their replies. The memory that sessions take before their first statement is there
/// before anything is opened. Where that fails: what is told of the first one that isn't opened.
pub fn open_streams<F: Shelf>(
    alloc: Global,
    scripts: &[Arg],
    shelf: &mut F,
) -> Result<List<Streams<F::S, F::K>>, Notice>
    requires few { length scripts.now < 2 ^ 32 }
    requires names { HaveOwnNames scripts.now }
    ensures opened { IfOk result (λ streams. AreOpenedFor F.S.state F.K.state (F.state shelf.old) scripts.now streams) }
    ensures cause { IfErr result (λ notice. ((notice ≡ Notice.Memory) × (shelf.new ≡ shelf.old))
        ⊎ FailsToOpen scripts.now notice (F.state shelf.old) (F.state shelf.new)) }
    ensures first { IfErr result (StopsAt F.S.state F.K.state scripts.now (F.state shelf.old) (F.state shelf.new)) }
    ensures others { LeavesUnasked (stream_names scripts.now) (F.state shelf.old) (F.state shelf.new) }
    ensures handed { OnOk result (HandsOut (length scripts.now) (F.state shelf.old) (F.state shelf.new)) }
    ensures some { OnErr result (HandsOutSome (length scripts.now) (F.state shelf.old) (F.state shelf.new)) }
{
    match Room::new(alloc, scripts) {
        Ok(room) => open_in(room, scripts, shelf),
        Err(Memory) => Err(Notice::Memory),
    }
}

/// Opens them where the room is there.
fn open_in<F: Shelf>(
    room: Room<F::S, F::K>,
    scripts: &[Arg],
    shelf: &mut F,
) -> Result<List<Streams<F::S, F::K>>, Notice>
    requires room { HasRoom scripts.now room }
    requires few { length scripts.now < 2 ^ 32 }
    requires names { HaveOwnNames scripts.now }
    ensures opened { IfOk result (λ streams. AreOpenedFor F.S.state F.K.state (F.state shelf.old) scripts.now streams) }
    ensures cause { IfErr result (λ notice. FailsToOpen scripts.now notice (F.state shelf.old) (F.state shelf.new)) }
    ensures first { IfErr result (StopsAt F.S.state F.K.state scripts.now (F.state shelf.old) (F.state shelf.new)) }
    ensures others { LeavesUnasked (stream_names scripts.now) (F.state shelf.old) (F.state shelf.new) }
    ensures handed { OnOk result (HandsOut (length scripts.now) (F.state shelf.old) (F.state shelf.new)) }
    ensures some { OnErr result (HandsOutSome (length scripts.now) (F.state shelf.old) (F.state shelf.new)) }
{
    let mut room = room;
    match open_scripts(scripts, shelf, &mut room.sources) {
        Ok(()) => match open_replies(&room.replies, shelf, &mut room.sinks) {
            Ok(()) => Ok(room.into_streams()),
            Err(notice) => Err(notice),
        },
        Err(notice) => Err(notice),
    }
}
