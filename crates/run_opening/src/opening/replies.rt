//! The replies of a run.
ghost use Rattle.std.specs.Prelude.{◌≡◌, ◌≢◌, ◌≤◌, ◌<◌, ◌^◌, [], AllPairs, length, map, string_bytes, vec_capacity};
ghost use Rattle.std.specs.Prelude.{IfErr, IfOk, IfSome, MatchResult, OnErr, OnOk};
ghost use Rattle.std.specs.List.{AllZip};
ghost use Rattle.afl_outside.specs.Counts.{risen};
ghost use Rattle.afl_outside.specs.Sink.{IsNewSink};
ghost use Rattle.afl_outside.specs.Shelf.{LeavesOthers};
ghost use Rattle.run_opening.specs.Names.{reply_name};
ghost use Rattle.run_opening.specs.Opened.{FailsFor, HandsOut, HandsOutSome, IsSinkOf, LeavesUnasked};
ghost use Rattle.run_opening.specs.Inner.Replying.{FailsAtReply, StopsAmong};

use crate::opening::causes::unopened_notice;
use crate::reports::Notice;
use afl_outside::{Failed, Shelf};
use cell_values::Memory;
use command_words::Arg;
use std::alloc::Global;

/// The name of the reply of a script.
pub(crate) fn reply_name(alloc: Global, script: &Arg) -> Result<Arg, Memory>
    ensures { IfOk result (λ name. name ≡ reply_name script.now) }
{
    let name = String::from_str(alloc, script.as_str())?;
    Ok(Arg::new(with_ending(name)?))
}

fn with_ending(script: String) -> Result<String, Memory>
    ensures { IfOk result (λ name. string_bytes name ≡ reply_name (string_bytes script)) }
{
    let mut name = script;
    if name.as_str() != "-" {
        name.push_str(".out")?;
    }
    Ok(name)
}

/// The reply of this name, which is this session's, or what is told where it isn't opened.
pub fn open_reply<F: Shelf>(shelf: &mut F, session: u32, name: &str) -> Result<F::K, Notice>
    ensures new { IfOk result (λ sink. IsNewSink name.now (F.K.state sink)) }
    ensures content { IfOk result (λ sink. IfSome ((F.state shelf.old).replies name.now) (λ bytes. (F.K.state sink).first ≡ Some bytes)) }
    ensures cause { IfErr result (λ notice. FailsFor session ((F.state shelf.old).replies name.now) notice (F.state shelf.old) (F.state shelf.new)) }
    ensures others { LeavesOthers name.now (F.state shelf.old) (F.state shelf.new) }
    ensures handed { MatchResult result
        (λ _. (F.state shelf.new).handed ≡ risen (F.state shelf.old).handed)
        (λ _. (F.state shelf.new).handed ≡ (F.state shelf.old).handed) }
{
    let wants = shelf.wants();
    match shelf.reply(name) {
        Ok(sink) => Ok(sink),
        Err(Failed) => Err(unopened_notice(wants, shelf.wants(), Notice::Stream { session })),
    }
}

/// Opens the replies of these names, in order, into a list that has room for them.
pub(crate) fn open_replies<F: Shelf>(
    names: &[Arg],
    shelf: &mut F,
    sinks: &mut Vec<F::K>,
) -> Result<(), Notice>
    requires none { sinks.old.items ≡ [] }
    requires room { length names.now ≤ vec_capacity sinks.old }
    requires few { length names.now < 2 ^ 32 }
    requires apart { AllPairs (λ a b. a ≢ b) names.now }
    ensures ok { OnOk result (AllZip (IsSinkOf (F.state shelf.old)) names.now (map F.K.state sinks.new.items)) }
    ensures cause { IfErr result (λ notice. FailsAtReply names.now notice (F.state shelf.old) (F.state shelf.new)) }
    ensures first { IfErr result (StopsAmong F.K.state names.now (F.state shelf.old) (F.state shelf.new)) }
    ensures others { LeavesUnasked names.now (F.state shelf.old) (F.state shelf.new) }
    ensures handed { OnOk result (HandsOut (length names.now) (F.state shelf.old) (F.state shelf.new)) }
    ensures some { OnErr result (HandsOutSome (length names.now) (F.state shelf.old) (F.state shelf.new)) }
{
    for (place, name) in names.iter().enumerate() {
        match open_reply(shelf, place as u32, name.as_str()) {
            Ok(sink) => sinks.push_reserved(sink),
            Err(notice) => return Err(notice),
        }
    }
    Ok(())
}
