//! The memory of all sessions.
ghost use Rattle.std.specs.Prelude.{◌≡◌, ◌≤◌, [], IfOk, length, map, vec_capacity};
ghost use Rattle.std.specs.List.{AllByRecursion};
ghost use Rattle.afl_lexer.specs.Inner.Standing.{StandsAfter};
ghost use Rattle.run_opening.specs.Names.{reply_name};
ghost use Rattle.run_opening.specs.Inner.Rooms.{HasRoom, streams_of};

use crate::opening::replies::reply_name;
use crate::reports::Streams;
use afl_lexer::Splitter;
use cell_values::{List, Memory};
use command_words::Arg;
use std::alloc::Global;

/// What all sessions need before anything is opened: room for the streams, a splitter for each, and the names of the replies.
#[derive(Drop)]
pub(crate) struct Room<S, K> {
    pub(crate) replies: Vec<Arg>,
    pub(crate) sources: Vec<S>,
    pub(crate) sinks: Vec<K>,
    splitters: Vec<Splitter>,
    streams: Vec<Streams<S, K>>,
}

fn reply_names(alloc: Global, scripts: &[Arg]) -> Result<Vec<Arg>, Memory>
    ensures { IfOk result (λ names. names.items ≡ map reply_name scripts.now) }
{
    let mut names = Vec::with_capacity(alloc, scripts.len())?;
    for script in scripts {
        names.push(reply_name(alloc, script)?)?;
    }
    Ok(names)
}

fn splitters(alloc: Global, count: usize) -> Result<Vec<Splitter>, Memory>
    ensures each { IfOk result (λ made. AllByRecursion (StandsAfter []) made.items) }
    ensures count { IfOk result (λ made. length made.items ≡ count) }
{
    let mut made = Vec::with_capacity(alloc, count)?;
    for _ in 0..count {
        made.push(Splitter::new(alloc)?)?;
    }
    Ok(made)
}

impl<S: Drop, K: Drop> Room<S, K> {
    pub(crate) fn new(alloc: Global, scripts: &[Arg]) -> Result<Room<S, K>, Memory>
        ensures { IfOk result (HasRoom scripts.now) }
    {
        let count = scripts.len();
        Ok(Room {
            replies: reply_names(alloc, scripts)?,
            sources: Vec::with_capacity(alloc, count)?,
            sinks: Vec::with_capacity(alloc, count)?,
            splitters: splitters(alloc, count)?,
            streams: Vec::with_capacity(alloc, count)?,
        })
    }

    /// The streams of all sessions: to each source its sink and a splitter.
    pub(crate) fn into_streams(self) -> List<Streams<S, K>>
        requires sinks { length self.sinks.items ≡ length self.sources.items }
        requires splitters { length self.splitters.items ≡ length self.sources.items }
        requires none { self.streams.items ≡ [] }
        requires room { length self.sources.items ≤ vec_capacity self.streams }
        ensures { result ≡ streams_of self.sources.items self.sinks.items self.splitters.items }
    {
        let Room {
            replies,
            mut sources,
            mut sinks,
            mut splitters,
            mut streams,
        } = self;
        drop(replies);
        while !sources.is_empty() {
            let source = sources.remove(0);
            let sink = sinks.remove(0);
            let splitter = splitters.remove(0);
            streams.push_reserved(Streams {
                source,
                sink,
                splitter,
            });
        }
        List::from_vec(streams)
    }
}
