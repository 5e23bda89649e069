//! Steps of three sessions over one store that is shared, and a pin that is held while another session commits.
//!
//! `share 64 100` makes a database of so many pages, with the array A at version 1, opens it for a history of so many entries, and shares it
//! among sessions 0, 1 and 2. `pin 0`, `unpin 0`, `change 0 TEXT` and `cells 0 A@1` are steps of a session, `renew 0 500` are so many stores
//! of A by it, each with a removal of all versions before, and `reap` frees what nobody can name. `finish` takes the store back.
ghost use Rattle.test_stores.specs.Runs.{IsRun};

use std::sync::Wait;
use std::thread::Threads;
use test_disks::limits_of;
use test_kit::{Transcript, begin_answer, push_word, push_words};
use test_stores::{Run, answer_line, push_finished};
use test_threads::shared_database;

/// Adds each line, with its answer.
fn push_steps<R: Threads + Wait + Sync>(rt: &R, out: &mut Transcript, run: &mut Run, steps: &str)
    requires { IsRun run.old }
    ensures { IsRun run.new }
{
    for line in steps.lines() {
        if begin_answer(out, line) {
            answer_line(rt, out.alloc(), run, line).tell(out);
        }
    }
}

/// Shares a store of these limits, and adds each line, with its answer, and what the store tells once it is taken back.
fn push_share<R: Threads + Wait + Sync>(rt: &R, out: &mut Transcript, numbers: &str, steps: &str) {
    push_words(out, &["> share ", numbers, "\n"]);
    match shared_database(rt, out.alloc(), limits_of(numbers)) {
        Ok(mut run) => {
            push_steps(rt, out, &mut run, steps);
            push_word(out, "> finish\n");
            push_finished(out, run);
        }
        Err(answer) => answer.tell(out),
    }
}

/// Adds the titles of some lines, and the store that they share, with their answers.
fn push_part<R: Threads + Wait + Sync>(rt: &R, out: &mut Transcript, lines: &str) {
    let (titles, rest) = lines.split_once("share ").unwrap_or((lines, ""));
    push_word(out, titles);
    if let Some((numbers, steps)) = rest.split_once('\n') {
        push_share(rt, out, numbers, steps);
    }
}

/// Adds the lines of a text with their answers. Behind each line of `finish` a store is shared anew.
pub(crate) fn push_shared<R: Threads + Wait + Sync>(rt: &R, out: &mut Transcript, text: &str) {
    for lines in text.split("finish\n") {
        push_part(rt, out, lines);
    }
}
