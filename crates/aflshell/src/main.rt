//! The shell: the top call over the real streams and files.
#![tactic(auto)]

use afl_host::{HostShelf, words_of};
use afl_outside::OpenGate;
use afl_run::{Notice, let_go_report, notice_line, run};
use command_words::own_answer;
use std::alloc::Global;
use std::io::{Eprint, Print};
use std::process::ExitCode;

const OUT_OF_MEMORY: &str = "aflshell: out of memory";

/// Prints the line of a notice on standard error.
fn print_notice(rt: &impl Eprint, alloc: Global, notice: &Notice) {
    if let Ok(line) = notice_line(alloc, notice) {
        if let Ok(text) = std::str::from_utf8(line.as_slice()) {
            let _ = eprint!(rt; "{text}");
        }
    } else {
        let _ = eprintln!(rt; "{OUT_OF_MEMORY}");
    }
}

/// Prints an answer of the program's own. A write that fails is a fault of the stream.
fn answer(rt: &(impl Print + Eprint), alloc: Global, text: &str) -> ExitCode {
    match print!(rt; "{text}") {
        Ok(()) => ExitCode::SUCCESS,
        Err(_) => {
            print_notice(rt, alloc, &Notice::Stream { session: 0 });
            ExitCode::from(4)
        }
    }
}

fn main(rt: HostRuntime) -> ExitCode {
    let alloc = rt.alloc();
    let Ok(words) = words_of(&rt, alloc) else {
        let _ = eprintln!(rt; "{OUT_OF_MEMORY}");
        return ExitCode::from(5);
    };
    if let Some(text) = own_answer(&words) {
        return answer(&rt, alloc, text);
    }
    let report = run(&rt, alloc, &words, HostShelf::new(rt), &OpenGate);
    print_notice(&rt, alloc, &report.notice);
    let status = report.status;
    let_go_report(report);
    ExitCode::from(status)
}
