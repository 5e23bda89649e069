//! The top call of the shell.
#![tactic(auto)]

mod database;
mod generated;
mod over;
mod report;
mod scripts;
mod standard;
mod top;

pub use command_words::Arg;
pub use report::{Report, let_go_report};
pub use run_opening::{Mark, Notice, Refusal, SessionEnd, SessionReport, notice_line};
pub use top::run;
