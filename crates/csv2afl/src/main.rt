//! From CSV on standard input to a script on standard output.
#![tactic(auto)]

use clap::{Arg, ArgAction, ArgMatches, Command, value_parser};
use csv_scripts::{CsvFault, Options, convert, fault_text, load_plan};
use std::alloc::{AllocError, Global};
use std::io::{BufWriter, Eprint, Print, Write};
use std::process::ExitCode;

const OUT_OF_MEMORY: &str = "csv2afl: out of memory";

fn name_arg<'a>(alloc: Global) -> Arg<'a> {
    Arg::new(alloc, "NAME")
        .required(true)
        .action(ArgAction::Set)
        .help("The array that the records go into")
}

fn schema_arg<'a>(alloc: Global) -> Arg<'a> {
    Arg::new(alloc, "SCHEMA")
        .required(true)
        .action(ArgAction::Set)
        .help("Its schema, as '<temp:int64>[x=0:*,100,0,y=0:*,100,0]'")
}

fn create_arg<'a>(alloc: Global) -> Arg<'a> {
    Arg::new(alloc, "create")
        .long("create")
        .action(ArgAction::SetTrue)
        .help("Makes the array first")
}

fn bare_arg<'a>(alloc: Global) -> Arg<'a> {
    Arg::new(alloc, "bare")
        .long("bare")
        .action(ArgAction::SetTrue)
        .help("Takes texts and truths as other programs write them: no '..' around texts")
}

fn null_arg<'a>(alloc: Global) -> Arg<'a> {
    Arg::new(alloc, "null")
        .long("null")
        .action(ArgAction::Set)
        .value_name("WORD")
        .default_value("null")
        .help("What stands for a null, beside an empty field")
}

fn decimals_arg<'a>(alloc: Global) -> Arg<'a> {
    Arg::new(alloc, "decimals")
        .long("decimals")
        .action(ArgAction::Append)
        .value_name("COLUMN=N")
        .help("Keeps 21.5 as 2150, where N is 2; may be given for several columns")
}

fn rows_arg<'a>(alloc: Global) -> Arg<'a> {
    Arg::new(alloc, "rows")
        .long("rows")
        .value_name("N")
        .value_parser(value_parser!(u64))
        .default_value("1000000")
        .help("How many records go into a version of the array at most")
}

fn command<'a>(alloc: Global) -> Result<Command<'a>, AllocError> {
    let command = Command::new(alloc, "csv2afl").about(
        "Makes a script that puts the records of a CSV file into an array of aflshell",
    );
    let command = command.arg(name_arg(alloc))?;
    let command = command.arg(schema_arg(alloc))?;
    let command = command.arg(create_arg(alloc))?;
    let command = command.arg(bare_arg(alloc))?;
    let command = command.arg(null_arg(alloc))?;
    let command = command.arg(decimals_arg(alloc))?;
    command.arg(rows_arg(alloc))
}

fn print_fault(rt: &impl Eprint, alloc: Global, fault: &CsvFault) {
    if let Ok(text) = fault_text(alloc, fault) {
        if let Ok(text) = std::str::from_utf8(text.as_slice()) {
            let _ = eprintln!(rt; "csv2afl: {text}");
            return;
        }
    }
    let _ = eprintln!(rt; "{OUT_OF_MEMORY}");
}

fn options_of<'a>(matches: &ArgMatches<'a>) -> Options<'a> {
    let rows = match matches.get_one::<u64>("rows") {
        Some(rows) => rows,
        None => 1000000,
    };
    Options {
        creates: matches.get_flag("create"),
        is_bare: matches.get_flag("bare"),
        null: matches.get_str("null").unwrap_or("null").as_bytes(),
        rows,
    }
}

fn run(rt: HostRuntime, alloc: Global, matches: &ArgMatches<'_>) -> Result<u64, CsvFault> {
    let name = matches.get_str("NAME").unwrap_or("");
    let schema = matches.get_str("SCHEMA").unwrap_or("");
    let words = matches.get_strs("decimals").unwrap_or(&[]);
    let plan = load_plan(alloc, name.as_bytes(), schema.as_bytes(), words)?;
    let input = rt.stdin();
    let mut out = match BufWriter::new(alloc, rt.stdout()) {
        Ok(out) => out,
        Err(_) => return Err(CsvFault::Memory),
    };
    let count = convert(alloc, &plan, options_of(matches), input, &mut out);
    match out.flush() {
        Ok(()) => count,
        Err(_) => Err(CsvFault::Write),
    }
}

fn main(rt: HostRuntime) -> ExitCode {
    let alloc = rt.alloc();
    let Ok(words) = std::env::args(&rt) else {
        let _ = eprintln!(rt; "csv2afl: the words can't be read");
        return ExitCode::from(1);
    };
    let words: Vec<String> = match words.collect(alloc) {
        Ok(words) => words,
        Err(_) => {
            let _ = eprintln!(rt; "{OUT_OF_MEMORY}");
            return ExitCode::from(1);
        }
    };
    let Ok(command) = command(alloc) else {
        let _ = eprintln!(rt; "{OUT_OF_MEMORY}");
        return ExitCode::from(1);
    };
    let matches = match command.try_get_matches_from(words.as_slice()) {
        Ok(matches) => matches,
        Err(error) => {
            let _ = error.print(&rt);
            return ExitCode::from(error.exit_code() as u8);
        }
    };
    match run(rt, alloc, &matches) {
        Ok(_) => ExitCode::SUCCESS,
        Err(fault) => {
            print_fault(&rt, alloc, &fault);
            ExitCode::from(1)
        }
    }
}
