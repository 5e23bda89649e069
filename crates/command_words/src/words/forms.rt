//! The forms of the words.
ghost use Rattle.std.specs.Prelude.{◌≡◌, ◌↔◌, ℕ};
ghost use Rattle.command_words.specs.Forms.{IsForm};
ghost use Rattle.command_words.specs.Faults.{IsFault};
ghost use Rattle.command_words.specs.Inner.Reading.{no_settings, read_generate, read_init, read_run, read_scripts};
ghost use Rattle.command_words.specs.Inner.Reading.{read_settings, read_try, read_words, read_workers, run_of};

use crate::words::arg::Arg;
use crate::words::scripts::{is_dashed, wrong_script};
use crate::words::settings::{MAX_WORKERS, Settings, number_within, script_number};

/// What a run prints of arrays.
#[derive(Clone, Copy)]
pub struct Printing {
    /// Their cells are records of CSV.
    pub csv: bool,
    /// A line tells of each array that was read how many of its chunks were asked for.
    pub trace: bool,
}

/// A form of words. Each `device` and `scripts` is a place among the words, from 0.
#[derive(Clone, Copy)]
pub enum Form {
    /// `try`
    Try,
    /// `init DB`, with the place of DB
    Init {
        device: usize,
    },
    /// `run DB OPTION.. SCRIPT..`, with the places of DB and of the first SCRIPT. All words from there on are scripts.
    Run {
        device: usize,
        workers: u32,
        pages: u32,
        history: u32,
        printing: Printing,
        scripts: usize,
    },
    /// `generate N` or `generate N --workers N`
    Generate {
        number: u32,
        workers: u32,
    },
}

const DEFAULT_WORKERS: u32 = 4;

const DEFAULT_PAGES: u32 = 65_536;

const DEFAULT_HISTORY: u32 = 1_048_576;

/// The form of the words, or the place of the first word that no form has there: the number of words where one is missing.
pub fn form_of(words: &[Arg]) -> Result<Form, u32>
    ensures form { (form : Form) → (result ≡ Ok form) ↔ IsForm words.now form }
    ensures fault { (place : ℕ) → (result ≡ Err place) ↔ IsFault words.now place }
{
    read_words(words)
}

fn read_words(words: &[Arg]) -> Result<Form, u32>
    ensures { result ≡ read_words words.now }
{
    match words {
        [] => Err(0),
        [verb, rest @ ..] => match verb.as_str() {
            "try" => read_try(rest),
            "init" => read_init(rest),
            "run" => read_run(rest),
            "generate" => read_generate(rest),
            _ => Err(0),
        },
    }
}

fn read_try(words: &[Arg]) -> Result<Form, u32>
    ensures { result ≡ read_try words.now }
{
    match words {
        [] => Ok(Form::Try),
        _ => Err(1),
    }
}

fn read_init(words: &[Arg]) -> Result<Form, u32>
    ensures { result ≡ read_init words.now }
{
    match words {
        [] => Err(1),
        [device, ..] if is_dashed(device.as_str()) => Err(1),
        [_] => Ok(Form::Init { device: 1 }),
        _ => Err(2),
    }
}

fn read_run(words: &[Arg]) -> Result<Form, u32>
    ensures { result ≡ read_run words.now }
{
    match words {
        [] => Err(1),
        [device, rest @ ..] => {
            if is_dashed(device.as_str()) {
                Err(1)
            } else {
                read_settings(device.as_str(), rest, Settings::new())
            }
        }
    }
}

/// The words behind the device and the options so far.
fn read_settings(device: &str, words: &[Arg], settings: Settings) -> Result<Form, u32>
    ensures { result ≡ read_settings device.now words.now settings }
{
    match words {
        [] => Err(settings.place()),
        [name, rest @ ..] => match settings.next_option(name.as_str()) {
            None => read_scripts(device, settings, words),
            Some(option) if option.is_flag() => {
                read_settings(device, rest, settings.with_trace())
            }
            Some(option) => match rest {
                [] => Err(settings.place() + 1),
                [said, rest @ ..] => match settings.with(option, said.as_str()) {
                    None => Err(settings.place() + 1),
                    Some(next) => read_settings(device, rest, next),
                },
            },
        },
    }
}

fn read_scripts(device: &str, settings: Settings, words: &[Arg]) -> Result<Form, u32>
    ensures { result ≡ read_scripts device.now settings words.now }
{
    match wrong_script(device, words) {
        Some(place) => Err(settings.place() + place),
        None => Ok(run_of(settings)),
    }
}

fn run_of(settings: Settings) -> Form
    ensures { result ≡ run_of settings }
{
    Form::Run {
        device: 1,
        workers: settings.workers.unwrap_or(DEFAULT_WORKERS),
        pages: settings.pages.unwrap_or(DEFAULT_PAGES),
        history: settings.history.unwrap_or(DEFAULT_HISTORY),
        printing: Printing {
            csv: settings.csv,
            trace: settings.trace,
        },
        scripts: settings.place() as usize,
    }
}

fn read_generate(words: &[Arg]) -> Result<Form, u32>
    ensures { result ≡ read_generate words.now }
{
    match words {
        [] => Err(1),
        [digits, rest @ ..] => match script_number(digits.as_str()) {
            None => Err(1),
            Some(number) => read_workers(number, rest),
        },
    }
}

/// The words behind the number of a script.
fn read_workers(number: u32, words: &[Arg]) -> Result<Form, u32>
    ensures { result ≡ read_workers number words.now }
{
    match words {
        [] => Ok(Form::Generate {
            number,
            workers: DEFAULT_WORKERS,
        }),
        [name, ..] if name.as_str() != "--workers" => Err(2),
        [_] => Err(3),
        [_, said, rest @ ..] => match number_within(1, MAX_WORKERS, said.as_str()) {
            None => Err(3),
            Some(workers) if rest.is_empty() => Ok(Form::Generate { number, workers }),
            Some(_) => Err(4),
        },
    }
}
