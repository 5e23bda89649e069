//! The line of a refusal.
ghost use Rattle.std.specs.Prelude.{◌≡◌, ◌++◌, codes, IfOk, OnOk};
ghost use Rattle.std.specs.Fmt.{decimal};
ghost use Rattle.result_print.specs.Lines.{line_of_refusal, fault_text, stop_text, type_text};
ghost use Rattle.result_print.specs.Texts.{place_text};

use crate::Refusal;
use crate::kinds::{fault_words, stop_words, type_words};
use crate::spelling::{write_count, write_place};
use afl_trees::ParseKind;
use cell_values::{Bytes, Coord, FaultKind, Memory, Span};
use schema_grammar::TypeKind;
use std::alloc::Global;

/// Ends a line with the words of a kind.
fn write_words(line: &mut Bytes, words: &[u8]) -> Result<(), Memory>
    ensures { OnOk result (line.new ≡ line.old ++ (codes ": " ++ words.now ++ codes "\n")) }
{
    line.extend(b": ")?;
    line.extend(words)?;
    line.push(b'\n')
}

fn length_line(alloc: Global, bytes: u64) -> Result<Bytes, Memory>
    ensures { IfOk result (λ line. line ≡ codes "error: too long: " ++ decimal bytes ++ codes " bytes\n") }
{
    let mut line = Bytes::from_slice(alloc, b"error: too long: ")?;
    write_count(&mut line, bytes)?;
    line.extend(b" bytes\n")?;
    Ok(line)
}

fn parse_line(alloc: Global, at: u32, kind: ParseKind) -> Result<Bytes, Memory>
    ensures { IfOk result (λ line. line ≡ codes "error: parse at " ++ decimal at ++ codes ": " ++ stop_text kind ++ codes "\n") }
{
    let mut line = Bytes::from_slice(alloc, b"error: parse at ")?;
    write_count(&mut line, u64::from(at))?;
    write_words(&mut line, stop_words(kind))?;
    Ok(line)
}

fn type_line(alloc: Global, span: Span, kind: TypeKind) -> Result<Bytes, Memory>
    ensures { IfOk result (λ line. line ≡ codes "error: type at " ++ decimal span.start ++ codes ".." ++ decimal span.end
        ++ codes ": " ++ type_text kind ++ codes "\n") }
{
    let mut line = Bytes::from_slice(alloc, b"error: type at ")?;
    write_count(&mut line, u64::from(span.start))?;
    line.extend(b"..")?;
    write_count(&mut line, u64::from(span.end))?;
    write_words(&mut line, type_words(kind))?;
    Ok(line)
}

fn cell_line(alloc: Global, at: &Coord, kind: FaultKind) -> Result<Bytes, Memory>
    ensures { IfOk result (λ line. line ≡ codes "error: cell " ++ place_text at.now.items ++ codes ": " ++ fault_text kind ++ codes "\n") }
{
    let mut line = Bytes::from_slice(alloc, b"error: cell ")?;
    write_place(&mut line, at.as_slice())?;
    write_words(&mut line, fault_words(kind))?;
    Ok(line)
}

fn damaged_line(alloc: Global, page: u32) -> Result<Bytes, Memory>
    ensures { IfOk result (λ line. line ≡ codes "error: damaged page " ++ decimal page ++ codes "\n") }
{
    let mut line = Bytes::from_slice(alloc, b"error: damaged page ")?;
    write_count(&mut line, u64::from(page))?;
    line.push(b'\n')?;
    Ok(line)
}

fn full_line(alloc: Global, needed: u32, free: u32) -> Result<Bytes, Memory>
    ensures { IfOk result (λ line. line ≡ codes "error: full: needs " ++ decimal needed ++ codes " pages, " ++ decimal free ++ codes " free\n") }
{
    let mut line = Bytes::from_slice(alloc, b"error: full: needs ")?;
    write_count(&mut line, u64::from(needed))?;
    line.extend(b" pages, ")?;
    write_count(&mut line, u64::from(free))?;
    line.extend(b" free\n")?;
    Ok(line)
}

/// The line that tells a refusal, as `error: cell {0,-1}: divide by zero`, with its line feed.
pub fn refusal_line(alloc: Global, refusal: &Refusal) -> Result<Bytes, Memory>
    ensures { IfOk result (λ line. line ≡ line_of_refusal refusal.now) }
{
    match refusal {
        Refusal::TooLong { bytes } => length_line(alloc, *bytes),
        Refusal::Parse { at, kind } => parse_line(alloc, *at, *kind),
        Refusal::HistoryFull => Bytes::from_slice(alloc, b"error: history full\n"),
        Refusal::Typing { span, kind } => type_line(alloc, *span, *kind),
        Refusal::Disk => Bytes::from_slice(alloc, b"error: disk\n"),
        Refusal::Damaged { page } => damaged_line(alloc, *page),
        Refusal::Cell { at, kind } => cell_line(alloc, at, *kind),
        Refusal::SequenceEnd => Bytes::from_slice(alloc, b"error: sequence end\n"),
        Refusal::Full { needed, free } => full_line(alloc, *needed, *free),
        Refusal::Memory => Bytes::from_slice(alloc, b"error: memory\n"),
    }
}
