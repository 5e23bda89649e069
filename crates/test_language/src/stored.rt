//! Stored arrays, as texts write them, and those that statements may speak of.
ghost use Rattle.std.specs.Prelude.{IfOk};
ghost use Rattle.cell_values.specs.Schemas.{IsValid};
ghost use Rattle.afl_types.specs.Arrays.{AreValid};

use crate::schemas::schema_in;
use crate::texts::front_of;
use cell_values::{List, Memory};
use logical_plan::{NameEntry, Names};
use std::alloc::Global;
use test_kit::{Transcript, name_of};

/// `B` of each type, `E` without versions, `G` whose first versions are removed, and `W` whose bounds are as wide as bounds may be.
const FEW: &str = "B 7 1 <n:int64 not null,s:string,p:bool>[x=0:3,2,1,y=-2:2,3,0]\
    |E 7 - <v:int64>[i=0:2,2,0]\
    |G 7 3,5 <v:string>[i=0:*,5,0]\
    |W 7 6 <v:int64>[i=-4611686018427387903:*,2,0,j=0:1,2,0]";

/// The number of a word, 0 where it is none.
pub(crate) fn number_of(word: &str) -> u32 {
    word.parse::<u32>().unwrap_or(0)
}

/// The numbers of a word such as `1,3`, and none of `-`.
fn numbers_in(alloc: Global, word: &str) -> Result<List<u32>, Memory> {
    let mut numbers = List::new(alloc);
    for digits in word.split(',') {
        if let Ok(number) = digits.parse::<u32>() {
            numbers.push(number)?;
        }
    }
    Ok(numbers)
}

/// The array of a text such as `A 4 1,3 <v:int64>[i=0:3,2,0]`: its name, its next number, its versions and its schema. A text that
/// is none counts as want of memory.
pub(crate) fn array_in(alloc: Global, text: &str) -> Result<NameEntry, Memory>
    ensures { IfOk result (λ entry. IsValid entry.schema) }
{
    let (name, rest) = front_of(text);
    let (next, rest) = front_of(rest);
    let (versions, schema) = front_of(rest);
    Ok(NameEntry {
        schema: schema_in(alloc, schema.as_bytes()).ok_or(Memory)?,
        name: name_of(alloc, name.as_bytes())?,
        next: number_of(next),
        versions: numbers_in(alloc, versions)?,
    })
}

/// Adds the array of a text.
fn push_array_in(arrays: &mut List<NameEntry>, text: &str) -> Result<(), Memory>
    requires { AreValid arrays.old }
    ensures { AreValid arrays.new }
{
    let entry = array_in(arrays.allocator(), text)?;
    arrays.push(entry)
}

/// Adds the arrays of a text, with a `|` between.
pub(crate) fn push_arrays_in(arrays: &mut List<NameEntry>, text: &str) -> Result<(), Memory>
    requires { AreValid arrays.old }
    ensures { AreValid arrays.new }
{
    for part in text.split('|') {
        push_array_in(arrays, part)?;
    }
    Ok(())
}

/// Adds the array of a text that has a number between two others.
fn push_numbered_array(
    arrays: &mut List<NameEntry>,
    before: &str,
    number: usize,
    behind: &str,
) -> Result<(), Memory>
    requires { AreValid arrays.old }
    ensures { AreValid arrays.new }
{
    let text = format!(in arrays.allocator(); "{before}{number}{behind}")?;
    let added = push_array_in(arrays, text.as_str());
    drop(text);
    added
}

/// Adds `A`, with the number of its next version, a few arrays of other kinds, and others.
fn push_arrays(arrays: &mut List<NameEntry>, next: usize, others: usize) -> Result<(), Memory>
    requires { AreValid arrays.old }
    ensures { AreValid arrays.new }
{
    push_numbered_array(arrays, "A ", next, " 1,2 <v:int64>[i=0:2,2,0]")?;
    push_arrays_in(arrays, FEW)?;
    for number in 0..others {
        push_numbered_array(arrays, "X", number, " 1 - <v:int64>[i=0:2,2,0]")?;
    }
    Ok(())
}

/// The stored arrays, with the number of the next version of `A`, and as many others beside a few.
pub(crate) fn names(out: &mut Transcript, next: usize, others: usize) -> Names
    ensures { AreValid result.arrays }
{
    let mut arrays = List::new(out.alloc());
    let added = push_arrays(&mut arrays, next, others);
    out.note(added.is_ok());
    Names { arrays }
}
