//! From a text of CSV to a script.
ghost use Rattle.std.specs.Prelude.{◌≡◌, ℕ, ◌+◌, if◌then◌else◌, Bool, true, false, Option, Some, List, [], ◌∷◌, ◌++◌, IsTrue, IfOk, OnOk};
ghost use Rattle.std.specs.Io.KnownBytes.{Appends};
ghost use Rattle.csv.specs.Reading.{AreRecords, default_config};
ghost use Rattle.csv.specs.Records.{fields_of};
ghost use Rattle.csv.specs.declared.parser.State.TheVariants as st;
ghost use Rattle.cell_values.specs.declared.datum.Datum.{Datum};
ghost use Rattle.csv_scripts.specs.Conversion.{Converts, HasRecordValues};
ghost use Rattle.csv_scripts.specs.Inner.Converting.{HasRead, IsConverting, IsLoaded};
ghost use Rattle.csv_scripts.specs.Loads.{IsLoad, IsLoading};
ghost use Rattle.csv_scripts.specs.Scripts.{create_bytes};
ghost use Rattle.csv_scripts.specs.declared.plan.LoadPlan.{LoadPlan};

use crate::batch::are_spellable;
use crate::fault::CsvFault;
use crate::header::places;
use crate::loader::{BatchFault, Loader};
use crate::loading::{Options, check_bounds, line_of, values_of};
use crate::plan::LoadPlan;
use crate::statements::{create_target, remove_stage};
use cell_values::{Bytes, Datum, List, Memory};
use csv::{ByteRecord, Error, ErrorKind, Reader, ReaderBuilder};
use std::alloc::Global;
use std::io::{Read, Write};
use std::mem::replace;

/// The number of the first record: the line of the names is 1.
const FIRST_RECORD: u64 = 2;

fn put<W: Write>(out: &mut W, text: &Bytes) -> Result<(), CsvFault>
    ensures { OnOk result (Appends (W.contents out.old) (W.contents out.new) text.now) }
{
    match out.write_all(text.as_slice()) {
        Ok(()) => Ok(()),
        Err(_) => Err(CsvFault::Write),
    }
}

fn read_fault(error: Error) -> CsvFault {
    match error.into_kind() {
        ErrorKind::UnequalLengths {
            pos,
            expected_len,
            len,
        } => CsvFault::Fields {
            line: match pos {
                Some(position) => position.line(),
                None => 0,
            },
            expected: expected_len,
            found: len,
        },
        ErrorKind::OutOfMemory => CsvFault::Memory,
        _ => CsvFault::Read,
    }
}

/// The next record. False where the text has no more.
fn next_record<R: Read>(reader: &mut Reader<R>, row: &mut ByteRecord) -> Result<bool, CsvFault>
    ensures more { (text : List ℕ) (rows : List (List (List ℕ))) → HasRead R.remaining reader.old text rows
        → IfOk result (λ found. found ≡ true → HasRead R.remaining reader.new text (rows ++ fields_of row.new ∷ [])) }
    ensures end { (text : List ℕ) (rows : List (List (List ℕ))) → HasRead R.remaining reader.old text rows
        → IfOk result (λ found. found ≡ false → AreRecords default_config st.StartRecord text rows) }
{
    match reader.read_byte_record(row) {
        Ok(found) => Ok(found),
        Err(error) => Err(read_fault(error)),
    }
}

fn batch_fault(fault: BatchFault, row: &ByteRecord) -> CsvFault {
    match fault {
        BatchFault::TooLong => CsvFault::TooLong { line: line_of(row) },
        BatchFault::Memory => CsvFault::Memory,
    }
}

/// Adds the values of a record, and writes the statements that go before it.
fn load<W: Write>(
    alloc: Global,
    plan: &LoadPlan,
    loader: &mut Loader,
    row: &ByteRecord,
    values: &[Datum],
    buffer: &mut Bytes,
    out: &mut W,
) -> Result<(), CsvFault>
    ensures { (from : ℕ) (script : List ℕ) (rows : List (List Datum))
        → IsLoading plan.now from loader.old.batch.text loader.old.batch.first loader.old.batch.count loader.old.versions script rows
        → OnOk result ((more : List ℕ) × Appends (W.contents out.old) (W.contents out.new) more
        × IsLoading plan.now from loader.new.batch.text loader.new.batch.first loader.new.batch.count loader.new.versions
        (script ++ more) (rows ++ values.now ∷ [])) }
{
    if !are_spellable(values) {
        return Err(CsvFault::TooLong { line: line_of(row) });
    }
    match loader.add(alloc, plan, values, buffer) {
        Ok(text) => put(out, &text),
        Err(fault) => Err(batch_fault(fault, row)),
    }
}

/// Writes the statements behind the records of a load.
fn finish_load<W: Write>(
    alloc: Global,
    plan: &LoadPlan,
    loader: Loader,
    row: &ByteRecord,
    out: &mut W,
) -> Result<(), CsvFault>
    ensures { (from : ℕ) (script : List ℕ) (rows : List (List Datum))
        → IsLoading plan.now from loader.batch.text loader.batch.first loader.batch.count loader.versions script rows
        → OnOk result ((more : List ℕ) × Appends (W.contents out.old) (W.contents out.new) more
        × IsLoad plan.now from (script ++ more) rows) }
{
    match loader.finish(alloc, plan) {
        Ok(text) => put(out, &text),
        Err(fault) => Err(batch_fault(fault, row)),
    }
}

/// How far the records of a text have come.
#[derive(Drop)]
struct Progress {
    loader: Loader,
    /// The number of the next record.
    number: u64,
    /// How many records the load at hand has.
    held: u64,
    /// Whether the script has a staging array that it doesn't remove yet.
    is_staging: bool,
    values: List<Datum>,
    buffer: Bytes,
}

impl Progress {
    fn new(alloc: Global) -> Result<Progress, Memory>
        ensures next { IfOk result (λ progress. progress.number ≡ 2) }
        ensures loader { (plan : LoadPlan) → IfOk result (λ progress. IsLoading plan 2
            progress.loader.batch.text progress.loader.batch.first progress.loader.batch.count progress.loader.versions [] []) }
    {
        Ok(Progress {
            loader: Loader::new(alloc, FIRST_RECORD)?,
            number: FIRST_RECORD,
            held: 0,
            is_staging: false,
            values: List::new(alloc),
            buffer: Bytes::new(alloc),
        })
    }

    /// Ends the load at hand, and begins another one.
    fn end_load<W: Write>(
        &mut self,
        alloc: Global,
        plan: &LoadPlan,
        row: &ByteRecord,
        out: &mut W,
    ) -> Result<(), CsvFault>
        ensures loaded { (is_bare : Bool) (null places : List ℕ) (fields : List (List (List ℕ))) (before : Option (List ℕ))
            → IsConverting plan.now (HasRecordValues plan.now is_bare null places) fields self.old.number self.old.loader before (W.contents out.old)
            → OnOk result (IsLoaded plan.now (HasRecordValues plan.now is_bare null places) fields self.new.number before (W.contents out.new)) }
        ensures values { OnOk result (self.new.values ≡ self.old.values) }
        ensures loader { (plan : LoadPlan) → OnOk result (IsLoading plan self.new.number
            self.new.loader.batch.text self.new.loader.batch.first self.new.loader.batch.count self.new.loader.versions [] []) }
    {
        let empty = Loader::new(alloc, self.number)?;
        let full = replace(&mut self.loader, empty);
        finish_load(alloc, plan, full, row, out)?;
        self.is_staging = false;
        self.held = 0;
        Ok(())
    }

    /// Ends the load at hand where it has as many records as a version is to have.
    fn make_room<W: Write>(
        &mut self,
        alloc: Global,
        plan: &LoadPlan,
        rows: u64,
        row: &ByteRecord,
        out: &mut W,
    ) -> Result<(), CsvFault>
        ensures converting { (is_bare : Bool) (null places : List ℕ) (fields : List (List (List ℕ))) (before : Option (List ℕ))
            → IsConverting plan.now (HasRecordValues plan.now is_bare null places) fields self.old.number self.old.loader before (W.contents out.old)
            → OnOk result (IsConverting plan.now (HasRecordValues plan.now is_bare null places) fields self.new.number self.new.loader before (W.contents out.new)) }
        ensures values { OnOk result (self.new.values ≡ self.old.values) }
    {
        if self.held >= rows {
            self.end_load(alloc, plan, row, out)
        } else {
            Ok(())
        }
    }

    /// Adds a record, and writes the statements that go before it.
    fn add<W: Write>(
        &mut self,
        alloc: Global,
        plan: &LoadPlan,
        options: Options<'_>,
        places: &List<usize>,
        row: &ByteRecord,
        out: &mut W,
    ) -> Result<(), CsvFault>
        ensures { (fields : List (List (List ℕ))) (before : Option (List ℕ))
            → IsConverting plan.now (HasRecordValues plan.now options.entry.is_bare options.entry.null.now places.now) fields
            self.old.number self.old.loader before (W.contents out.old)
            → OnOk result (IsConverting plan.now (HasRecordValues plan.now options.entry.is_bare options.entry.null.now places.now)
            (fields ++ fields_of row.now ∷ []) self.new.number self.new.loader before (W.contents out.new)) }
    {
        values_of(alloc, plan, places, options, row, &mut self.values)?;
        check_bounds(alloc, plan, row, &self.values)?;
        self.make_room(alloc, plan, options.rows, row, out)?;
        let Some(number) = self.number.checked_add(1) else {
            return Err(CsvFault::TooLong { line: line_of(row) });
        };
        load(
            alloc,
            plan,
            &mut self.loader,
            row,
            self.values.as_slice(),
            &mut self.buffer,
            out,
        )?;
        self.number = number;
        self.is_staging = self.loader.versions > 0;
        self.held = self.held.saturating_add(1);
        Ok(())
    }
}

/// How many records there are before the one of a number.
fn count_below(number: u64) -> Result<u64, CsvFault>
    ensures { IfOk result (λ count. number ≡ count + 2) }
{
    match number.checked_sub(FIRST_RECORD) {
        Some(count) => Ok(count),
        None => Err(CsvFault::Read),
    }
}

/// Writes the statements for all records that a reader has left.
fn convert_records<R: Read, W: Write>(
    alloc: Global,
    plan: &LoadPlan,
    options: Options<'_>,
    places: &List<usize>,
    reader: &mut Reader<R>,
    progress: &mut Progress,
    out: &mut W,
) -> Result<u64, CsvFault>
    ensures { (text : List ℕ) (names : List (List ℕ)) (before : Option (List ℕ)) → HasRead R.remaining reader.old text (names ∷ [])
        → IsConverting plan.now (HasRecordValues plan.now options.entry.is_bare options.entry.null.now places.now) []
        progress.old.number progress.old.loader before (W.contents out.old)
        → IfOk result (λ count. (fields : List (List (List ℕ))) × AreRecords default_config st.StartRecord text (names ∷ fields)
        × IsLoaded plan.now (HasRecordValues plan.now options.entry.is_bare options.entry.null.now places.now) fields (count + 2)
        before (W.contents out.new)) }
{
    let mut row = ByteRecord::new(alloc);
    for _ in 0..u64::MAX {
        if !next_record(reader, &mut row)? {
            progress.end_load(alloc, plan, &row, out)?;
            return count_below(progress.number);
        }
        progress.add(alloc, plan, options, places, &row, out)?;
    }
    Err(CsvFault::Read)
}

/// Writes the statement that makes the array, where it is to be made.
fn create_array<W: Write>(
    alloc: Global,
    plan: &LoadPlan,
    creates: bool,
    out: &mut W,
) -> Result<(), CsvFault>
    ensures { OnOk result (Appends (W.contents out.old) (W.contents out.new)
        (if creates then create_bytes plan.now.name plan.now.schema else [])) }
{
    if !creates {
        return Ok(());
    }
    let text = create_target(alloc, plan)?;
    put(out, &text)
}

/// Writes the script that puts the records of a text of CSV into the array of a plan, and tells how
/// many there are. After a fault the script so far is a whole number of statements, and leaves no
/// staging array.
pub fn convert<R: Read + Drop, W: Write>(
    alloc: Global,
    plan: &LoadPlan,
    options: Options<'_>,
    input: R,
    out: &mut W,
) -> Result<u64, CsvFault>
    ensures { (text : List ℕ) → R.remaining input ≡ Some text → IfOk result (λ count. Converts plan.now options.entry.creates options.entry.is_bare
        options.entry.null.now text count (W.contents out.old) (W.contents out.new)) }
{
    let mut reader = ReaderBuilder::new()
        .has_headers(false)
        .from_reader(alloc, input);
    let mut names = ByteRecord::new(alloc);
    if !next_record(&mut reader, &mut names)? {
        return Err(CsvFault::NoHeader);
    }
    let places = places(alloc, plan.columns.as_slice(), &names)?;
    let mut progress = Progress::new(alloc)?;
    create_array(alloc, plan, options.creates, out)?;
    match convert_records(
        alloc,
        plan,
        options,
        &places,
        &mut reader,
        &mut progress,
        out,
    ) {
        Ok(count) => Ok(count),
        Err(fault) => {
            if progress.is_staging {
                put(out, &remove_stage(alloc, plan)?)?;
            }
            Err(fault)
        }
    }
}
