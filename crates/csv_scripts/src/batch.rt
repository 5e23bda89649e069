//! A literal that grows by records.
ghost use Rattle.std.specs.Prelude.{◌≡◌, ◌+◌, ◌≤◌, ◌<◌, ◌++◌, true, false, List, [], ◌∷◌, length, IsTrue, IfOk, OnOk};
ghost use Rattle.cell_values.specs.declared.datum.Datum.{Datum};
ghost use Rattle.schema_grammar.specs.SchemaBytes.{separator};
ghost use Rattle.csv_scripts.specs.Batches.{IsOpenLiteral};
ghost use Rattle.csv_scripts.specs.Literal.{are_spellable, element_bytes, is_spellable, literal_bytes};

use cell_values::{Bytes, Datum, List, MAX_TEXT, Memory};
use result_print::write_values;
use std::alloc::Global;

/// The records of a literal so far, without the bracket behind them.
#[derive(Drop)]
pub(crate) struct Batch {
    pub(crate) text: Bytes,
    /// The number of the first record.
    pub(crate) first: u64,
    /// How many records there are.
    pub(crate) count: u64,
    ghost fits: { length text < 65535 },
}

/// Whether a literal can spell a value. The least number has none, since its digits are no token.
fn is_spellable(value: &Datum) -> bool
    ensures { result ≡ is_spellable value.now }
{
    match value {
        Datum::Int(number) => *number != i64::MIN,
        Datum::Text(content) => content.len() <= MAX_TEXT,
        Datum::Bad(_) => false,
        Datum::Missing(code) => 1 <= code.number() && code.number() <= 127,
        Datum::Null | Datum::Truth(_) => true,
    }
}

/// Whether a literal can spell each of these values.
pub(crate) fn are_spellable(values: &[Datum]) -> bool
    ensures { result ≡ are_spellable values.now }
{
    values.iter().all(|value| is_spellable(value))
}

/// The text of a record.
fn write_element(text: &mut Bytes, values: &[Datum]) -> Result<(), Memory>
    ensures { OnOk result (text.new ≡ element_bytes values.now) }
{
    text.clear();
    text.push(b'(')?;
    write_values(text, values)?;
    text.push(b')')
}

/// Adds the comma that stands before every record but the first.
fn separate(text: &mut Bytes, count: u64) -> Result<(), Memory>
    ensures text { OnOk result (text.new ≡ text.old ++ separator count) }
    ensures short { length text.new ≤ length text.old + 1 }
{
    if count > 0 { text.push(b',') } else { Ok(()) }
}

impl Batch {
    /// No records. The first will have this number.
    pub(crate) fn new(alloc: Global, first: u64) -> Result<Batch, Memory>
        ensures open { IfOk result (λ batch. IsOpenLiteral batch.text batch.count []) }
        ensures first { IfOk result (λ batch. batch.first ≡ first) }
    {
        let mut text = List::with_capacity(alloc, MAX_TEXT)?;
        text.push(b'[')?;
        Ok(Batch {
            text,
            first,
            count: 0,
        })
    }

    /// Adds a record, where it and a bracket behind it have room.
    pub(crate) fn push(&mut self, values: &[Datum], buffer: &mut Bytes) -> Result<bool, Memory>
        requires { IsTrue (are_spellable values.now) }
        ensures added { (rows : List (List Datum)) → IsOpenLiteral self.old.text self.old.count rows
            → IfOk result (λ added. added ≡ true → IsOpenLiteral self.new.text self.new.count (rows ++ values.now ∷ [])) }
        ensures first { OnOk result (self.new.first ≡ self.old.first) }
        ensures full { IfOk result (λ added. added ≡ false → self.new ≡ self.old) }
    {
        write_element(buffer, values)?;
        let used = self.text.len() + 2;
        if buffer.len() > MAX_TEXT || used + buffer.len() > MAX_TEXT || self.count == u64::MAX {
            return Ok(false);
        }
        separate(&mut self.text, self.count)?;
        self.text.extend(buffer.as_slice())?;
        self.count += 1;
        Ok(true)
    }

    /// The literal.
    pub(crate) fn finish(self) -> Result<Bytes, Memory>
        ensures literal { (rows : List (List Datum)) → IsOpenLiteral self.text self.count rows → IfOk result (λ text. text ≡ literal_bytes rows) }
        ensures fits { IfOk result (λ text. length text ≤ 65535) }
    {
        let Batch { text, .. } = self;
        let mut text = text;
        text.push(b']')?;
        Ok(text)
    }
}
