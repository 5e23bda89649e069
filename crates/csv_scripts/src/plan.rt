//! Where the records go: the array, and how a literal holds them on the way.
ghost use Rattle.std.specs.Prelude.{◌≡◌, false, IfOk};
ghost use Rattle.csv_scripts.specs.Plans.{is_reserved, staging_name};

use crate::fault::CsvFault;
use afl_parser::{ParseFault, parse};
use afl_trees::Node;
use cell_values::{
    Attribute, Bytes, Kind, List, MAX_ATTRIBUTES, MAX_STATEMENT, Memory, Name, Schema, Span,
};
use result_print::Refusal;
use schema_grammar::{SchemaFault, meaning};
use std::alloc::Global;

/// The names that begin so are those of staging arrays.
const RESERVED: &[u8] = b"csv2afl_";

/// An array, and how a literal holds its cells.
#[derive(Drop)]
pub struct LoadPlan {
    pub name: Name,
    pub schema: Schema,
    /// What a literal has of each record: the attributes, and then the dimensions.
    pub columns: List<Attribute>,
    /// How many decimals the numbers of each column have.
    pub decimals: List<usize>,
    /// The dimension that counts the records.
    pub record: Name,
    /// The staging array, which holds the records until all are there.
    pub stage: Name,
}

fn is_column(name: &Name, columns: &[Attribute]) -> bool {
    for column in columns {
        if column.name.as_slice() == name.as_slice() {
            return true;
        }
    }
    false
}

/// `record`, or else the first of `record_2`, `record_3` and so on that is no column.
fn record_name(alloc: Global, columns: &[Attribute]) -> Result<Name, CsvFault> {
    for number in 1..256u64 {
        let mut bytes = Bytes::from_slice(alloc, b"record")?;
        if number > 1 {
            bytes.push(b'_')?;
            let mut buffer = itoa::Buffer::new();
            bytes.extend(buffer.format(number).as_bytes())?;
        }
        if let Some(name) = Name::new(bytes) {
            if !is_column(&name, columns) {
                return Ok(name);
            }
        }
    }
    Err(CsvFault::TooManyColumns)
}

fn is_reserved(name: &[u8]) -> bool
    ensures { result ≡ is_reserved name.now }
{
    name.starts_with(RESERVED)
}

/// The staging array's name. A script can't remove an array under a condition, so the name is one
/// that no array but a staging one is to have.
fn stage_name(alloc: Global, name: &Name) -> Result<Name, CsvFault>
    ensures { IfOk result (λ stage. stage ≡ staging_name name.now) }
{
    let mut bytes = Bytes::from_slice(alloc, RESERVED)?;
    bytes.extend(name.as_slice())?;
    match Name::new(bytes) {
        Some(stage) => Ok(stage),
        None => Err(CsvFault::NameTooLong),
    }
}

/// The attributes, and then a number for each dimension.
fn columns_of(alloc: Global, schema: &Schema) -> Result<List<Attribute>, Memory> {
    let mut columns = List::new(alloc);
    for attribute in schema.attributes.as_slice() {
        columns.push(attribute.copy()?)?;
    }
    for dimension in schema.dimensions.as_slice() {
        columns.push(Attribute {
            name: dimension.name.copy()?,
            kind: Kind::Int64,
            nullable: false,
        })?;
    }
    Ok(columns)
}

fn behind(at: u32, front: usize) -> u32 {
    match u32::try_from(front) {
        Ok(front) => at.saturating_sub(front),
        Err(_) => at,
    }
}

fn parse_fault(fault: ParseFault, front: usize) -> CsvFault {
    match fault {
        ParseFault::At { at, kind } => CsvFault::Schema(Refusal::Parse {
            at: behind(at, front),
            kind,
        }),
        ParseFault::Memory => CsvFault::Memory,
    }
}

fn schema_fault(fault: SchemaFault, front: usize) -> CsvFault {
    match fault {
        SchemaFault::Rule { span, kind } => CsvFault::Schema(Refusal::Typing {
            span: Span {
                start: behind(span.start, front),
                end: behind(span.end, front),
            },
            kind,
        }),
        SchemaFault::Memory => CsvFault::Memory,
    }
}

/// The schema that a text spells, read as it would be in `create array`.
fn schema_of(alloc: Global, name: &Name, text: &[u8]) -> Result<Schema, CsvFault> {
    let mut statement = Bytes::from_slice(alloc, b"create array ")?;
    statement.extend(name.as_slice())?;
    statement.push(b' ')?;
    let front = statement.len();
    statement.extend(text)?;
    if statement.len() > MAX_STATEMENT {
        return Err(CsvFault::Schema(Refusal::TooLong {
            bytes: statement.len() as u64,
        }));
    }
    match parse(alloc, statement.as_slice()) {
        Ok(tree) => match &tree.node {
            Node::Create(_, shape) => match meaning(alloc, statement.as_slice(), shape) {
                Ok(schema) => Ok(schema),
                Err(fault) => Err(schema_fault(fault, front)),
            },
            _ => Err(CsvFault::NoName),
        },
        Err(fault) => Err(parse_fault(fault, front)),
    }
}

/// The name and the number of a word as `temp=2`.
fn split_at_equals(word: &[u8]) -> Option<(&[u8], &[u8])> {
    for at in 0..word.len() {
        if word[at] == b'=' {
            return Some((&word[..at], &word[at + 1..]));
        }
    }
    None
}

/// The decimals, at most 18, that a word as `temp=2` gives a column. None where it is no such word, or of another column.
fn decimals_in(word: &[u8], column: &Attribute) -> Option<usize> {
    let (name, number) = split_at_equals(word)?;
    match number {
        [digit] if name == column.name.as_slice() && digit.is_ascii_digit() => {
            Some(usize::from(*digit - b'0'))
        }
        [b'1', digit] if name == column.name.as_slice() && *digit >= b'0' && *digit <= b'8' => {
            Some(10 + usize::from(*digit - b'0'))
        }
        _ => None,
    }
}

fn decimals_of(
    alloc: Global,
    columns: &[Attribute],
    words: &[&str],
) -> Result<List<usize>, CsvFault> {
    let mut all = List::new(alloc);
    let mut used = 0usize;
    for column in columns {
        let mut decimals = 0usize;
        for word in words {
            if let Some(count) = decimals_in(word.as_bytes(), column) {
                decimals = count;
                used = used.saturating_add(1);
            }
        }
        all.push(decimals)?;
    }
    if used < words.len() {
        return Err(CsvFault::NoDecimals);
    }
    Ok(all)
}

/// The plan for an array of this name, with a schema as its text is written. Words as `temp=2` tell
/// of columns how many decimals their numbers have.
pub fn load_plan(
    alloc: Global,
    name: &[u8],
    schema: &[u8],
    words: &[&str],
) -> Result<LoadPlan, CsvFault>
    ensures name { IfOk result (λ plan. plan.name ≡ name.now) }
    ensures unreserved { IfOk result (λ plan. is_reserved plan.name ≡ false) }
    ensures stage { IfOk result (λ plan. plan.stage ≡ staging_name plan.name) }
{
    let name = match Name::new(Bytes::from_slice(alloc, name)?) {
        Some(name) => name,
        None => return Err(CsvFault::NoName),
    };
    if is_reserved(name.as_slice()) {
        return Err(CsvFault::Reserved);
    }
    let schema = schema_of(alloc, &name, schema)?;
    let columns = columns_of(alloc, &schema)?;
    if columns.len() > MAX_ATTRIBUTES {
        return Err(CsvFault::TooManyColumns);
    }
    let record = record_name(alloc, columns.as_slice())?;
    let stage = stage_name(alloc, &name)?;
    let decimals = decimals_of(alloc, columns.as_slice(), words)?;
    Ok(LoadPlan {
        name,
        schema,
        columns,
        decimals,
        record,
        stage,
    })
}
