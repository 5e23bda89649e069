//! The value of a field.
ghost use Rattle.std.specs.Prelude.{◌≡◌, ◌≤◌, ◌+◌, ◌++◌, ◌==◌, Some, IfOk, IfSome, IsTrue, OnOk, drop, length, replicate, take};
ghost use Rattle.std.specs.List.{list_all};
ghost use Rattle.std.specs.Str.Parse.{signed_digits_value};
ghost use Rattle.cell_values.specs.declared.datum.Datum.{Datum};
ghost use Rattle.csv_scripts.specs.Fields.{HasFieldValue, HasNumberValue, are_zeros_behind, decimal_part, first_value, fixed_digits, is_null_field, is_nullable, one_place, spelled_value, truth_word, whole_part};

use cell_values::{Attribute, Bytes, Cell, Datum, Dimension, Kind, List, Memory, Name};
use check_rules::literal_rows;
use std::alloc::Global;

/// How the fields of a column are read.
#[derive(Clone, Copy)]
pub struct FieldFormat<'a> {
    /// Whether texts and truths stand as other programs write them.
    pub is_bare: bool,
    /// What stands for a null, beside nothing at all.
    pub null: &'a [u8],
    /// How many decimals a number has: it is kept in the unit that makes it whole.
    pub decimals: usize,
}

/// A dimension of one place.
fn one_place(alloc: Global) -> Result<Option<Dimension>, Memory>
    ensures { IfOk result (λ found. IfSome found (λ dimension. dimension ≡ one_place)) }
{
    Ok(match Name::new(Bytes::from_slice(alloc, b"i")?) {
        Some(name) => Some(Dimension {
            name,
            lo: 0,
            hi: 0,
            chunk: 1,
            overlap: 0,
        }),
        None => None,
    })
}

fn first_value(cell: &Cell) -> Result<Option<Datum>, Memory>
    ensures { IfOk result (λ value. value ≡ first_value cell.now) }
{
    match cell {
        Cell::Full(values) => match values.as_slice() {
            [value, ..] => Ok(Some(value.copy()?)),
            [] => Ok(None),
        },
        Cell::Doubt(_) => Ok(None),
    }
}

/// The value that a field spells as the only element of a literal.
fn spelled_value(
    alloc: Global,
    field: &[u8],
    attributes: &[Attribute],
) -> Result<Option<Datum>, Memory>
    ensures { IfOk result (λ found. IfSome found (λ value. spelled_value attributes.now field.now ≡ Some value)) }
{
    let Some(dimension) = one_place(alloc)? else {
        return Ok(None);
    };
    let mut text = Bytes::from_slice(alloc, b"[")?;
    text.extend(field)?;
    text.push(b']')?;
    match literal_rows(alloc, attributes, &dimension, text.as_slice())? {
        Some(rows) => match rows.as_slice() {
            [row, ..] => first_value(&row.cell),
            [] => Ok(None),
        },
        None => Ok(None),
    }
}

fn is_number(field: &[u8]) -> bool {
    match field {
        [b'-', first, ..] => first.is_ascii_digit(),
        [first, ..] => first.is_ascii_digit(),
        [] => false,
    }
}

/// The number of digits, with a `-` before them or not. The least number has no literal.
fn parse_number(field: &[u8]) -> Option<Datum>
    ensures { IfSome result (λ value. value ≡ Datum.Int (signed_digits_value 10 field.now)) }
{
    match std::str::from_utf8(field) {
        Ok(text) => match text.parse::<i64>() {
            Ok(i64::MIN) => None,
            Ok(number) => Some(Datum::Int(number)),
            Err(_) => None,
        },
        Err(_) => None,
    }
}

/// Where the point of a number stands: behind its bytes where it has none.
fn point_of(field: &[u8]) -> usize
    ensures within { result ≤ length field.now }
    ensures whole { take result field.now ≡ whole_part field.now }
    ensures decimals { drop (result + 1) field.now ≡ decimal_part field.now }
{
    for at in 0..field.len() {
        if field[at] == b'.' {
            return at;
        }
    }
    field.len()
}

/// The bytes behind the point of a number.
fn decimal_part(field: &[u8]) -> &[u8]
    ensures { result.now ≡ decimal_part field.now }
{
    let at = point_of(field);
    if at < field.len() {
        &field[at + 1..]
    } else {
        &field[at..]
    }
}

/// The first of the bytes behind a point, so many at most.
fn first_decimals(bytes: &[u8], decimals: usize) -> &[u8]
    ensures { result.now ≡ take decimals bytes.now }
{
    if bytes.len() < decimals {
        bytes
    } else {
        &bytes[..decimals]
    }
}

fn are_zeros(bytes: &[u8]) -> bool
    ensures { result ≡ list_all (λ b. b == 48) bytes.now }
{
    bytes.iter().all(|byte| *byte == b'0')
}

/// Whether the bytes behind so many are zeros.
fn are_zeros_behind(bytes: &[u8], decimals: usize) -> bool
    ensures { result ≡ list_all (λ b. b == 48) (drop decimals bytes.now) }
{
    if bytes.len() < decimals {
        return true;
    }
    are_zeros(&bytes[decimals..])
}

fn push_zeros(digits: &mut Bytes, count: usize) -> Result<(), Memory>
    ensures { OnOk result (digits.new ≡ digits.old ++ replicate count 48) }
{
    for _ in 0..count {
        digits.push(b'0')?;
    }
    Ok(())
}

/// The digits of a number in the unit that makes so many decimals whole. Further ones are to be zeros.
fn fixed_digits(alloc: Global, field: &[u8], decimals: usize) -> Result<Option<Bytes>, Memory>
    ensures digits { IfOk result (λ found. IfSome found (λ digits. digits ≡ fixed_digits decimals field.now)) }
    ensures zeros { IfOk result (λ found. IfSome found (λ digits. IsTrue (are_zeros_behind decimals field.now))) }
{
    let behind = decimal_part(field);
    if !are_zeros_behind(behind, decimals) {
        return Ok(None);
    }
    let mut digits = Bytes::from_slice(alloc, &field[..point_of(field)])?;
    digits.extend(first_decimals(behind, decimals))?;
    push_zeros(&mut digits, decimals.saturating_sub(behind.len()))?;
    Ok(Some(digits))
}

/// The number that digits write, with a point in them where it has decimals.
fn parse_decimal(alloc: Global, field: &[u8], decimals: usize) -> Result<Option<Datum>, Memory>
    ensures { IfOk result (λ found. IfSome found (HasNumberValue decimals field.now)) }
{
    if decimals == 0 {
        return match parse_number(field) {
            Some(value) => Ok(Some(value)),
            None => Ok(None),
        };
    }
    match fixed_digits(alloc, field, decimals)? {
        Some(digits) => match parse_number(digits.as_slice()) {
            Some(value) => Ok(Some(value)),
            None => Ok(None),
        },
        None => Ok(None),
    }
}

fn parse_bool(field: &[u8]) -> Option<bool>
    ensures { result ≡ truth_word field.now }
{
    if field == b"true".as_slice() || field == b"True".as_slice() || field == b"TRUE".as_slice() {
        Some(true)
    } else if field == b"false".as_slice()
        || field == b"False".as_slice()
        || field == b"FALSE".as_slice()
    {
        Some(false)
    } else {
        None
    }
}

fn is_null_field(field: &[u8], null: &[u8]) -> bool
    ensures { result ≡ is_null_field field.now null.now }
{
    field.is_empty() || field == null
}

fn is_nullable(columns: &[Attribute]) -> bool
    ensures { result ≡ is_nullable columns.now }
{
    match columns {
        [column, ..] => column.nullable,
        [] => false,
    }
}

/// The value of a field. `columns` is its column alone.
pub(crate) fn parse_field(
    alloc: Global,
    field: &[u8],
    columns: &[Attribute],
    format: FieldFormat<'_>,
) -> Result<Option<Datum>, Memory>
    ensures { IfOk result (λ found. IfSome found
        (HasFieldValue format.entry.is_bare format.entry.null.now format.entry.decimals columns.now field.now)) }
{
    let Some(column) = columns.first() else {
        return Ok(None);
    };
    if is_null_field(field, format.null) {
        if is_nullable(columns) {
            return Ok(Some(Datum::Null));
        }
        return Ok(None);
    }
    match column.kind {
        Kind::Int64 if is_number(field) => match parse_decimal(alloc, field, format.decimals)? {
            Some(value) => Ok(Some(value)),
            None => Ok(None),
        },
        Kind::Str if format.is_bare => Ok(Some(Datum::Text(List::from_slice(alloc, field)?))),
        Kind::Bool if format.is_bare => match parse_bool(field) {
            Some(truth) => Ok(Some(Datum::Truth(truth))),
            None => Ok(None),
        },
        _ => spelled_value(alloc, field, columns),
    }
}
