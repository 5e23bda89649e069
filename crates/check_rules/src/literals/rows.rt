//! The rows of a literal.
ghost use Rattle.std.specs.Prelude.{◌≡◌, ◌≤ℤ◌, pos, IfOk};
ghost use Rattle.check_rules.specs.LiteralRows.{is_value_of, fits_attribute, fit_attributes, fits_element, rows_from, literal_rows, AreSpelled};

use crate::literals::literal::elements_of;
use cell_values::{Attribute, Cell, Datum, Dimension, Kind, List, Memory, Row, coord_of};
use std::alloc::Global;

/// Whether a value that is not null is of the kind.
fn is_value_of(kind: Kind, value: &Datum) -> bool
    ensures { result ≡ is_value_of kind value.now }
{
    matches!(
        (kind, value),
        (Kind::Int64, Datum::Int(_)) | (Kind::Str, Datum::Text(_)) | (Kind::Bool, Datum::Truth(_))
    )
}

fn fits_attribute(attribute: &Attribute, value: &Datum) -> bool
    ensures { result ≡ fits_attribute attribute.now value.now }
{
    if value.is_null() {
        attribute.nullable
    } else {
        is_value_of(attribute.kind, value)
    }
}

/// Whether there is one value for each attribute.
#[tactic(auto, using(crate::proofs::RowLemmas::fits_none, crate::proofs::RowLemmas::fits_no_value))]
fn fit_attributes(attributes: &[Attribute], values: &[Datum]) -> bool
    ensures { result ≡ fit_attributes attributes.now values.now }
{
    match attributes {
        [] => values.is_empty(),
        [attribute, attributes @ ..] => match values {
            [] => false,
            [value, values @ ..] => {
                fits_attribute(attribute, value) && fit_attributes(attributes, values)
            }
        },
    }
}

/// Whether an element leaves its place empty, or has one value for each attribute.
fn fits_element(attributes: &[Attribute], values: &[Datum]) -> bool
    ensures { result ≡ fits_element attributes.now values.now }
{
    values.is_empty() || fit_attributes(attributes, values)
}

/// The rows of elements from the low bound on, or none where one of them doesn't fit.
#[tactic(auto, using(crate::proofs::RowLemmas::unfit, crate::proofs::RowLemmas::skips, crate::proofs::RowLemmas::adds))]
fn rows_of(
    attributes: &[Attribute],
    dimension: &Dimension,
    elements: &List<List<Datum>>,
) -> Result<Option<List<Row>>, Memory>
    requires { dimension.now.hi ≤ℤ pos 4611686018427387903 }
    ensures { IfOk result (λ rows. rows ≡ rows_from attributes.now dimension.now.hi dimension.now.lo elements.now) }
{
    let mut rows = elements.another();
    let mut at = dimension.lo;
    for values in elements.as_slice() {
        if at > dimension.hi || !fits_element(attributes, values.as_slice()) {
            return Ok(None);
        }
        if !values.is_empty() {
            rows.push(Row {
                at: coord_of(&[at]),
                cell: Cell::Full(values.copy()?),
            })?;
        }
        at += 1;
    }
    Ok(Some(rows))
}

/// The rows that a text spells, or none where it is a bad literal.
pub fn literal_rows(
    alloc: Global,
    attributes: &[Attribute],
    dimension: &Dimension,
    text: &[u8],
) -> Result<Option<List<Row>>, Memory>
    requires { dimension.now.hi ≤ℤ pos 4611686018427387903 }
    ensures value { IfOk result (λ read. read ≡ literal_rows attributes.now dimension.now text.now) }
    ensures spelled { IfOk result (AreSpelled attributes.now dimension.now text.now) }
{
    match elements_of(alloc, attributes.len() == 1, text)? {
        Some(elements) => rows_of(attributes, dimension, &elements),
        None => Ok(None),
    }
}
