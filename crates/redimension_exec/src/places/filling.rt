//! Rows moved one after the other into the chunks of a target.
ghost use Rattle.std.specs.Prelude.{map, IfOk};
ghost use Rattle.redimension_exec.specs.Inner.Filling.{Fill, FillOne, IsTarget};
ghost use Rattle.redimension_exec.specs.Inner.Places.{origin};

use crate::filling::{Filled, fill};
use crate::places::landing::{Step, next_of};
use crate::places::places::Place;
use cell_values::{
    Bounds, Broken, Coord, FaultKind, List, Margins, Memory, Row, Schema, copy_coord,
};
use std::collections::BTreeMap;

/// A target: its schema, no margins for its chunks, its bounds, and where its numbers and values come from.
#[derive(Drop)]
pub(crate) struct Target<'a> {
    pub schema: &'a Schema,
    pub none: &'a Margins,
    pub bounds: &'a Bounds,
    pub places: &'a [Place],
    pub values: &'a [Place],
}

/// Puts what one row makes into its chunk, or says why it breaks the array.
fn fill_next(
    to: &Target<'_>,
    counts: &mut BTreeMap<Coord, u64>,
    filled: &mut Filled,
    row: &Row,
) -> Result<Option<FaultKind>, Memory>
    requires { IsTarget to.now.schema.now to.now.none.now.items to.now.bounds.now to.now.places.now }
    ensures { IfOk result (λ fault. FillOne to.now.schema.now (map origin to.now.places.now) to.now.bounds.now (map origin to.now.values.now) row.now fault
        counts.old filled.old counts.new filled.new) }
{
    let step = next_of(to.places, to.bounds, to.values, counts, row)?;
    match step {
        Step::Breaks(kind) => Ok(Some(kind)),
        Step::Drops => Ok(None),
        Step::Lands(new) => {
            fill(to.schema, to.none, filled, new)?;
            Ok(None)
        }
    }
}

/// Puts what rows make into chunks as they come, or says which of the rows is the first that breaks the array.
pub(crate) fn fill_rows(
    to: &Target<'_>,
    counts: &mut BTreeMap<Coord, u64>,
    filled: &mut Filled,
    rows: &List<Row>,
) -> Result<Option<Broken>, Memory>
    requires { IsTarget to.now.schema.now to.now.none.now.items to.now.bounds.now to.now.places.now }
    ensures { IfOk result (λ broken. Fill to.now.schema.now (map origin to.now.places.now) to.now.bounds.now (map origin to.now.values.now) rows.now broken
        counts.old filled.old counts.new filled.new) }
{
    for row in rows.as_slice() {
        if let Some(kind) = fill_next(to, counts, filled, row)? {
            return Ok(Some(Broken {
                at: copy_coord(&row.at),
                kind,
            }));
        }
    }
    Ok(None)
}
