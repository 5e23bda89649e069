//! The values of further expressions.
ghost use Rattle.std.specs.Prelude.{◌≡◌, ◌≤◌, ◌++◌, ◌<◌, List as Items, length, map, take, OnOk, IfOk, IfSome};
ghost use Rattle.std.specs.List.{AllByRecursion};
ghost use Rattle.array_rows.specs.Boxes.{by_pairs};
ghost use Rattle.cell_values.specs.declared.datum.Row.{Row};
ghost use Rattle.array_geom.specs.Geometry.{HasFrame, volume};
ghost use Rattle.array_geom.specs.Inner.Ranges.{IsGrid};
ghost use Rattle.array_geom.specs.Link.{IsPart};
ghost use Rattle.expr_nulls.specs.ExprValue.{value_of};
ghost use Rattle.logical_plan.specs.CellOps.{apply_cell, apply_rows};
ghost use Rattle.array_parts.specs.Made.{IsPlaced, IsMadeBy};
ghost use Rattle.exec_cellwise.specs.Inner.Computed.{applied_at};

use crate::chunks::computing::applied_rows;
use array_geom::{Chunk, grid_of};
use array_parts::{CellChange, Quick, change_chunk};
use array_rows::{Cells, Form, Rows};
use cell_values::{Cell, Coord, Datum, List, Margins, Memory, Schema};
use expr_nulls::{TypedExpr, eval};
use logical_plan::Applied;

/// Expressions whose values come after those of the cell, with the names of their attributes.
#[derive(Drop)]
struct Apply<'a> {
    values: &'a [Applied],
}

/// The value of an expression over the first values of a list.
fn value_over(
    expr: &TypedExpr,
    at: &Coord,
    values: &List<Datum>,
    count: usize,
) -> Result<Datum, Memory>
    requires { count ≤ length values.now }
    ensures { IfOk result (λ value. value ≡ value_of expr.now at.now.items (take count values.now)) }
{
    eval(values.allocator(), expr, at, &values.as_slice()[..count])
}

fn push_applied(values: &mut List<Datum>, at: &Coord, more: &[Applied]) -> Result<(), Memory>
    ensures { OnOk result (values.new ≡ values.old ++ map (λ applied. value_of applied.value at.now.items values.old) more.now) }
{
    let count = values.len();
    for applied in more {
        let value = value_over(&applied.value, at, values, count)?;
        values.push(value)?;
    }
    Ok(())
}

impl CellChange for Apply<'_> {
    ghost changed = { λ apply. apply_cell apply.values.now };

    fn change(&self, at: &Coord, cell: Cell) -> Result<Option<Cell>, Memory> {
        match cell {
            Cell::Full(mut values) => {
                push_applied(&mut values, at, self.values)?;
                Ok(Some(Cell::Full(values)))
            }
            Cell::Doubt(kind) => Ok(Some(Cell::Doubt(kind))),
        }
    }

    fn quick(&self, _rows: &Rows, _k: usize) -> Quick {
        Quick::Unknown
    }
}

/// Each cell of a chunk with the applied values after its own. No cell is copied.
pub fn apply_chunk(
    schema: &Schema,
    margins: &Margins,
    chunk: Chunk,
    values: &[Applied],
) -> Result<Chunk, Memory>
    requires framed { HasFrame schema.now margins.now.items chunk.at.items }
    requires placed { IsPlaced schema.now.dimensions margins.now.items chunk }
    ensures made { IfOk result (IsMadeBy (apply_rows values.now) schema.now.dimensions margins.now.items chunk) }
    ensures part { (rows : Items Row) → IsPart schema.now.dimensions margins.now.items rows chunk
        → IfOk result (IsPart schema.now.dimensions margins.now.items (apply_rows values.now rows)) }
{
    let grid = grid_of(schema, margins, &chunk.at);
    let Chunk {
        at,
        positions,
        cells,
    } = chunk;
    let alloc = positions.allocator();
    match cells.into_form() {
        Form::Even(rows) => match applied_rows(alloc, values, &grid, positions.as_slice(), rows) {
            Ok(cells) => Ok(Chunk {
                at,
                positions,
                cells,
            }),
            Err(Memory) => Err(Memory),
        },
        Form::Mixed(cells) => {
            let mixed = Chunk {
                at,
                positions,
                cells: Cells::from_form(alloc, Form::Mixed(cells)),
            };
            change_chunk(schema, margins, mixed, &Apply { values })
        }
    }
}
