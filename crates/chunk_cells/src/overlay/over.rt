//! The cells of a chunk put over those of another.
ghost use Rattle.std.specs.Prelude.{◌≡◌, ℕ, ◌+◌, ◌<◌, ◌≤◌, ◌^◌, List as Items, [], ◌∷◌, ◌++◌, length, slice_index_or, OnOk, IfOk};
ghost use Rattle.cell_values.specs.declared.datum.Cell.TheVariants.{Full};
ghost use Rattle.cell_values.specs.declared.datum.Row.{Row};
ghost use Rattle.cell_values.specs.declared.schema.Schema.{Schema};
ghost use Rattle.array_rows.specs.Inner.CellsIn.{cells_in};
ghost use Rattle.array_rows.specs.Rows.{IsRising, put_all};
ghost use Rattle.array_geom.specs.Geometry.{HasFrame};
ghost use Rattle.array_geom.specs.Link.{IsPart};
ghost use Rattle.chunk_cells.specs.Inner.Over.{Goes, HasNext, HasRest};

use array_geom::Chunk;
use array_rows::{Cells, Form};
use cell_values::{Memory, copy_numbers};
use std::cmp::Ordering;

/// Adds the cell of these at an index: one of values takes no list of its own.
fn push_same(cells: &mut Cells, form: &Form, index: usize) -> Result<(), Memory>
    requires { index < length (cells_in form.now) }
    ensures { OnOk result (cells.new ≡ cells.old ++ slice_index_or (cells_in form.now) index (Full []) ∷ []) }
{
    match form {
        Form::Even(rows) => cells.push_row(rows, index),
        Form::Mixed(all) => cells.push(all[index].copy()?),
    }
}

/// Adds the cell at an index of a chunk.
fn push_cell(made: &mut Chunk, from: &Chunk, index: usize) -> Result<(), Memory>
    requires each { length from.now.cells ≡ length from.now.positions }
    requires inside { index < length from.now.positions }
    ensures { OnOk result (HasNext from.now index made.old made.new) }
{
    made.positions.push(from.positions[index])?;
    push_same(&mut made.cells, from.cells.form(), index)?;
    Ok(())
}

/// Adds the cells from an index on.
fn push_rest(made: &mut Chunk, from: &Chunk, start: usize) -> Result<(), Memory>
    requires each { length from.now.cells ≡ length from.now.positions }
    requires inside { start ≤ length from.now.positions }
    ensures { OnOk result (HasRest from.now start made.old made.new) }
{
    for index in start..from.positions.len() {
        push_cell(made, from, index)?;
    }
    Ok(())
}

/// Adds the next cell of the two, and says where they go on. Of two at one place the old one is left out.
fn put_next(
    made: &mut Chunk,
    new: &Chunk,
    at_new: usize,
    old: &Chunk,
    at_old: usize,
) -> Result<(usize, usize), Memory>
    requires new_each { length new.now.cells ≡ length new.now.positions }
    requires old_each { length old.now.cells ≡ length old.now.positions }
    requires new_inside { at_new < length new.now.positions }
    requires old_inside { at_old < length old.now.positions }
    requires new_few { length new.now.positions < 2 ^ 64 }
    requires old_few { length old.now.positions < 2 ^ 64 }
    ensures made { IfOk result (λ next. Goes new.now old.now made.old at_new at_old made.new next.0 next.1) }
    ensures new_inside { IfOk result (λ next. next.0 ≤ length new.now.positions) }
    ensures old_inside { IfOk result (λ next. next.1 ≤ length old.now.positions) }
    ensures further { IfOk result (λ next. at_new + at_old < next.0 + next.1) }
{
    match new.positions[at_new].cmp(&old.positions[at_old]) {
        Ordering::Less => {
            push_cell(made, new, at_new)?;
            Ok((at_new + 1, at_old))
        }
        Ordering::Greater => {
            push_cell(made, old, at_old)?;
            Ok((at_new, at_old + 1))
        }
        Ordering::Equal => Ok((at_new, at_old + 1)),
    }
}

/// At each place the new cell where there is one, else the old one.
pub fn put_over(old: &Chunk, new: &Chunk) -> Result<Chunk, Memory>
    requires number { new.now.at ≡ old.now.at }
    requires new_each { length new.now.cells ≡ length new.now.positions }
    requires old_each { length old.now.cells ≡ length old.now.positions }
    ensures number { IfOk result (λ made. made.at ≡ old.now.at) }
    ensures part { (schema : Schema) (margins : Items ℕ) (old_rows new_rows : Items Row)
        → HasFrame schema margins old.now.at.items → IsRising old_rows → IsRising new_rows
        → IsPart schema.dimensions margins old_rows old.now → IsPart schema.dimensions margins new_rows new.now
        → IfOk result (IsPart schema.dimensions margins (put_all new_rows old_rows)) }
{
    let mut made = Chunk {
        at: copy_numbers(&old.at),
        positions: old.positions.another(),
        cells: old.cells.another(),
    };
    let mut at_new = 0;
    let mut at_old = 0;
    'putting: while at_new < new.positions.len() && at_old < old.positions.len() {
        let (next_new, next_old) = put_next(&mut made, new, at_new, old, at_old)?;
        at_new = next_new;
        at_old = next_old;
    }
    push_rest(&mut made, new, at_new)?;
    push_rest(&mut made, old, at_old)?;
    Ok(made)
}
