//! Frames without margins.
ghost use Rattle.std.specs.Prelude.{◌≡◌, ◌+◌, ◌≤◌, ◌++◌, length};
ghost use Rattle.cell_values.specs.Schemas.{IsValid};
ghost use Rattle.area_cells.specs.Margins.{no_margins};

use cell_values::{Dimension, Margins, Schema};

fn push_none(margins: &mut Margins, dims: &[Dimension])
    requires { length margins.old.items + length dims.now ≤ 6 }
    ensures { margins.new.items ≡ margins.old.items ++ no_margins dims.now }
{
    match dims {
        [] => {}
        [_, dims @ ..] => {
            margins.push(0);
            push_none(margins, dims);
        }
    }
}

/// A margin of 0 for each dimension.
#[tactic(auto, using(array_geom::proofs::MarginLaws::few_dimensions))]
pub fn no_margins(target: &Schema) -> Margins
    requires { IsValid target.now }
    ensures { result.items ≡ no_margins target.now.dimensions }
{
    let mut margins = Margins::new();
    push_none(&mut margins, target.dimensions.as_slice());
    margins
}
