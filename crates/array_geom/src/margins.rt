//! The margins with which the chunks of a schema are stored.
ghost use Rattle.std.specs.Prelude.{◌≡◌, ◌+◌, ◌≤◌, ◌++◌, length};
ghost use Rattle.array_rows.specs.Schemas.{IsValid};
ghost use Rattle.array_geom.specs.Geometry.{overlaps};

use array_rows::{Dimension, Margins, Schema};

fn push_overlaps(margins: &mut Margins, dims: &[Dimension])
    requires { length margins.old.items + length dims.now ≤ 6 }
    ensures { margins.new.items ≡ margins.old.items ++ overlaps dims.now }
{
    match dims {
        [] => {}
        [d, dims @ ..] => {
            margins.push(d.overlap);
            push_overlaps(margins, dims);
        }
    }
}

/// The margins with which the chunks of a schema are stored: its overlaps.
#[tactic(auto, using(crate::proofs::MarginLaws::few_dimensions))]
pub fn margins_of(schema: &Schema) -> Margins
    requires { IsValid schema.now }
    ensures { result.items ≡ overlaps schema.now.dimensions }
{
    let mut margins = Margins::new();
    push_overlaps(&mut margins, schema.dimensions.as_slice());
    margins
}
