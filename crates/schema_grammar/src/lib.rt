//! Schemas: their grammar, their rules and their printed form.
#![tactic(auto)]

pub mod kinds;
mod printer;
mod reader;
pub mod rules;
pub mod shape_text;
pub mod shapes;
pub mod state;

pub use kinds::{SchemaFault, TypeKind};
pub use printer::{print_shape, schema_text};
pub use reader::read_shape;
pub use rules::meaning;
pub use shape_text::{AttrText, DimText, SchemaText};
pub use shapes::{ShapeFault, shape};
pub use state::{ShapeState, ShapeStep};
