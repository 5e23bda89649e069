//! What the rules of several operators share: the sorts of arguments, and the rules of new schemas.

mod in_turn;
mod new_schema;
mod sort;

pub use in_turn::new_place;
pub use new_schema::{of_new_schema, shape_of};
pub use sort::{
    first_but_bounds, first_but_names, first_but_numbers, first_but_places, first_but_values,
    is_expression, number_in, wrong_type,
};
