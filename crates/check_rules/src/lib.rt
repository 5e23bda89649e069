//! Rules of checking: the first rule that is broken is the answer; operators by name, the rules of their arguments and schemas, and literals.
#![tactic(auto)]

mod literals;
mod operators;
mod rules;

pub use afl_trees::{BinaryOp, Node, Tree};
pub use literals::{literal_rows, literals_are_read};
pub use operators::{
    first_but_bounds, first_but_names, first_but_numbers, first_but_places, first_but_values,
    is_expression, new_place, number_in, of_new_schema, shape_of, wrong_type,
};
pub use rules::{
    Form, OneForm, Operator, TypeFault, broken, form_named, name_span, operator_named, same_name,
};
