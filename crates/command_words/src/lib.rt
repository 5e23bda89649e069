//! The words of the command line, their forms, what the program says of itself, and the script that `generate` runs.
#![tactic(auto)]

mod script;
mod words;

pub use script::{script_of, worked_script};
pub use words::{
    Arg, Form, Printing, faults_are_unique, form_of, forms_are_unique, forms_keep_their_places,
    forms_keep_their_ranges, own_answer, worked_words,
};
