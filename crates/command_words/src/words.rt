//! The words of the command line: the forms that they may have, where they leave them, and those that the program answers by itself.

mod arg;
mod forms;
mod help;
mod laws;
mod scripts;
mod settings;

pub use arg::Arg;
pub use forms::{Form, Printing, form_of};
pub use help::own_answer;
pub use laws::{
    faults_are_unique, forms_are_unique, forms_keep_their_places, forms_keep_their_ranges,
    worked_words,
};
