//! The texts that statements are answered with.
#![tactic(auto)]

mod array;
mod kinds;
mod lines;
mod listings;
mod records;
mod refusal;
mod spelling;

pub use array::{dcsv, push_lines, text_header};
pub use lines::refusal_line;
pub use listings::{list_text, ok_line, show_text, stored_line, versions_text};
pub use records::{csv_plus, name_record, push_records};
pub use refusal::Refusal;
pub use spelling::{write_text, write_values};
