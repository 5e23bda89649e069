//! Changes of a database: when the stored arrays allow one, and what it makes of their names and of their cells.
#![tactic(auto)]

mod alike;
mod change;
mod laws;
mod lookups;
mod names;
mod others;

pub use alike::are_alike;
pub use change::{Change, changed_name, let_go_change};
pub use laws::{changes_keep_databases, changes_keep_names, names_depend_on_no_row};
pub use logical_plan::{NameEntry, Names};
pub use lookups::{
    entry_named, has_array, has_room, is_before, is_same, last_of, newest_of, next_of,
};
pub use names::{changed_names, from_number};
pub use others::{has_its_names, other_arrays_stay};
