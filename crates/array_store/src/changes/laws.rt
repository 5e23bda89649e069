//! What later entries of a history leave as it was: the arrays that none of their commits is about, and the changes that read no
//! others.

mod laws;

pub use laws::{fresh_changes_stay, left_arrays_stay};
