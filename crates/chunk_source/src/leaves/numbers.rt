//! Plans whose leaves are told apart by their numbers, and what of each leaf suffices.

mod laws;

pub use laws::{known_rows_suffice, numbered_plans_mean_the_same};
