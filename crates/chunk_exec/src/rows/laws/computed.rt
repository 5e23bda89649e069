//! What the array that is computed of a plan tells of its meaning.

mod laws;

pub use laws::computed_plans_mean_arrays;
