//! Laws of plans over databases: what typed plans mean are arrays.

mod laws;

pub use laws::typed_plans_mean_arrays;
