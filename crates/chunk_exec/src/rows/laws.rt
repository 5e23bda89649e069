//! Laws of what is computed: what typed plans mean are arrays.

mod computed;
mod plans;

pub use computed::computed_plans_mean_arrays;
pub use plans::typed_plans_mean_arrays;
