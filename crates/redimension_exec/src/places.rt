//! Rows moved to coordinates that their values give.

mod counting;
mod filling;
mod landing;
mod numbers;
mod places;

pub(crate) use filling::{Target, fill_rows};
pub(crate) use numbers::first_numbers;
pub(crate) use places::{Place, places_of_attributes, places_of_dimensions};
