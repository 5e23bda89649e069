//! What versions and whole stores hold, as texts.

mod reading;
mod versions;

pub(crate) use reading::cells;
pub(crate) use versions::whole;
