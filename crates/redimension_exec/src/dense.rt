//! Groups of what lands of a chunk, by the places of a grid of all coordinates at which cells may land.

mod chunks;
mod columns;
mod grids;
mod groups;
mod targets;

pub(crate) use chunks::groups_by_places;
