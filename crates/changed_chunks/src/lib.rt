//! The chunks that a change writes, and the lines that tell how many stored chunks a plan asks for.
#![tactic(auto)]

mod chunks;
mod letting;
mod traces;

pub use array_geom::let_go_changed;
pub use chunks::changed;
pub use letting::let_go_array;
pub use traces::{Asking, count_chunks, plan_lines, write_line};
