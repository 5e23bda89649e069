//! What programs of tests bring to stores: disks in memory that tell contracts no bytes, steps that lines stand for, changes that texts are,
//! and answers in words.
#![tactic(auto)]

mod answers;
mod cells;
mod changes;
mod chunks;
mod costs;
mod holds;
mod quiet_disk;
mod silent_disk;
mod statements;
mod steps;
mod watch;

pub use answers::Answer;
pub use cells::{add_read, leaf_of, lines_of, named_leaf};
pub use changes::{Offer, change_over, offer_over};
pub use costs::push_costs;
pub use holds::Hold;
pub use quiet_disk::QuietDisk;
pub use silent_disk::SilentDisk;
pub use steps::{Step, count_of, pair_of, step_of};
pub use watch::Watch;
