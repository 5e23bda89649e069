//! What is let go. That each can be let go is proved here once, and not again in each crate that calls this.

use chunk_exec::PlanArray;

/// Lets go what a plan gives.
pub fn let_go_array(found: PlanArray) {
    drop(found);
}
