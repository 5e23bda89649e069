//! What the meaning of a plan depends on.

mod laws;

pub use laws::meaning_reads_leaves;
