//! Open pins.

use plan_changes::Names;
use std::snapshot::Snapshot;

/// An open pin. What could be named when it began is kept for contracts alone.
#[derive(Drop)]
pub struct LeanPin {
    pub session: u32,
    /// The number of entries before it.
    pub place: u64,
    pub names: Snapshot<Names>,
}
