//! What is let go. That each can be let go is proved here once, and not again in each crate that calls this.

use crate::LeanReady;
use event_core::{let_go_core, let_go_ready, let_go_seen};

/// Lets a commit go that was made ready.
pub fn let_go_lean_ready(commit: LeanReady) {
    let LeanReady { lean, ready, part } = commit;
    let_go_seen(lean);
    let_go_ready(ready);
    let_go_core(part);
}
