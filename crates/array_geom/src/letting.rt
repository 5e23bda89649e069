//! What is let go. That it can be let go is proved here once, and not again in each crate that calls this.

use crate::Changed;

/// Lets the chunks of a change go.
pub fn let_go_changed(changed: Option<Changed>) {
    drop(changed);
}
