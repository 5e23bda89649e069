//! Where a commit stopped.

/// The stage at which a commit failed.
#[derive(Clone, Copy)]
pub enum Stopped {
    /// The slot wasn't closed for sure, and nothing of the commit was written: what an earlier commit left open may still be open.
    Closing,
    /// The slot is closed, and wasn't opened since: the file opens as before.
    Filling,
    /// All is written, and the slot may stand open: the file opens as before or has what is new.
    Opening,
}
