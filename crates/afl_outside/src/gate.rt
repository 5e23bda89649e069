//! Where a session and a worker may be held.

/// A place that a session or a worker passes.
#[derive(Clone, Copy)]
pub enum Point {
    /// Before the pin of the statement of this number, which counts from 0 in each script.
    Statement(u64),
    /// After that statement's pin, and before its first chunk is read.
    Pinned(u64),
    /// After that statement's result is computed, and before the turn of its commit.
    Computed(u64),
    /// Before the chunk of this number, which counts from 0 in each execution in the order in which the caller hands the
    /// pieces out.
    Chunk(u64),
}

/// What a session and its workers pass, and where it may hold them.
pub trait Gate: Sync {
    fn pass(&self, session: u32, point: Point);
}

/// Holds nobody.
#[derive(Clone, Copy)]
pub struct OpenGate;

impl Gate for OpenGate {
    fn pass(&self, session: u32, point: Point) {
        let _ = (session, point);
    }
}
