//! Who works on pieces.

/// At most `workers` threads, and the gate that each of them passes in the name of a session before each piece. The pieces of one
/// statement count from 0: `pieces` is how many were handed out.
#[derive(Drop)]
pub struct Crew<'a, R, G> {
    pub rt: &'a R,
    pub workers: u32,
    pub session: u32,
    pub gate: &'a G,
    pub pieces: u64,
}
