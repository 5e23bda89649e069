//! The slots of a file.
ghost use Rattle.std.specs.Prelude.{◌≡◌};
ghost use Rattle.page_chain.specs.Places.{gate_of, body_of, other};

/// One of the two root slots of page 0.
#[derive(Clone, Copy)]
pub enum Side {
    A,
    B,
}

/// In which format a root slot is open. A file of format 1 has no log.
#[derive(Clone, Copy)]
pub enum Format {
    One,
    Two,
}

/// What a commit opens: a root slot, or the entry of this number in the log.
#[derive(Clone, Copy)]
pub enum Slot {
    A,
    B,
    Log(u32),
}

impl Side {
    /// Where the slot's gate stands.
    pub fn gate(self) -> usize
        ensures { result ≡ gate_of self }
    {
        match self {
            Side::A => 512,
            Side::B => 1024,
        }
    }

    /// Where the slot's body begins.
    pub fn body(self) -> usize
        ensures { result ≡ body_of self }
    {
        match self {
            Side::A => 520,
            Side::B => 1032,
        }
    }

    /// The other root slot.
    pub fn other(self) -> Side
        ensures { result ≡ other self }
    {
        match self {
            Side::A => Side::B,
            Side::B => Side::A,
        }
    }
}
