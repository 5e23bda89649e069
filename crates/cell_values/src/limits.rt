//! The limits of what the database takes: each is said here once.

/// How many places the frame of a chunk may have: its core and its margins.
pub const MAX_FRAME: u64 = 281474976710656;

/// The greatest bound of a dimension. The least is its negative.
pub const MAX_BOUND: u64 = 4611686018427387903;

/// How many bytes a text may have.
pub const MAX_TEXT: usize = 65535;

/// How many bytes a statement may have.
pub const MAX_STATEMENT: usize = 1048576;

/// How many dimensions an array may have.
pub const MAX_DIMENSIONS: usize = 6;

/// How many attributes an array may have.
pub const MAX_ATTRIBUTES: usize = 64;

/// How many bytes a name may have.
pub const MAX_NAME: usize = 64;
