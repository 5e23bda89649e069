//! The options of sessions.

use statement_replies::Style;

/// What holds of all statements of a session.
#[derive(Clone, Copy)]
pub struct Options {
    /// How many threads compute a statement: 1 to 64.
    pub workers: u32,
    /// How replies are printed.
    pub style: Style,
}
