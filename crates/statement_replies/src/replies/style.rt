//! How replies are printed.

/// How replies are printed.
#[derive(Clone, Copy)]
pub struct Style {
    /// An array is printed as CSV.
    pub csv: bool,
    /// Behind a reply stands a line for each array that was read.
    pub trace: bool,
}
