//! The words of lines.

/// The first word of a text, and what stands behind it.
pub(crate) fn front_of(text: &str) -> (&str, &str) {
    text.split_once(' ').unwrap_or((text, ""))
}
