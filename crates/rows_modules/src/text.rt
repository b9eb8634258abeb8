use std::alloc::AllocError;
use std::fmt::Display;

/// The first word of this text, and what is behind it.
pub fn split_word(text: &str) -> (&str, &str) {
    match text.split_once(' ') {
        Some(parts) => parts,
        None => (text, ""),
    }
}

/// Adds what this value prints, behind this text.
pub fn push_behind<D: Display + Drop>(
    text: &mut String,
    before: &str,
    value: D,
) -> Result<(), AllocError> {
    text.push_str(before)?;
    text.write(value)
}
