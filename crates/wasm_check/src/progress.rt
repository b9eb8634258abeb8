//! How far a call has come.

/// Shows how far a call has come, to whom it may matter. Nothing rests on it, so no contract says what is
/// shown.
pub trait Progress {
    /// Shows that so many of all files were checked.
    fn show(&mut self, done: usize, all: usize);
}
