//! Why a fast step isn't taken.

/// Why a fast step isn't taken. Nothing has changed then.
#[derive(Clone, Copy, PartialEq, Eq, Debug)]
pub enum NotTaken {
    /// The operator is left to the general way, which goes on from the same place.
    Left,
    /// A stack's growth was refused its memory.
    OutOfMemory,
}
