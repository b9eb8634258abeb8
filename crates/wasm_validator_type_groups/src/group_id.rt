//! Ids of recursion groups.

ghost use Rattle.std.specs.Prelude.{◌≡◌};

/// The id of a recursion group in a list of types.
#[derive(Clone, Copy, PartialEq, Eq, PartialOrd, Ord, Hash, Debug)]
pub struct RecGroupId {
    index: u32,
}

impl RecGroupId {
    /// The id with this number.
    pub fn from_index(index: u32) -> RecGroupId
        ensures { result.index ≡ index }
    {
        RecGroupId { index }
    }

    /// The number of the id: its place in the list of groups.
    pub fn index(&self) -> usize
        ensures { result ≡ self.now.index }
    {
        self.index as usize
    }
}
