//! What a side table is made of.

/// One branch of a body. Offsets count from where those of the instructions do. Its fields
/// lie in memory as those of a `struct` of C do.
#[repr(C)]
#[derive(Clone, Copy, PartialEq, Eq, Debug)]
pub struct Entry {
    /// The offset of the instruction that branches.
    pub at: u32,
    /// The offset of the instruction to go on with: to the label of a loop, that behind `loop` and
    /// its type; to that of another block, behind its `end` or `delegate`; to that of the body
    /// itself, behind the body, where there is no instruction: the function returns with the
    /// operands that are kept.
    pub target: u32,
    /// How many entries come before that instruction: where to go on in the table. To the label of
    /// the body itself it is the number of all entries.
    pub next: u32,
    /// How many operands are kept, from the top, without a condition, an index, a null or a
    /// descriptor that the branch takes first. A clause of a `try_table` keeps what it gives to its
    /// label, and so does a handler of a `resume`.
    pub kept: u32,
    /// How many operands below these are dropped: of a clause of a `try_table` of those below its
    /// parameters, and of a handler of a `resume` of those below what that takes.
    pub dropped: u32,
}

/// A place in a body and in its table: an offset, and how many entries come before.
#[derive(Clone, Copy, PartialEq, Eq, Debug)]
pub struct Place {
    pub offset: u32,
    pub next: u32,
}

/// A block that is open while a table is made. Its two places have these numbers: where a branch to
/// its label goes, and where an `if` goes on that isn't taken, until its `else` was passed.
#[derive(Clone, Copy, PartialEq, Eq, Debug)]
pub struct OpenBlock {
    pub label: u32,
    pub other: u32,
    pub is_loop: bool,
}
