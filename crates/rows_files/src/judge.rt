//! What judges a row, and what it can say.

use std::alloc::{AllocError, AllocFailed, Global};

/// Why nothing can be said of a row.
#[derive(Clone, Copy)]
pub enum Trouble {
    OutOfMemory,
    /// The row isn't one, for this reason.
    Malformed(&'static str),
}

impl From<AllocError> for Trouble {
    fn from(_: AllocError) -> Trouble {
        Trouble::OutOfMemory
    }
}

impl<T: Drop> From<AllocFailed<T>> for Trouble {
    fn from(_: AllocFailed<T>) -> Trouble {
        Trouble::OutOfMemory
    }
}

impl Trouble {
    pub fn text(self) -> &'static str {
        match self {
            Trouble::OutOfMemory => "out of memory",
            Trouble::Malformed(text) => text,
        }
    }
}

/// An answer that isn't right: not the wanted one, or the one that must not be given.
#[derive(Drop)]
pub struct Difference<'a> {
    pub wanted: &'a str,
    pub given: String,
}

/// What stands before an answer that must not be given.
pub const NOT: &str = "not ";

/// Takes what stands before the next bar from the rest of a row. Without a bar the row isn't one, for
/// this reason.
pub fn take_part<'a>(rest: &mut &'a str, why: &'static str) -> Result<&'a str, Trouble> {
    match rest.split_once(" | ") {
        Some((part, behind)) => {
            *rest = behind;
            Ok(part)
        }
        None => Err(Trouble::Malformed(why)),
    }
}

/// What judges rows.
pub trait Judge {
    /// What messages about its rows begin with.
    fn name(&self) -> &'static str;

    /// The answer to the row that this line is, where it isn't right.
    fn judge<'a>(&self, alloc: Global, line: &'a str) -> Result<Option<Difference<'a>>, Trouble>;
}

/// Judges rows each of which the other judge has to find wrong: here it is right where it differs
/// there.
#[derive(Drop)]
pub struct WrongRows<'a, J: Judge> {
    pub judge: &'a J,
}

impl<J: Judge> Judge for WrongRows<'_, J> {
    fn name(&self) -> &'static str {
        self.judge.name()
    }

    fn judge<'a>(&self, alloc: Global, line: &'a str) -> Result<Option<Difference<'a>>, Trouble> {
        match self.judge.judge(alloc, line)? {
            Some(_) => Ok(None),
            None => Ok(Some(Difference {
                wanted: "a row that is judged wrong",
                given: String::from_str(alloc, "judged right")?,
            })),
        }
    }
}
