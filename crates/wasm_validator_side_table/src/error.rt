//! Why a side table isn't made.

ghost use Rattle.std.specs.Prelude.{◌≡◌};
ghost use Rattle.wasm_validator_side_table.specs.Answers.{told};

use wasm_readers_errors::{Error, Refusal};

/// Why a side table isn't made.
#[derive(Debug, Drop)]
pub enum SideTableError {
    /// The body isn't valid.
    Refused(Refusal),
    /// Memory was refused, or the body has as many operands at once as 32 bits don't count.
    OutOfMemory,
    /// The body is valid, but the offset behind it has more than 32 bits.
    TooLarge,
}

/// The error of a validator.
pub(crate) fn of_validator(error: Error) -> SideTableError
    ensures { result ≡ told error }
{
    match error {
        Error::Refused(refusal) => SideTableError::Refused(refusal),
        Error::OutOfMemory => SideTableError::OutOfMemory,
    }
}
