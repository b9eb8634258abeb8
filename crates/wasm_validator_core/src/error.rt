ghost use Rattle.std.specs.Prelude.{◌≡◌};

use std::alloc::{AllocError, AllocFailed, Allocator, Global};
use std::fmt;
use std::string::String;
use wasm_readers::{Fault, Refusal, WasmFeatures};

/// Why a module is refused: for its content, or for want of memory.
#[derive(Drop)]
#[derive_where(Debug)]
pub enum Error<A: Allocator = Global> {
    /// The content is refused: by which rule, at which offset, and for want of which proposal, if
    /// one would lift the refusal.
    Refused(Refusal),
    /// The module exports two items under this name, which may hold any UTF-8, also line breaks and
    /// escape codes. The offset is that of the second one.
    DuplicateExport { name: String<A>, offset: u64 },
    /// The body of the function with this index is refused. The index counts imported functions,
    /// which come first.
    InFunction { index: u32, refusal: Refusal },
    /// Memory was refused. Nothing is said of the content.
    OutOfMemory,
}

impl<A: Allocator> Error<A> {
    ghost use Rattle.std.specs.Prelude.{IsTrue, ◌↔◌};
    ghost use Rattle.wasm_validator_core.specs.Errors.{IsMemory, IsContent, offset_of, missing_of, function_of, lifted_in};

    /// A refusal that no proposal lifts.
    pub fn new(fault: Fault, offset: u64) -> Error<A>
        ensures content { IsContent result }
        ensures refusal { result ≡ Error.Refused (record
            { fault = fault; offset = offset; missing = None }) }
    {
        Error::Refused(Refusal::new(fault, offset))
    }

    /// Whether memory was refused, and nothing is said of the content.
    pub fn is_out_of_memory(&self) -> bool
        ensures { IsTrue result ↔ IsMemory self.now }
    {
        matches!(self, Error::OutOfMemory)
    }

    /// The offset from the start of the input, and 0 where memory was refused.
    pub fn offset(&self) -> u64
        ensures { result ≡ offset_of self.now }
    {
        match self {
            Error::Refused(refusal) => refusal.offset,
            Error::DuplicateExport { name: _, offset } => *offset,
            Error::InFunction { index: _, refusal } => refusal.offset,
            Error::OutOfMemory => 0,
        }
    }

    /// The proposal without which the content is refused, if it is one.
    pub fn missing_features(&self) -> Option<WasmFeatures>
        ensures { result ≡ missing_of self.now }
    {
        match self {
            Error::Refused(refusal) => refusal.missing,
            Error::DuplicateExport { name: _, offset: _ } => None,
            Error::InFunction { index: _, refusal } => refusal.missing,
            Error::OutOfMemory => None,
        }
    }

    /// The error of a body, of the function with this index.
    pub fn in_function(index: u32, error: wasm_readers::Error) -> Error<A>
        ensures { result ≡ lifted_in index error }
    {
        match error {
            wasm_readers::Error::Refused(refusal) => Error::InFunction { index, refusal },
            wasm_readers::Error::OutOfMemory => Error::OutOfMemory,
        }
    }

    /// The index of the function whose body is refused, where it is a body: functions that are
    /// imported are counted.
    pub fn function(&self) -> Option<u32>
        ensures { result ≡ function_of self.now }
    {
        match self {
            Error::Refused(_) => None,
            Error::DuplicateExport { name: _, offset: _ } => None,
            Error::InFunction { index, refusal: _ } => Some(*index),
            Error::OutOfMemory => None,
        }
    }

    /// The message, which prints without the offset. A text is printed and never stored, so that
    /// this is the error itself.
    pub fn message(&self) -> &Error<A>
        ensures { result.now ≡ self.now }
    {
        self
    }
}

/// The message alone, without the offset. A name in it is printed as the module has it, with line
/// breaks and escape codes: a caller that prints it on a terminal or into a log escapes them.
impl<A: Allocator> fmt::Display for Error<A> {
    fn fmt<W: fmt::Write>(&self, f: &mut fmt::Formatter<W>) -> fmt::Result {
        match self {
            Error::Refused(refusal) => {
                let fault = refusal.fault;
                write!(f, "{fault}")
            }
            Error::DuplicateExport { name, offset: _ } => {
                write!(f, "duplicate export name `{name}` already defined")
            }
            Error::InFunction { index: _, refusal } => {
                let fault = refusal.fault;
                write!(f, "{fault}")
            }
            Error::OutOfMemory => f.write_str("out of memory"),
        }
    }
}

impl<A: Allocator> std::error::Error for Error<A> {}

impl<A: Allocator> From<Refusal> for Error<A> {
    ghost use Rattle.wasm_validator_core.specs.declared.error.Error.TheVariants.{Refused};

    ghost from_gives = { λ r e. e ≡ Refused r };

    fn from(refusal: Refusal) -> Error<A> {
        Error::Refused(refusal)
    }
}

impl<A: Allocator> From<wasm_readers::Error> for Error<A> {
    ghost use Rattle.wasm_validator_core.specs.Errors.{lifted};

    ghost from_gives = { λ r e. e ≡ lifted r };

    fn from(error: wasm_readers::Error) -> Error<A> {
        match error {
            wasm_readers::Error::Refused(refusal) => Error::Refused(refusal),
            wasm_readers::Error::OutOfMemory => Error::OutOfMemory,
        }
    }
}

impl<A: Allocator> From<AllocError> for Error<A> {
    ghost use Rattle.wasm_validator_core.specs.declared.error.Error.TheVariants.{OutOfMemory};

    ghost from_gives = { λ _ e. e ≡ OutOfMemory };

    fn from(_error: AllocError) -> Error<A> {
        Error::OutOfMemory
    }
}

impl<T: Drop, A: Allocator> From<AllocFailed<T>> for Error<A> {
    ghost use Rattle.wasm_validator_core.specs.declared.error.Error.TheVariants.{OutOfMemory};

    ghost from_gives = { λ _ e. e ≡ OutOfMemory };

    fn from(_error: AllocFailed<T>) -> Error<A> {
        Error::OutOfMemory
    }
}
