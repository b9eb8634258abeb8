//! Why there is no answer.

/// Why there is no answer.
#[derive(Clone, Copy, Debug, PartialEq, Eq)]
pub enum NotFound {
    /// The bytes aren't divided into sections as a module is (Core Specification 3.0, Binary Format,
    /// Modules).
    NoModule,
    /// The module gives the function no name that can be read.
    NoName,
    /// Memory for the answer was refused.
    OutOfMemory,
}
