//! The functions of a module that count as referenced: those that its exports, its element segments
//! and its constant expressions name (Core Specification 3.0, Validation, Modules). They are noted
//! where they are read and checked; laws join what is noted so to the set of a whole module.
#![tactic(auto)]

ghost use Rattle.wasm_validator_references.specs.NamedFunctions.{NumbersNameNoFunctions, PiecesNameWhatIsReferenced};

mod flags;
mod laws;
mod notes;

pub use flags::ReferencedFunctions;
pub use laws::marked_flags_say_names;
pub use notes::{NoNotes, NotesFunctions};

/// A constant expression that gives an address names no functions: once a reference is among its
/// operands, one always is.
pub fn numbers_name_no_functions<R>()
    ensures names { NumbersNameNoFunctions R }
{}

/// The functions that the pieces of a module name, in however many sections, are those that count as
/// referenced.
pub fn pieces_name_what_is_referenced()
    ensures names { PiecesNameWhatIsReferenced }
{}
