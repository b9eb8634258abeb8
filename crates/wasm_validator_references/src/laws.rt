//! Laws of the definitions.

ghost use Rattle.wasm_validator_references.specs.Marks.{MarkedFlagsSayNames};

/// A flag is set behind the marking of some functions where the function is one of them, or where
/// it was set before.
#[tactic(auto, using(crate::proofs::Marks::flags_say_names))]
pub fn marked_flags_say_names()
    ensures say { MarkedFlagsSayNames }
{}
