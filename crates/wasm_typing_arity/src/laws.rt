//! Laws of the definitions.

ghost use Rattle.wasm_typing_arity.specs.Lengths.{CountsAreLengths};

/// A list of types that validation finds has as many types as are counted.
#[tactic(auto, using(crate::proofs::CountsAsLengths::lengths))]
pub fn counts_are_lengths()
    ensures { CountsAreLengths }
{}
