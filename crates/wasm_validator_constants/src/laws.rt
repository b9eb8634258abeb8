//! Laws of constant expressions.

ghost use Rattle.std.specs.Prelude.{ℕ};
ghost use Rattle.wasm_spec.specs.MatchingTests.{World};
ghost use Rattle.wasm_typing_validator.specs.WasmSpecSteps.Bodies.{Surroundings};
ghost use Rattle.wasm_validator_constants.specs.Constants.{FindsConstants, ConstantsAreFound};

/// What is read and typed operator by operator, up to the end of the outermost frame, is a list of
/// instructions that a constant expression may have, and which are typed; and each such list is
/// found.
pub fn constants_are_lists_of_instructions<R>()
    ensures found { (W : World R) (B : Surroundings R) (imported : ℕ)
        → FindsConstants W B imported }
    ensures all { (W : World R) (B : Surroundings R) (imported : ℕ)
        → ConstantsAreFound W B imported }
{}
