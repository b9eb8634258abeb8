//! Laws of function bodies.

ghost use Rattle.wasm_spec.specs.MatchingTests.{World};
ghost use Rattle.wasm_spec_steps.specs.Bodies.{Surroundings};
ghost use Rattle.wasm_validator_func.specs.Bodies.{FindsBodies, BodiesAreFound};

/// What is read and typed declaration by declaration and operator by operator is a list of
/// declarations and then instructions that are typed with the locals declared, and nothing more;
/// and each such body is found.
pub fn bodies_are_declarations_and_instructions<R>()
    ensures found { (W : World R) (B : Surroundings R) → FindsBodies W B }
    ensures all { (W : World R) (B : Surroundings R) → BodiesAreFound W B }
{}
