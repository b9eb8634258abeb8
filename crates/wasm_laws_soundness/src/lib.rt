//! What follows from the typing rules of the WebAssembly Core Specification 3.0 (Validation,
//! Instructions): bodies, constant expressions and modules are valid exactly where the rules type their
//! instructions, and code that they type is never stuck, for any number of steps (Appendix, Type
//! Soundness). Values, states and outcomes of code, and when they fit what typing promises, are defined
//! here too (Execution, Runtime Structure).
#![tactic(auto)]

ghost use Rattle.wasm_laws_soundness.specs.Example.{ExampleWorks};
ghost use Rattle.wasm_laws_soundness.specs.Frames.{NoRunReadsBelow};
ghost use Rattle.wasm_laws_soundness.specs.Heights.{FunctionsHaveTheirHeights, HeightsAreAsSeen, RunsComeToTheEnd, ValidModulesHaveTheirHeights};
ghost use Rattle.wasm_laws_soundness.specs.Laws.{FunctionsAreSound, HeightsAreAsTyped, NeverStuck, Soundness};
ghost use Rattle.wasm_laws_soundness.specs.Modules.{ValidModulesNeverGetStuck};
ghost use Rattle.wasm_laws_soundness.specs.TypingLaws.{BodiesAreTyped, ConstantsAreTyped, ModulesAreTyped};
ghost use Rattle.wasm_laws_soundness.specs.ValueLaws.{ValuesHaveGreaterTypes, ValuesKeepTheirTypes};

/// A body that the rules type is accepted, and where nothing is shared the rules type each body that
/// is.
#[tactic(auto, using(crate::proofs::BodiesByRules::bodies_are_typed))]
pub fn bodies_are_typed<R>()
    ensures { BodiesAreTyped R }
{}

/// A constant expression is accepted exactly where the rules type it.
pub fn constants_are_typed<R>()
    ensures { ConstantsAreTyped R }
{}

/// A module whose constant expressions and bodies the rules type is valid, and without shared types
/// the other way round.
pub fn modules_are_typed()
    ensures { ModulesAreTyped }
{}

/// Values of some types are of each greater types.
#[tactic(auto, using(crate::proofs::Values::have_greater_types))]
pub fn values_have_greater_types<R>()
    ensures { ValuesHaveGreaterTypes R }
{}

/// They are of the same types in each store that has grown.
#[tactic(auto, using(crate::proofs::Values::keep_their_types))]
pub fn values_keep_their_types<R>()
    ensures { ValuesKeepTheirTypes R }
{}

/// Whatever the rules type runs, for every number of steps, to an outcome that its typing promises.
#[tactic(auto, using(crate::proofs::SoundnessTheorem::soundness))]
pub fn typed_code_is_sound<R>()
    ensures { Soundness R }
{}

/// So it is never stuck.
pub fn typed_code_is_never_stuck<R>()
    ensures { NeverStuck R }
{}

/// A function of a store that fits, called with arguments of its types, gives results of its types
/// or leaves as it may.
#[tactic(auto, using(crate::proofs::SoundnessTheorem::functions_are_sound))]
pub fn functions_are_sound<R>()
    ensures { FunctionsAreSound R }
{}

/// Code that falls through leaves as many operands as its typing says.
#[tactic(auto, using(crate::proofs::SoundnessTheorem::heights_are_as_typed))]
pub fn heights_are_as_typed<R>()
    ensures { HeightsAreAsTyped R }
{}

/// Wherever a run of typed code comes, it has as many operands as the validator saw there, below
/// the innermost block and in it, and the validator doesn't regard what follows as unreachable.
#[tactic(auto, using(crate::proofs::Heights::heights_are_as_seen))]
pub fn heights_are_as_seen<R>()
    ensures { HeightsAreAsSeen R }
{}

/// So it is in each function of a store that fits, called with arguments of its types.
#[tactic(auto, using(crate::proofs::HeightsInModules::functions_have_their_heights))]
pub fn functions_have_their_heights<R>()
    ensures { FunctionsHaveTheirHeights R }
{}

/// Where code falls through, its run has come to its end.
#[tactic(auto, using(crate::proofs::Heights::runs_come_to_the_end))]
pub fn runs_come_to_the_end<R>()
    ensures { RunsComeToTheEnd R }
{}

/// With other operands below, code and functions do the same: no run reads an operand below its
/// frame.
#[tactic(auto, using(crate::proofs::Frames::no_run_reads_below))]
pub fn no_run_reads_below<R>()
    ensures { NoRunReadsBelow R }
{}

/// There are such primitives and stores: a small engine, and in it the factorial of five is 120.
pub fn example_works()
    ensures { ExampleWorks }
{}

/// No function of an instance of a valid module is ever stuck, where shared types are off.
pub fn valid_modules_never_get_stuck()
    ensures { ValidModulesNeverGetStuck }
{}

/// Wherever a run of a body of a valid module comes, it has as many operands as the validator saw
/// there, where shared types are off.
pub fn valid_modules_have_their_heights()
    ensures { ValidModulesHaveTheirHeights }
{}
