//! Declarative typing of instructions: the rules of the WebAssembly Core Specification 3.0
//! (Validation, Instructions) on structured code, and that the machine accepts what they type.
#![tactic(auto)]

ghost use Rattle.wasm_spec_instructions.specs.Names.{InstructionsHaveTheirRules};
ghost use Rattle.wasm_spec_instructions.specs.FixedShapes.{FixedTypesHaveTheirRules};
ghost use Rattle.wasm_spec_instructions.specs.Consequences.{ScopesMayGrow, SequencesCompose, TypedCodeIsProper, ResultsArePrincipal};
ghost use Rattle.wasm_spec_instructions.specs.Laws.{AcceptedCodeIsWithoutLegacy, Soundness, SoundnessWithoutSharing, Completeness, CodeIsUnique, WorldsAreInOrder, AcceptedWorldsAreInOrder};

/// What the rules type, the machine accepts.
pub fn algorithm_is_complete<R>()
    ensures { Completeness R }
{}

/// Where legacy exceptions are off, the machine accepts no operator of theirs.
#[tactic(auto, using(crate::proofs::MainTheorems::accepted_code_is_without_legacy))]
pub fn accepted_code_is_without_legacy<R>()
    ensures { AcceptedCodeIsWithoutLegacy R }
{}

/// What the machine accepts, the rules type: code without conversions of references, or else
/// without branches by a table.
#[tactic(auto, using(crate::proofs::MainTheorems::soundness))]
pub fn algorithm_is_sound<R>()
    ensures { Soundness R }
{}

/// Where nothing is shared, whatever the machine accepts, the rules type.
#[tactic(auto, using(crate::proofs::MainTheorems::soundness_without_sharing))]
pub fn algorithm_is_sound_without_sharing<R>()
    ensures { SoundnessWithoutSharing R }
{}

/// A flat list of instructions is written for one structured code at most.
#[tactic(auto, using(crate::proofs::CodeUniqueness::code_is_unique))]
pub fn code_is_unique()
    ensures { CodeIsUnique }
{}

/// Matching is an order in each world whose tests are right, where supertypes keep their kind and
/// shared flag.
#[tactic(auto, using(crate::proofs::Orders::worlds_are_in_order))]
pub fn worlds_are_in_order<R>()
    ensures { WorldsAreInOrder R }
{}

/// Read for single instructions, the rules of shapes are the standard's.
#[tactic(auto, using(crate::proofs::Names::instructions_have_their_rules))]
pub fn instructions_have_their_rules<R>()
    ensures { InstructionsHaveTheirRules R }
{}

/// So are those of instructions whose types the context fixes.
#[tactic(auto, using(crate::proofs::FixedTypeRules::fixed_types_have_their_rules))]
pub fn fixed_types_have_their_rules<R>()
    ensures { FixedTypesHaveTheirRules R }
{}

/// In a world of accepted types matching is an order, and without shared types nothing is shared.
pub fn accepted_worlds_are_in_order<R>()
    ensures { AcceptedWorldsAreInOrder R }
{}

/// What is typed in a scope is typed in each with more labels, results and locals that are set.
#[tactic(auto, using(crate::proofs::ScopeGrowth::scopes_may_grow))]
pub fn scopes_may_grow<R>()
    ensures { ScopesMayGrow R }
{}

/// The rule of sequences holds of any code in place of the first instruction.
#[tactic(auto, using(crate::proofs::Composition::sequences_compose))]
pub fn sequences_compose<R>()
    ensures { SequencesCompose R }
{}

/// Code that is typed is proper.
#[tactic(auto, using(crate::proofs::ScopeGrowth::typed_code_is_proper))]
pub fn typed_code_is_proper<R>()
    ensures { TypedCodeIsProper R }
{}

/// Where nothing is shared, the types that code gives from some are determined up to subsumption.
#[tactic(auto, using(crate::proofs::PrincipalTypes::results_are_principal))]
pub fn results_are_principal<R>()
    ensures { ResultsArePrincipal R }
{}
