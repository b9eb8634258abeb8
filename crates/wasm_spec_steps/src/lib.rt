//! Steps of validation: what each operator does to the operands and the frames of a body or a
//! constant expression, as definitions over any kind of identity of types (Core Specification 3.0,
//! Validation, Instructions, and Appendix, Validation Algorithm).
#![tactic(auto)]

ghost use Rattle.wasm_spec_steps.specs.Laws.{LegacyNeedsFeatures, StepsRename, OperatorsAreOptIn, ClausesAreLimited, NumericShapesByOpcode, VerdictsRename, ConstantsGiveReferences, WorldsAreRight};
ghost use Rattle.wasm_spec_steps.specs.ServedInstructions.{UnservedTakeNone};
ghost use Rattle.wasm_spec_steps.specs.LegacyExamples.{Tries, NoTries, TriesNeedFeatures};
ghost use Rattle.wasm_spec_steps.specs.StackLaws.{ListsAreTakenInTurn, TakingKeepsFrames, TypesAreTakenInTurn, UnreachedCodeTakesAnything, EqualTypesMatch, EqualTypesMatchInContexts, ActionsAreRunInTurn};
ghost use Rattle.wasm_spec_steps.specs.ControlExamples.{Blocks, NoBlocks, Branches, NoBranches, Calls, NoCalls, Exceptions, NoExceptions, Parametrics, NoParametrics, Variables, NoVariables, ControlNeedsFeatures, Constants, NoConstants, ConstantInstructions, NoConstantInstructions};
ghost use Rattle.wasm_spec_steps.specs.HeapExamples.{Memories, NoMemories, Tables, NoTables, References, NoReferences, Casts, NoCasts, Conversions, NoConversions, Structures, NoStructures, Arrays, NoArrays, Copies, NoCopies, Descriptors, NoDescriptors, Continuations, NoContinuations, MemoriesNeedFeatures, ReferencesNeedFeatures, AggregatesNeedFeatures};
ghost use Rattle.wasm_spec_steps.specs.FormExamples.{Vectors, NoVectors, Atomics, NoAtomics, FormsNeedFeatures};
ghost use Rattle.wasm_spec_steps.specs.SharedExamples.{ReachesGlobalsAndTables, ReachesFunctions, ReachesStructures, ReachesArrays, ReachesTheRest, AtomicAccesses, NoAtomicAccesses};
ghost use Rattle.wasm_spec_steps.specs.BodyExamples.{ParametersAreLocals};

// What the definitions here speak of, for the crates that stand on them.
pub use wasm_operators::operators_atomic::{
    Access, SharedAtomicOperator, SharedForm, shared_code, shared_form,
};
pub use wasm_operators::{AccessValues, BlockType, FrameKind};

/// Steps over other identities of types are the same steps with each identity renamed, where the
/// renaming keeps which are the same.
#[tactic(auto, using(crate::proofs::StepsRenamed::steps_rename))]
pub fn steps_rename<R, S>()
    ensures renamed { StepsRename R S }
{}

/// Without a feature that they need, no step by an operator on vectors is taken, none by an atomic
/// operator, and none by an operator of a proposal beyond the standard: of wide arithmetic and
/// `memory.discard`, on descriptors, on what may be shared, and on continuations.
#[tactic(auto, using(crate::proofs::OptInOperators::operators_are_opt_in))]
pub fn operators_are_opt_in<R>()
    ensures opt_in { OperatorsAreOptIn R }
{}

/// No step is taken by an operator that the features don't serve, and no constant expression has one.
#[tactic(auto, using(crate::proofs::OptInOperators::unserved_take_none))]
pub fn unserved_take_none<R>()
    ensures { UnservedTakeNone R }
{}

/// Where the limits of `crate_limits` are asked for, no step is taken by a `try_table` of more than
/// 10,000 catch clauses; where they aren't, their number is no obstacle.
#[tactic(auto, using(crate::proofs::OptInOperators::clauses_are_limited))]
pub fn clauses_are_limited<R>()
    ensures limited { ClausesAreLimited R }
{}

/// Bodies of control, parametric and variable instructions, and constant expressions: valid ones,
/// and ones that are not.
#[tactic(auto, using(crate::proofs::ControlRuns::runs))]
pub fn control_examples()
    ensures blocks { Blocks }
    ensures no_blocks { NoBlocks }
    ensures branches { Branches }
    ensures no_branches { NoBranches }
    ensures calls { Calls }
    ensures no_calls { NoCalls }
    ensures exceptions { Exceptions }
    ensures no_exceptions { NoExceptions }
    ensures parametrics { Parametrics }
    ensures no_parametrics { NoParametrics }
    ensures variables { Variables }
    ensures no_variables { NoVariables }
    ensures control_needs_features { ControlNeedsFeatures }
    ensures constants { Constants }
    ensures no_constants { NoConstants }
    ensures constant_instructions { ConstantInstructions }
    ensures no_constant_instructions { NoConstantInstructions }
{}

/// Bodies of memory, table, reference and aggregate instructions: valid ones, and ones that are
/// not.
#[tactic(auto, using(crate::proofs::HeapRuns::heap_runs))]
pub fn heap_examples()
    ensures memories { Memories }
    ensures no_memories { NoMemories }
    ensures tables { Tables }
    ensures no_tables { NoTables }
    ensures references { References }
    ensures no_references { NoReferences }
    ensures casts { Casts }
    ensures no_casts { NoCasts }
    ensures conversions { Conversions }
    ensures no_conversions { NoConversions }
    ensures structures { Structures }
    ensures no_structures { NoStructures }
    ensures arrays { Arrays }
    ensures no_arrays { NoArrays }
    ensures copies { Copies }
    ensures no_copies { NoCopies }
    ensures descriptors { Descriptors }
    ensures no_descriptors { NoDescriptors }
    ensures continuations { Continuations }
    ensures no_continuations { NoContinuations }
    ensures memories_need_features { MemoriesNeedFeatures }
    ensures references_need_features { ReferencesNeedFeatures }
    ensures aggregates_need_features { AggregatesNeedFeatures }
{}

/// Bodies of operators on vectors and of atomic ones: valid ones, and ones that are not.
#[tactic(auto, using(crate::proofs::FormRuns::form_runs))]
pub fn form_examples()
    ensures vectors { Vectors }
    ensures no_vectors { NoVectors }
    ensures atomics { Atomics }
    ensures no_atomics { NoAtomics }
    ensures forms_need_features { FormsNeedFeatures }
{}

/// Bodies of shared functions, which reach only what is shared, and of functions that are not; and
/// atomic accesses to what is shared.
#[tactic(auto, using(crate::proofs::SharedRuns::shared_runs))]
pub fn shared_examples()
    ensures globals_and_tables { ReachesGlobalsAndTables }
    ensures functions { ReachesFunctions }
    ensures structures { ReachesStructures }
    ensures arrays { ReachesArrays }
    ensures the_rest { ReachesTheRest }
    ensures accesses { AtomicAccesses }
    ensures no_accesses { NoAtomicAccesses }
{}

/// A body, byte by byte: the parameters of its function are its first locals.
pub fn body_example()
    ensures parameters { ParametersAreLocals }
{}

/// Bodies with operators of legacy exceptions: valid ones, and ones that are not.
#[tactic(auto, using(crate::proofs::LegacyRuns::legacy_runs))]
pub fn legacy_examples()
    ensures tries { Tries }
    ensures no_tries { NoTries }
    ensures need_features { TriesNeedFeatures }
{}

/// Without their features no step is taken by an operator of legacy exceptions.
#[tactic(auto, using(crate::proofs::LegacyRuns::legacy_needs_features))]
pub fn legacy_needs_features<R>()
    ensures { LegacyNeedsFeatures R }
{}

/// Numeric operators take and give what their opcodes say.
#[tactic(auto, using(crate::proofs::NumericShapes::numeric_shapes_by_opcode))]
pub fn numeric_shapes_by_opcode()
    ensures shapes { NumericShapesByOpcode }
{}

/// Verdicts do not depend on the identities of types: a renaming that is one-to-one on those of the
/// context, the locals and the state changes none.
#[tactic(auto, using(crate::proofs::VerdictsRenamed::verdicts_rename))]
pub fn verdicts_rename<R, S>()
    ensures renamed { VerdictsRename R S }
{}

/// Each operator of constant expressions gives exactly one reference, or takes none: constants,
/// numeric operators and `global.get` take none, and the others give one.
#[tactic(auto, using(crate::proofs::ConstantReferences::constants_give_references))]
pub fn constants_give_references<R>()
    ensures references { ConstantsGiveReferences R }
{}

/// What a context says of the order of types is right, where no ancestor is further away than there
/// are types.
#[tactic(auto, using(crate::proofs::WorldsDecided::worlds_are_right))]
pub fn worlds_are_right<R>()
    ensures right { WorldsAreRight R }
{}

/// Two lists, or a list and its last item, are taken and given in turn, and only operands change.
/// In code that is not reached anything can be taken at the height of the frame.
#[tactic(auto, using(crate::proofs::OperandSequences::taken_in_turn))]
pub fn operands_are_taken_in_turn<R>()
    ensures lists { ListsAreTakenInTurn R }
    ensures frames { TakingKeepsFrames R }
    ensures types { TypesAreTakenInTurn R }
    ensures unreached { UnreachedCodeTakesAnything R }
{}

/// Actions and steps one behind the other are run in turn, and where the first are refused so is
/// all of the run.
#[tactic(auto, using(crate::proofs::OperandSequences::actions_are_run_in_turn))]
pub fn actions_are_run_in_turn<R>()
    ensures { ActionsAreRunInTurn R }
{}

/// Equal types match, in each world in which each identity is below itself and the same as itself,
/// and in each context.
#[tactic(auto, using(crate::proofs::EqualTypesMatch::themselves))]
pub fn equal_types_match<R>()
    ensures worlds { EqualTypesMatch R }
    ensures contexts { EqualTypesMatchInContexts R }
{}
