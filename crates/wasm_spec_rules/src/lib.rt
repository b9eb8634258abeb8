//! When a module is valid: definitions in the words and the order of the WebAssembly Core
//! Specification 3.0, chapter Validation. Contracts of the validator cite them.
#![tactic(auto)]

ghost use Rattle.wasm_spec_rules.specs.Contexts.{ContextsAreRenamed, RepeatedTypeIsOne, TypeOfOthersIsNone};
ghost use Rattle.wasm_spec_rules.specs.LimitLaws.{LimitsAreOptIn};
ghost use Rattle.wasm_spec_rules.specs.Totals.{TotalsGoOn};
ghost use Rattle.wasm_spec_rules.specs.ModuleExamples.{TableOfOneOrTwo, NoTableOfTwoToOne, NoTableWithoutEntries, MemoryOfAllAddresses, NoMemoryPastAllAddresses, MemoryOfSmallPages, NoMemoryPastSmallPages, NoMemoryOfLargerPages, NoSharedGlobal, NoTagWithoutExceptions, NoMutableImport, MemoryIsExported, NoSecondMemory, NoNameTwice, SizeIsThree, NoStartWithParameter, NoPassiveElements, NoWrittenElements, OffsetsReference, NoPassiveData, NoTwoMemories, HeaderIsModule, NoVersionTwo, EntryOfOneTypeIsTwo, EntryWithTypesIsTwo, NoEntryIsTwo, EachKindIsExported, NoDeclaredElements, FunctionsGoToTable, NoNullGoesToTable, AllExpressionsReference, OwnFunctionsAreExact, ImportsStandFirst, SignatureCountsAsFive, FunctionsAreReferenced, NoSharedMemoryWithoutMaximum, NoMemoryOfTwoToOne, NoMemoryToPastAllAddresses, NoMemoryOf64BitsWithoutMemory64, NoInitWithoutFunctionReferences, NoTablePast32Bits, SectionsNeedFeatures, NoMillionAndOneEntries};
ghost use Rattle.wasm_spec_rules.specs.Bodies.{BodiesAreAsManyAsFunctions};

/// Worked examples of the rules of modules.
#[tactic(auto, using(crate::proofs::ModuleExamples::examples))]
pub fn module_examples()
    ensures table { TableOfOneOrTwo }
    ensures no_table { NoTableOfTwoToOne }
    ensures no_entries { NoTableWithoutEntries }
    ensures memory { MemoryOfAllAddresses }
    ensures no_memory { NoMemoryPastAllAddresses }
    ensures small_pages { MemoryOfSmallPages }
    ensures no_more_small_pages { NoMemoryPastSmallPages }
    ensures no_larger_pages { NoMemoryOfLargerPages }
    ensures no_global { NoSharedGlobal }
    ensures no_tag { NoTagWithoutExceptions }
    ensures no_import { NoMutableImport }
    ensures export { MemoryIsExported }
    ensures no_export { NoSecondMemory }
    ensures no_name { NoNameTwice }
    ensures size { SizeIsThree }
    ensures no_start { NoStartWithParameter }
    ensures no_elements { NoPassiveElements }
    ensures no_written { NoWrittenElements }
    ensures offsets { OffsetsReference }
    ensures no_data { NoPassiveData }
    ensures no_memories { NoTwoMemories }
    ensures header { HeaderIsModule }
    ensures no_version { NoVersionTwo }
    ensures one_type { EntryOfOneTypeIsTwo }
    ensures with_types { EntryWithTypesIsTwo }
    ensures no_compact { NoEntryIsTwo }
    ensures kinds { EachKindIsExported }
    ensures no_declared { NoDeclaredElements }
    ensures to_table { FunctionsGoToTable }
    ensures no_null_to_table { NoNullGoesToTable }
    ensures all_expressions { AllExpressionsReference }
    ensures exact { OwnFunctionsAreExact }
{}

/// Worked examples of index spaces, and of memories, tables and sections that break a rule.
#[tactic(auto, using(crate::proofs::ModuleExamples::item_examples))]
pub fn item_examples()
    ensures imports_first { ImportsStandFirst }
    ensures signature { SignatureCountsAsFive }
    ensures referenced_functions { FunctionsAreReferenced }
    ensures no_shared_memory { NoSharedMemoryWithoutMaximum }
    ensures no_memory_of_two_to_one { NoMemoryOfTwoToOne }
    ensures no_memory_to_past { NoMemoryToPastAllAddresses }
    ensures no_memory_of_64_bits { NoMemoryOf64BitsWithoutMemory64 }
    ensures no_init { NoInitWithoutFunctionReferences }
    ensures no_long_table { NoTablePast32Bits }
    ensures sections { SectionsNeedFeatures }
    ensures no_entries_past { NoMillionAndOneEntries }
{}

/// Without `crate_limits` every composite type and every name keeps the limits that it asks for; with
/// it a function type has at most 1,000 parameters and 1,000 results, a structure type 10,000 fields
/// and a name 100,000 bytes, and a type that keeps its rules with it keeps them without it.
#[tactic(auto, using(crate::proofs::LimitLaws::limits_are_opt_in))]
pub fn limits_are_opt_in<R>()
    ensures opt_in { LimitsAreOptIn R }
{}

/// A context over other identities of types is the context with each identity renamed.
#[tactic(auto, using(crate::proofs::Contexts::contexts_are_renamed))]
pub fn contexts_are_renamed<R, S>()
    ensures renamed { ContextsAreRenamed R S }
{}

/// A type that a module has twice is numbered once, and one that it doesn't have isn't numbered.
pub fn repeated_types_are_numbered_once()
    ensures once { RepeatedTypeIsOne }
    ensures none { TypeOfOthersIsNone }
{}

/// The types of a run of modules behind another are added to those of that one.
#[tactic(auto, using(crate::proofs::Totals::totals_go_on))]
pub fn totals_go_on()
    ensures total { TotalsGoOn }
{}

/// A framed module has as many bodies as functions that it declares (Core Specification 3.0, Binary
/// Format, Modules).
pub fn bodies_are_as_many_as_functions()
    ensures { BodiesAreAsManyAsFunctions }
{}
