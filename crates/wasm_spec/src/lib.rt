//! Definitions of WebAssembly's types and of its binary format, in the words and the order of the
//! WebAssembly Core Specification 3.0. Contracts of the crates above cite them.
#![tactic(auto)]

ghost use Rattle.std.specs.Prelude.{ℕ};
ghost use Rattle.wasm_spec.specs.Syntax.{map_val, map_sub, map_rec};
ghost use Rattle.wasm_spec.specs.Values.{unsigned_at, signed_at, name_at};
ghost use Rattle.wasm_spec.specs.BinaryTypes.{val_at, rec_at};
ghost use Rattle.wasm_spec.specs.BinaryModules.{import_at, entry_at, export_at, map_import, map_entry};
ghost use Rattle.wasm_spec.specs.Laws.{ReadingRenames, ReadingGoesOn, ReadingIgnoresWhatFollows, MapAfterMap, MapBySame};
ghost use Rattle.wasm_spec.specs.TypeLaws.{MembersOfClosed, StartOfClosed, EqualTreesEqualGroups, DifferentGroupsDifferentTypes, AppendedGroup, FrontOfTypeSpace, EarlierTypesStay, SingleRecIsPlain, EachWrittenGroupIsItsOwn, MatchingIsReflexive, MatchingIsTransitive, MatchingIsAntisymmetric, AcceptedTypesMatchAncestors, DepthsAreSmall, ValidTypeSectionIsAccepted, TestsDecideMatching, SelfMentionsAreOneTree, TypesDeclareWhatIsWritten, AppendedListedGroup, EarlierIdsStay, EqualTreesEqualListedGroups, ListedGroupIsWrittenGroup};
ghost use Rattle.wasm_spec.specs.TypeExamples.{FinalStructStillMatches, ExtendedStructHasOneAncestor, DescribedPairIsValid, MutualStructsAreOneTree, MutualStructsAreTypes, NoRecWithoutGc, NoIndexPastTheEnd, ExtendsOpenStruct, FinalStructIsNotExtended, ImmutableFieldMatches, MutableFieldDoesNotMatch, ParametersMatchBackwards, ParametersDoNotMatchForwards, SixtyThreeAncestors, NoSixtyFourAncestors, PackedFieldsAreAllowed, NoVectorFieldWithoutSimd};
ghost use Rattle.wasm_spec.specs.BinaryExamples.{HeapTypesOfOneByte, ReferencesAreNeverNull, ReferencesMayBeNull, StructuresAreRead, ImportIsRead, EntriesAreRead, BodiesAreOfFunctions, SegmentsAreCounted, UnsignedNumbersAreRead, SignedNumbersAreRead, ValueTypesAreRead, FieldsAreRead, CompositeTypesAreRead, GroupsAreRead, MemoriesAreRead, TablesAreRead, GlobalsAndTagsAreRead, ExternTypesAreRead, ExportIsRead, ElementsAreRead, DataAreRead, EntriesWithExpressionsAreRead, SectionsHavePlaces};
ghost use Rattle.wasm_spec.specs.RuleExamples.{FeaturesAllowHeapTypes, FeaturesAllowReferences, FeaturesAllowValues, KindsHaveBounds, ValuesHaveDefaults, IndicesPointInBounds, NoOpenTypeWithoutGc, NoSharedTypeWithoutSharing, NoSharedFieldOfUnshared, NoManyResultsWithoutMultiValue, NoAggregatesWithoutGc, NoContinuationsWithoutFeatures, NoDescriptorsOfFunctions, NoDescriptorsWithoutFeature};
ghost use Rattle.wasm_spec.specs.LimitExamples.{MillionOfMost, HundredOrOne, SegmentsAndBodies};

/// Reading with renamed type indices is reading, and renaming what was read.
#[tactic(auto, using(crate::proofs::LawSet::renaming_laws))]
pub fn reading_renames<R, S>()
    ensures value_types { ReadingRenames R S map_val val_at val_at }
    ensures recursive_types { ReadingRenames R S map_rec rec_at rec_at }
    ensures imports { ReadingRenames R S map_import import_at import_at }
    ensures entries { ReadingRenames R S map_entry entry_at entry_at }
{}

/// What is read takes at least one byte, and leaves the bytes behind it as they are.
#[tactic(auto, using(crate::proofs::LawSet::progress_laws))]
pub fn reading_goes_on<R>()
    ensures unsigned_numbers { (bits : ℕ) → ReadingGoesOn (unsigned_at bits) }
    ensures signed_numbers { (bits : ℕ) → ReadingGoesOn (signed_at bits) }
    ensures names { ReadingGoesOn name_at }
    ensures value_types { (to : ℕ → R) → ReadingGoesOn (val_at to) }
    ensures recursive_types { (to : ℕ → R) → ReadingGoesOn (rec_at to) }
    ensures imports { (to : ℕ → R) → ReadingGoesOn (import_at to) }
    ensures exports { ReadingGoesOn export_at }
{}

/// What is read does not depend on the bytes behind it.
#[tactic(auto, using(crate::proofs::LawSet::front_laws))]
pub fn reading_ignores_what_follows<R>()
    ensures unsigned_numbers { (bits : ℕ) → ReadingIgnoresWhatFollows (unsigned_at bits) }
    ensures signed_numbers { (bits : ℕ) → ReadingIgnoresWhatFollows (signed_at bits) }
    ensures names { ReadingIgnoresWhatFollows name_at }
    ensures value_types { (to : ℕ → R) → ReadingIgnoresWhatFollows (val_at to) }
    ensures recursive_types { (to : ℕ → R) → ReadingIgnoresWhatFollows (rec_at to) }
    ensures imports { (to : ℕ → R) → ReadingIgnoresWhatFollows (import_at to) }
    ensures exports { ReadingIgnoresWhatFollows export_at }
{}

/// Renaming twice is renaming once, and renaming each reference to itself changes nothing.
#[tactic(auto, using(crate::proofs::LawSet::map_laws))]
pub fn maps_compose<Q, R, S>()
    ensures value_types { MapAfterMap Q R S map_val map_val map_val }
    ensures sub_types { MapAfterMap Q R S map_sub map_sub map_sub }
    ensures recursive_types { MapAfterMap Q R S map_rec map_rec map_rec }
    ensures imports { MapAfterMap Q R S map_import map_import map_import }
    ensures same_value_types { MapBySame R map_val }
    ensures same_sub_types { MapBySame R map_sub }
    ensures same_recursive_types { MapBySame R map_rec }
    ensures same_imports { MapBySame R map_import }
{}

/// A recursive type is the list of sub types that it was closed from, and no two lists give one.
#[tactic(auto, using(crate::proofs::TypeLawSet::tree_laws))]
pub fn recursive_types_are_their_groups()
    ensures members { MembersOfClosed }
    ensures start { StartOfClosed }
    ensures equal { EqualTreesEqualGroups }
    ensures different { DifferentGroupsDifferentTypes }
{}

/// The list of types grows by the types of each group, and what it has stays.
#[tactic(auto, using(crate::proofs::TypeLawSet::closing_laws))]
pub fn type_space_grows()
    ensures appended { AppendedGroup }
    ensures front { FrontOfTypeSpace }
    ensures earlier_types { EarlierTypesStay }
    ensures single { SingleRecIsPlain }
    ensures own { EachWrittenGroupIsItsOwn }
    ensures one_tree { SelfMentionsAreOneTree }
    ensures declare { TypesDeclareWhatIsWritten }
{}

/// In a list of groups over ids the types of earlier ids stay, and where no type has two ids equal
/// types are those of equal groups.
#[tactic(auto, using(crate::proofs::TypeLawSet::list_laws))]
pub fn ids_stand_for_types()
    ensures appended { AppendedListedGroup }
    ensures earlier { EarlierIdsStay }
    ensures equal { EqualTreesEqualListedGroups }
    ensures written { ListedGroupIsWrittenGroup }
{}

/// Matching is an order, and where each type is valid it holds between a type and each of its
/// ancestors.
#[tactic(auto, using(crate::proofs::TypeLawSet::matching_laws))]
pub fn matching_is_an_order<R>()
    ensures reflexive { MatchingIsReflexive R }
    ensures transitive { MatchingIsTransitive R }
    ensures antisymmetric { MatchingIsAntisymmetric R }
    ensures accepted { AcceptedTypesMatchAncestors R }
    ensures tests { TestsDecideMatching R }
{}

/// A type has one number of proper ancestors at most, and a valid one at most 63.
#[tactic(auto, using(crate::proofs::Depths::depths_are_small))]
pub fn depths_are_small<R>()
    ensures depths { DepthsAreSmall R }
{}

/// The types of a valid type section mention only types of it, all of them valid: what is shown of
/// accepted types holds of them.
pub fn valid_type_sections_are_accepted()
    ensures accepted { ValidTypeSectionIsAccepted }
{}

/// Worked examples.
#[tactic(auto, using(crate::proofs::TypeLawSet::type_examples))]
pub fn type_examples()
    ensures one_tree { MutualStructsAreOneTree }
    ensures types { MutualStructsAreTypes }
    ensures no_rec { NoRecWithoutGc }
    ensures no_index { NoIndexPastTheEnd }
    ensures open { ExtendsOpenStruct }
    ensures not_open { FinalStructIsNotExtended }
    ensures not_open_matches { FinalStructStillMatches }
    ensures not_open_depth { ExtendedStructHasOneAncestor }
    ensures described { DescribedPairIsValid }
    ensures immutable { ImmutableFieldMatches }
    ensures mutable { MutableFieldDoesNotMatch }
    ensures backwards { ParametersMatchBackwards }
    ensures forwards { ParametersDoNotMatchForwards }
    ensures ancestors { SixtyThreeAncestors }
    ensures no_more_ancestors { NoSixtyFourAncestors }
    ensures packed { PackedFieldsAreAllowed }
    ensures no_vector { NoVectorFieldWithoutSimd }
{}

/// Worked examples of the rules of types: what features allow, and types that break a rule.
#[tactic(auto, using(crate::proofs::RuleExamples::examples))]
pub fn rule_examples()
    ensures heap_types { FeaturesAllowHeapTypes }
    ensures references { FeaturesAllowReferences }
    ensures values { FeaturesAllowValues }
    ensures kinds { KindsHaveBounds }
    ensures defaults { ValuesHaveDefaults }
    ensures indices { IndicesPointInBounds }
    ensures no_open { NoOpenTypeWithoutGc }
    ensures no_shared { NoSharedTypeWithoutSharing }
    ensures no_unshared_field { NoSharedFieldOfUnshared }
    ensures no_results { NoManyResultsWithoutMultiValue }
    ensures no_aggregates { NoAggregatesWithoutGc }
    ensures no_continuations { NoContinuationsWithoutFeatures }
    ensures no_descriptors { NoDescriptorsOfFunctions }
    ensures no_descriptors_without_feature { NoDescriptorsWithoutFeature }
{}

/// Worked examples of the binary format: bytes, and what they are read as.
#[tactic(auto, using(crate::proofs::BinaryExamples::examples))]
pub fn binary_examples()
    ensures heap_types { HeapTypesOfOneByte }
    ensures never_null { ReferencesAreNeverNull }
    ensures may_be_null { ReferencesMayBeNull }
    ensures structures { StructuresAreRead }
    ensures import { ImportIsRead }
    ensures entries { EntriesAreRead }
    ensures bodies { BodiesAreOfFunctions }
    ensures segments { SegmentsAreCounted }
    ensures unsigned { UnsignedNumbersAreRead }
    ensures signed { SignedNumbersAreRead }
    ensures values { ValueTypesAreRead }
    ensures fields { FieldsAreRead }
    ensures composites { CompositeTypesAreRead }
    ensures groups { GroupsAreRead }
    ensures memories { MemoriesAreRead }
    ensures tables { TablesAreRead }
    ensures globals { GlobalsAndTagsAreRead }
    ensures externs { ExternTypesAreRead }
    ensures exports { ExportIsRead }
    ensures elements { ElementsAreRead }
    ensures data { DataAreRead }
    ensures with_expressions { EntriesWithExpressionsAreRead }
    ensures places { SectionsHavePlaces }
{}

/// The numbers of the limits.
#[tactic(auto, using(crate::proofs::LimitExamples::examples))]
pub fn limit_examples()
    ensures million { MillionOfMost }
    ensures hundred { HundredOrOne }
    ensures segments { SegmentsAndBodies }
{}
