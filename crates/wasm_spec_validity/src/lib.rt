//! When a module is valid, with its constant expressions and bodies: definitions in the words of the
//! WebAssembly Core Specification 3.0, chapter Validation, section Modules.
//!
//! Bodies of functions over one kind of identity of types and over another, in contexts that show
//! the same (Core Specification 3.0, Validation, Modules, Functions).
#![tactic(auto)]

ghost use Rattle.wasm_spec_validity.specs.Laws.{TypesAreNumbered, NumbersTellTypesApart, PlainModulesAreValid, ExpressionsAreWhole, OwnReferencesSuffice};
ghost use Rattle.wasm_spec_validity.specs.OtherContexts.{ConstantsSeeLittle, ConstantsRename};
ghost use Rattle.wasm_spec_validity.specs.Examples.{NumberIsConstant, NumberOfAnotherType, NoTwoEnds, NoMissingEnd, FirstGlobalIsRead, NoMutableGlobalIsRead, NoGlobalIsReadWithoutGc, ImportedGlobalIsRead, NoGlobalReadsItself, SumIsConstant, NoSumWithoutExtendedConst, TableReadsImportedGlobal, NoTableReadsOwnGlobal, OffsetsAreAddresses, NoOtherDataOffsets, NoOtherElementOffsets, OffsetReadsGlobal, ElementOffsetReadsGlobal, FunctionAndNullAreItems, NoNullItem, GlobalsComeBehindImports, BodiesGiveResults, NoExchangedBodies, NoLastBodyWithoutEnd, OneGlobalIsImported, ReadToItsEnd, NothingReadWithoutEnd, FunctionIsNamed, GlobalIsModule, NoGlobalOfAnotherType};
ghost use Rattle.wasm_spec_validity.specs.OneToOne.{NumberingsSayTheSame};
ghost use Rattle.wasm_spec_validity.specs.Renaming.{BodiesAreRenamed, TypedBodiesAreRenamed};

/// Each list of types has a numbering by first appearance, and a numbering tells them apart.
pub fn types_are_numbered()
    ensures numbered { TypesAreNumbered }
    ensures apart { NumbersTellTypesApart }
{}

/// A module without constant expressions and bodies is valid where its other rules hold.
#[tactic(auto, using(crate::proofs::PlainModules::plain_modules_are_valid))]
pub fn plain_modules_are_valid()
    ensures valid { PlainModulesAreValid }
{}

/// What instructions at the front of some bytes are typed as a constant expression, up to the
/// `end` behind which no frame is left, is what is read there as an expression, and typed by itself.
pub fn expressions_are_whole<R>()
    ensures whole { ExpressionsAreWhole R }
{}

/// A constant expression of a module may refer to each function, since those that it names count as
/// referenced.
pub fn own_references_suffice()
    ensures suffice { OwnReferencesSuffice }
{}

/// Constant expressions see the types, the functions and the globals of their context alone.
#[tactic(auto, using(crate::proofs::ConstantContexts::constants_see_little))]
pub fn constants_see_little<R>()
    ensures little { ConstantsSeeLittle R }
{}

/// Constant expressions over other identities of types are those over the identities themselves,
/// renamed.
#[tactic(auto, using(crate::proofs::ConstantRenamings::constants_rename))]
pub fn constants_rename<R, S>()
    ensures renamed { ConstantsRename R S }
{}

/// Initializers of globals and of tables: typed ones, and ones that are not.
pub fn initializer_examples()
    ensures number { NumberIsConstant }
    ensures another_type { NumberOfAnotherType }
    ensures no_two_ends { NoTwoEnds }
    ensures no_missing_end { NoMissingEnd }
    ensures first_global { FirstGlobalIsRead }
    ensures no_mutable_global { NoMutableGlobalIsRead }
    ensures no_global_without_gc { NoGlobalIsReadWithoutGc }
    ensures imported_global { ImportedGlobalIsRead }
    ensures no_global_by_itself { NoGlobalReadsItself }
    ensures behind_imports { GlobalsComeBehindImports }
    ensures imported { OneGlobalIsImported }
    ensures sum { SumIsConstant }
    ensures no_sum { NoSumWithoutExtendedConst }
    ensures table { TableReadsImportedGlobal }
    ensures no_table { NoTableReadsOwnGlobal }
{}

/// Offsets and items of segments: typed ones, and ones that are not.
pub fn segment_examples()
    ensures offsets { OffsetsAreAddresses }
    ensures no_data_offsets { NoOtherDataOffsets }
    ensures no_element_offsets { NoOtherElementOffsets }
    ensures global { OffsetReadsGlobal }
    ensures element_global { ElementOffsetReadsGlobal }
    ensures items { FunctionAndNullAreItems }
    ensures no_null_item { NoNullItem }
{}

/// Bodies of functions: typed ones, and ones that are not.
pub fn body_examples()
    ensures results { BodiesGiveResults }
    ensures no_exchanged { NoExchangedBodies }
    ensures no_missing_end { NoLastBodyWithoutEnd }
{}

/// Expressions as they are read, and the functions that they name.
pub fn expression_examples()
    ensures end { ReadToItsEnd }
    ensures no_end { NothingReadWithoutEnd }
    ensures named { FunctionIsNamed }
{}

/// Whole modules with a global, byte by byte: a valid one, and one that is not.
pub fn module_examples()
    ensures global { GlobalIsModule }
    ensures no_global { NoGlobalOfAnotherType }
{}

/// Bytes are a function's body in one context exactly where they are in another, whose world is that
/// of the first with each identity of a type renamed, and which has all that the first context has,
/// renamed, apart from what the identities declare and the list of referenced functions. The two
/// lists have the same functions.
#[tactic(auto, using(crate::proofs::RenamedBodies::bodies_are_renamed))]
pub fn bodies_are_renamed<R, S>()
    ensures bodies { BodiesAreRenamed R S }
{}

/// A module has typed bodies in one context exactly where it has them in another, under the same
/// conditions.
pub fn typed_bodies_are_renamed<R, S>()
    ensures bodies { TypedBodiesAreRenamed R S }
{}

/// No verdict on a body or on a constant expression depends on the identities of the types of the
/// context: each two numberings that are one-to-one below a limit, one of which may be the numbers
/// themselves, give the same, whatever the limit is.
pub fn numberings_say_the_same<R, S>()
    ensures same { NumberingsSayTheSame R S }
{}
