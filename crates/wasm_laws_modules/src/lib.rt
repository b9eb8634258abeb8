//! Constant expressions in a module as far as it has been read, and bodies of functions behind the
//! start of its code section, over the ids of a list of types, and in the module's own context, over
//! its types by number (Core Specification 3.0, Validation, Conventions, Contexts).
//!
//! All lists of a module, added item by item, keep the rules of whole lists, and their constant
//! expressions are typed in the module's own context (Core Specification 3.0, Validation, Modules).
#![tactic(auto)]

ghost use Rattle.wasm_laws_modules.specs.BodyContexts.{BodiesAreOverNumbers};
ghost use Rattle.wasm_laws_modules.specs.Contexts.{SectionsGiveModuleTypes, ConstantsAreOverNumbers, ReferencesMatchOverIds};
ghost use Rattle.wasm_laws_modules.specs.Laws.{AllListsAreAdded};

/// The types of a valid type section are accepted, and where equal types aren't one, none comes
/// twice.
pub fn sections_give_module_types()
    ensures { SectionsGiveModuleTypes }
{}

/// What is typed as a constant expression over the ids of a list is typed in the module's context.
pub fn constants_are_over_numbers()
    ensures { ConstantsAreOverNumbers }
{}

/// Reference types match over the ids of a list where they match over the types themselves.
pub fn references_match_over_ids()
    ensures { ReferencesMatchOverIds }
{}

/// The bodies of a module are typed over the ids of a list exactly where they are typed in the
/// module's context.
pub fn bodies_are_over_numbers()
    ensures { BodiesAreOverNumbers }
{}

/// All lists of a module's parts, one after another, are added exactly where they are valid and
/// their constant expressions are typed, and the module's state then shows them (Core Specification
/// 3.0, Validation, Modules).
pub fn all_lists_are_added()
    ensures { AllListsAreAdded }
{}
