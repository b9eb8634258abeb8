//! The lists of a module, added item by item, keep the rules of whole lists; and contexts over one kind
//! of identity of types are those over another: what a context declares is looked at through a world
//! alone, so that a context over a list of types gives the verdicts of the context that the standard
//! gives a module (Core Specification 3.0, Validation, Conventions, Contexts).
#![tactic(auto)]

pub mod ids;

ghost use Rattle.wasm_laws_core.specs.ListedTypes.{ListsDeclareTheirTypes};
ghost use Rattle.wasm_laws_core.specs.GrownLists.{FirstTypesStayFirst};
ghost use Rattle.wasm_laws_core.specs.GroupTrees.{GroupsAreRecursiveTypes};
ghost use Rattle.wasm_laws_core.specs.ContextWorlds.{StepsSeeWorldsAlone, StepsRenameInWorlds, VerdictsRenameInWorlds};
ghost use Rattle.wasm_laws_core.specs.TypeNumbers.{AcceptedTypesAreNumbered, IdsRenameNumbers};
ghost use Rattle.wasm_laws_core.specs.ModuleOverIds.{ModulesAreOverIds};
ghost use Rattle.wasm_laws_core.specs.Exports.{ExportsAreAddedBehind};
ghost use Rattle.wasm_laws_core.specs.ShownTypeIds.{ShownTypesAreHeld};
ghost use Rattle.wasm_laws_core.specs.Imports.{OneImportIsAdded};
ghost use Rattle.wasm_laws_core.specs.Laws.{ImportsAreAdded, FunctionsAreAdded, TablesAreAdded, MemoriesAreAdded, TagsAreAdded, ExportsAreAdded, ValidListsAreAdded, StartsAreDecided};

/// Imports, added one after another to the state of a module whose types stand in the list of
/// types, are accepted exactly where they are valid, and the state then shows them (Core
/// Specification 3.0, Validation, Modules, Imports). One import is, behind any lists, exactly where
/// it is valid and fits.
pub fn imports_are_added()
    ensures all { ImportsAreAdded }
    ensures one { OneImportIsAdded }
{}

/// The same of the functions, tables, memories and tags that are defined, behind imports (Core
/// Specification 3.0, Validation, Modules).
pub fn definitions_are_added()
    ensures functions { FunctionsAreAdded }
    ensures tables { TablesAreAdded }
    ensures memories { MemoriesAreAdded }
    ensures tags { TagsAreAdded }
{}

/// The same of exports, behind all that they may name (Core Specification 3.0, Validation, Modules,
/// Exports); and behind any lists, where they are valid, no name comes twice and the size stays
/// below its limit.
pub fn exports_are_added()
    ensures all { ExportsAreAdded }
    ensures behind { ExportsAreAddedBehind }
{}

/// All lists of a module's parts, one after another, are added exactly where they are valid, and
/// the module's state then shows them (Core Specification 3.0, Validation, Modules).
pub fn valid_lists_are_added()
    ensures { ValidListsAreAdded }
{}

/// A start function is accepted, by the state of a module, exactly where it is valid: it is there,
/// and takes and gives nothing (Core Specification 3.0, Validation, Modules, Start Function).
pub fn starts_are_decided()
    ensures { StartsAreDecided }
{}

/// Where the parts of a module are valid, and the list of types has each of its ids, all types that
/// the module's state shows name ids of the list only: those of tables, globals and element segments,
/// of imports and of exports (Core Specification 3.0, Validation, Conventions, Contexts).
pub fn shown_types_are_held()
    ensures { ShownTypesAreHeld }
{}

/// One step and a run of steps are the same whatever the context declares: what types declare is
/// looked at through the world that is given.
#[tactic(auto, using(crate::proofs::WorldsAlone::steps_see_worlds_alone))]
pub fn steps_see_worlds_alone<R>()
    ensures alone { StepsSeeWorldsAlone R }
{}

/// Where one world is another with each identity renamed, steps in it are the steps in the other,
/// renamed, whatever the context declares. So are verdicts, where it is the world of the context.
#[tactic(auto, using(crate::proofs::WorldsAlone::steps_rename_in_worlds))]
pub fn steps_rename_in_worlds<R, S>()
    ensures steps { StepsRenameInWorlds R S }
    ensures verdicts { VerdictsRenameInWorlds R S }
{}

/// The distinct types of valid type sections, with their places for numbers, declare something and
/// mention only one another.
pub fn accepted_types_are_numbered()
    ensures { AcceptedTypesAreNumbered }
{}

/// A context over the ids of a list says of them what a module's context says of the numbers of its
/// types: what types declare, which is an ancestor of which, and which are the same.
pub fn ids_rename_numbers<A>()
    ensures { IdsRenameNumbers A }
{}

/// The context of a module over the ids of a list is the module's context over the numbers of its
/// distinct types, with each number renamed to the id of its type, and gives the same verdicts.
pub fn modules_are_over_ids<A>()
    ensures { ModulesAreOverIds A }
{}

/// The ids of a list of types declare what the types do that they stand for.
#[tactic(auto, using(crate::proofs::ListedTypes::lists_declare_their_types))]
pub fn lists_declare_their_types<A>()
    ensures { ListsDeclareTheirTypes A }
{}

/// What is kept of a list of types, with ids in the place of positions in their groups, is still
/// that of the list when types are added behind.
#[tactic(auto, using(crate::proofs::GrownLists::first_types_stay_first))]
pub fn first_types_stay_first<A>()
    ensures { FirstTypesStayFirst A }
{}

/// The group of an id in a list of types, which `TypeList::rec_group_id_of` answers, is the recursive
/// type of the type that the id stands for (Core Specification 3.0, Validation, Types, Recursive
/// Types). The group begins at the id less the type's position, it has as many types as the
/// recursive type has members, and the type under each of its ids is the member at that position.
/// Each group of the list may stand behind those before it, as `TypeList::len` says of every list.
pub fn groups_are_recursive_types<A>()
    ensures { GroupsAreRecursiveTypes A }
{}
