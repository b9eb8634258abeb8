//! The states of a validator, what each payload does to them, and the laws on whole runs.
//!
//! A validator stands at a stage: before a header, in a module, behind the start of its code, at
//! its end, or failed (`Standing`; in code, `state`). The machine says for each payload where it
//! leads, or that it is refused (`States`); `wasm_validator_modules` has the code that does as it
//! says. The laws here join runs of the machine over the payloads of whole bytes to the definition
//! of valid modules (Core Specification 3.0, Validation, Modules).
#![tactic(auto)]

mod maybe_owned;
pub mod state;

ghost use Rattle.wasm_validator_states.specs.PayloadVerdicts.{PayloadsDecide};
ghost use Rattle.wasm_validator_states.specs.Sequences.{OneIdForOneType, OwnIdForEachType, RefusedKeepTypes};
ghost use Rattle.wasm_validator_states.specs.SectionLaws.{TypesAdd, ImportsAdd, FunctionsAdd, TablesAdd, MemoriesAdd, TagsAdd, GlobalsAdd, ExportsAdd, ElementsAdd, SegmentsAdd};
ghost use Rattle.wasm_validator_states.specs.Table.{AcceptedByTable, RefusedByTable};

pub use maybe_owned::MaybeOwned;

/// A payload that is accepted leads a validator where the state table says, and one that is
/// refused, for its content or for want of memory, leaves it where the table says.
#[tactic(auto, using(crate::proofs::TableSteps::table_laws))]
pub fn state_table()
    ensures accepted { AcceptedByTable }
    ensures refused { RefusedByTable }
{}

/// The same verdict comes of payloads that are handed in one by one: if each is accepted up to the
/// end, and each body that they hand out is valid, the bytes are a valid module, and those of a
/// valid module are accepted (Core Specification 3.0, Validation, Modules).
pub fn payloads_decide()
    ensures { PayloadsDecide }
{}

/// Where equal types are one, two types of any modules that one validator has accepted, one after
/// another with `reset` between two of them, have the same id exactly where they are equal: the
/// same place of equal recursive types (Core Specification 3.0, Validation, Types, Recursive
/// Types). Between them modules may have been refused, as long as `reset` was allowed after each.
pub fn one_id_for_one_type<A>()
    ensures { OneIdForOneType A }
{}

/// Where equal types aren't one, each type of each of these modules has an id of its own.
pub fn own_id_for_each_type<A>()
    ensures { OwnIdForEachType A }
{}

/// A module that is refused, after which `reset` is allowed, leaves a list that begins with the
/// types before it: so the modules of `one_id_for_one_type` may be any given to `validate_all`.
pub fn refused_modules_keep_types()
    ensures { RefusedKeepTypes }
{}

/// Whatever lists a module has so far, a section is accepted exactly where its bytes are items that
/// keep their rules on these lists and the limit, and then they are appended to the list (Core
/// Specification 3.0, Validation, Modules). Each recursion group is valid after the types before
/// it; each export names something that there is, no name comes twice, and the effective size stays
/// below its limit. Constant expressions see the module as far as it has been read.
pub fn sections_add_their_items()
    ensures types { TypesAdd }
    ensures imports { ImportsAdd }
    ensures functions { FunctionsAdd }
    ensures tables { TablesAdd }
    ensures memories { MemoriesAdd }
    ensures tags { TagsAdd }
    ensures globals { GlobalsAdd }
    ensures exports { ExportsAdd }
    ensures elements { ElementsAdd }
    ensures segments { SegmentsAdd }
{}

/// Passed on from `wasm_parser` and `wasm_items`.
pub mod parser {
    pub use wasm_parser::{
        CustomSectionReader, Encoding, FunctionBody, ParseAll, Parser, Payload, items, locals,
    };
}

/// Passed on from `wasm_validator_sections`.
pub mod sections {
    pub use wasm_validator_sections::{
        CodeState, Constants, ExpressionMemory, MAX_FUNCTION_SIZE, ModuleState,
        ReferencedFunctions, add_elements, add_exports, add_functions, add_globals, add_imports,
        add_memories, add_tables, add_tags, add_types, check_data_segments, operator_validator,
        operators, started, tells_types_apart, validator_core, validator_core_resources,
        validator_func,
    };
}

/// Passed on from the crates of types and of what a module looks up.
pub mod types {
    pub use wasm_validator_canonical::type_checks::{
        MAX_WASM_SUBTYPING_DEPTH, check_composite_type, check_descriptors, check_subtype,
    };
    pub use wasm_validator_canonical::{
        InternRecGroup, TypeCanonicalizer, canonicalize_and_intern_rec_group, intern_rec_group_of,
        needs_type_canonicalization, types_are_apart, types_are_valid,
    };
    pub use wasm_validator_matches::{
        Matches, TypeData, TypeIdentifier, TypeInfo, WithRecGroup, func_signature_matches,
    };
    pub use wasm_validator_resources::WasmModuleResources;
    pub use wasm_validator_type_list::LinkCount;
    pub use wasm_validator_types::{
        CoreExports, CoreImports, EntityDisplay, EntityType, IndexSpaces, RecGroupElements,
        RecGroupId, SnapshotList, TypeAlloc, TypeList, Types, TypesRef, ValidatorId,
    };
}
