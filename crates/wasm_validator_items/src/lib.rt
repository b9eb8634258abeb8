//! Sections whose items hold constant expressions: each item is read and typed in one pass, in the
//! module as far as it has been read, and added to it (Core Specification 3.0, Validation, Modules,
//! and Binary Format, Modules).
//!
//! Each `offset` counts bytes from the start of the input.
#![tactic(auto)]

ghost use Rattle.std.specs.Prelude.{ℕ};
ghost use Rattle.wasm_spec.specs.Features.{Features};
ghost use Rattle.wasm_spec_rules.specs.Contexts.{Context};
ghost use Rattle.wasm_readers_types.specs.WasmReadersValues.declared.indices.UnpackedIndex.{UnpackedIndex};
ghost use Rattle.wasm_validator_items.specs.Items.{ExpressionsAreTyped, GlobalsAreTyped, DataAreTyped};
ghost use Rattle.wasm_validator_items.specs.OnePassSections.{DataAreReadAndAdded, ItemsAreReadAndAdded, SectionsAddSingleItems, EntriesAreRenamed};

pub mod constants;
mod data;
mod elements;
mod globals;
mod initializers;
mod section_items;
mod tables;

pub use constants::{Constants, tells_types_apart};
pub use data::{DataItems, check_next_data};
pub use elements::{ElementItems, add_next_element};
pub use globals::{GlobalItems, add_next_global};
pub use section_items::{ItemLimit, SectionItem, add_items};
pub use tables::{TableItems, add_next_table};
pub use wasm_validator_segments::ExpressionMemory;

/// Reading and typing expressions, globals and data segments in one pass accepts exactly those of the
/// grammar whose expressions are typed.
pub fn items_are_typed()
    ensures expressions { (C : Context UnpackedIndex) (F : Features) (imported : ℕ)
        → ExpressionsAreTyped C F imported }
    ensures globals { (C : Context UnpackedIndex) (F : Features) (imported : ℕ)
        → GlobalsAreTyped C F imported }
    ensures data { (C : Context UnpackedIndex) (F : Features) (imported : ℕ)
        → DataAreTyped C F imported }
{}

/// A data section is read by the grammar, and its segments are added one after another.
#[tactic(auto, using(crate::proofs::Segments::data_are_added))]
pub fn data_sections_are_read_and_added()
    ensures { DataAreReadAndAdded }
{}

/// A single item is read by the grammar, and then added.
#[tactic(auto, using(crate::proofs::Singles::items_are_added))]
pub fn items_are_read_and_added()
    ensures { ItemsAreReadAndAdded }
{}

/// A section adds its items as they are added one by one.
#[tactic(auto, using(crate::proofs::Singles::sections_add_single_items))]
pub fn sections_add_single_items<S, V>()
    ensures { SectionsAddSingleItems S V }
{}

/// Entries are read the same with type indices in another form.
pub fn entries_are_renamed()
    ensures { EntriesAreRenamed }
{}

/// Passed on from `wasm_validator_core`.
pub mod validator_core {
    pub use wasm_validator_core::{
        Error, MAX_DATA_SEGMENTS, MAX_ELEMENT_SEGMENTS, MAX_EXPORTS, MAX_FUNCTIONS, MAX_GLOBALS,
        MAX_IMPORTS, MAX_MEMORIES, MAX_TABLES, MAX_TAGS, MAX_TYPES, Module, check_data_count,
        check_max,
    };
}

/// Passed on from `wasm_validator_core_resources`.
pub mod validator_core_resources {
    pub use wasm_validator_core_resources::{TypesByIds, ValidatorResources};
}

/// Passed on from `wasm_validator_references`.
pub mod references {
    pub use wasm_validator_segments::references::ReferencedFunctions;
}
