//! The list of types of a validator: recursion groups, each type under its id, equal groups kept
//! once where references are canonicalized.
//!
//! Each `offset` counts bytes from the start of the input.
#![tactic(auto)]

mod entity_display;
mod laws;
mod type_alloc;
mod type_list;

pub use entity_display::EntityDisplay;
pub use laws::{
    ids_are_a_world, ids_match_as_types, types_declare_what_ids_declare, types_have_their_places,
};
pub use type_alloc::TypeAlloc;
pub use type_list::{TypeList, all_fields_match, all_vals_match, inners_match, subs_match};
pub use wasm_validator_type_ancestors::LinkCount;
pub use wasm_validator_type_ancestors::validator_type_groups::{
    RecGroupElements, RecGroupId, SnapshotList,
};
