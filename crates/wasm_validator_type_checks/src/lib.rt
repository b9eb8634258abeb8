//! The rules of the types of a recursion group, asked of types that stand in a list of types.
//!
//! Each `offset` counts bytes from the start of the input.
#![tactic(auto)]

mod composite_types;
mod descriptors;
mod groups;
mod ids;
mod laws;
mod subtypes;

pub use composite_types::check_composite_type;
pub use descriptors::check_descriptors;
pub use groups::{check_rec_group, check_type};
pub use laws::{ids_keep_rules_as_types, sub_types_match_as_types};
pub use subtypes::{MAX_WASM_SUBTYPING_DEPTH, check_subtype};
