//! Operators on structures, and atomic accesses to globals, tables, structures and arrays.
#![tactic(auto)]

mod accesses;
mod elements;
mod fields;
mod made;
mod reached;
mod shared;
mod shared_places;
mod step;

pub use accesses::{struct_get, struct_get_s, struct_get_u, struct_set};
pub use made::{struct_new, struct_new_default, struct_new_default_desc, struct_new_desc};
pub use shared::step_shared;
pub use step::step_struct;
