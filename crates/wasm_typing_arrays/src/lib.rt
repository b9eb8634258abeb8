//! Operators on arrays.
#![tactic(auto)]

mod accesses;
mod bulk;
mod lengths;
mod made;
mod reached;
mod segments;
mod step;
mod taken;

pub use accesses::{array_get, array_get_s, array_get_u, array_set};
pub use bulk::{array_copy, array_fill, array_init_data, array_init_elem};
pub use lengths::array_len;
pub use made::{array_new, array_new_data, array_new_default, array_new_elem, array_new_fixed};
pub use step::step_array;
