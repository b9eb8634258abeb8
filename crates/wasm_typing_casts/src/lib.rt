//! Casts of references, branches on casts, and conversions.
#![tactic(auto)]

mod branches;
mod casts;
mod conversions;
mod descriptors;
mod sends;
mod steps;
mod tops;
mod written;

pub use branches::{br_on_cast, br_on_cast_fail};
pub use casts::{ref_cast, ref_test};
pub use conversions::{any_convert_extern, extern_convert_any, i31_get, ref_i31, ref_i31_shared};
pub use descriptors::{
    br_on_cast_desc_eq, br_on_cast_desc_eq_fail, ref_cast_desc_eq, ref_get_desc,
};
pub use steps::{step_cast, step_conversion};
pub use written::{is_written_cast, is_written_heap, is_written_reference};

// Casts stand above the other operators on references, so who steps through casts finds these here.
pub use wasm_typing_continuations::step_continuation;
pub use wasm_typing_references::step_reference;
