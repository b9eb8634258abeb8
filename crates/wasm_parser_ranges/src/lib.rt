//! Where the custom sections and the bodies of a module lie, in offsets from its first byte, and the
//! names that it gives its functions, for a host that looks at a module beside its validation.
//!
//! All of this needs the division of the bytes into sections alone (Core Specification 3.0, Binary
//! Format, Modules), so it says nothing of whether a module is valid, and takes no memory but for
//! what it gives. What custom sections hold is the module's own word.
#![tactic(auto)]

mod bodies;
mod custom_sections;
mod function_names;
mod not_found;
mod telling;

pub use bodies::{BODY_SIZE, Body, find_bodies};
pub use custom_sections::{CUSTOM_SECTION_SIZE, CustomSection, find_custom_sections};
pub use function_names::find_function_name;
pub use not_found::NotFound;
pub use telling::{tell_bodies, tell_custom_sections, tell_function_name};
