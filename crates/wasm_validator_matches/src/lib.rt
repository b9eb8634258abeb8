//! Matching of the parts of types, each in the group that its references stand in, and what ids of a
//! list of types stand for.
#![tactic(auto)]

mod composites;
mod matches;
mod type_info;
mod with_rec_group;

pub use composites::func_signature_matches;
pub use matches::Matches;
pub use type_info::{TypeData, TypeIdentifier, TypeInfo};
pub use with_rec_group::WithRecGroup;
