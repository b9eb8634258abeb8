//! Of each type of a list the number of its proper ancestors, and where these are few the list of
//! them, so that one look-up tells whether a type is below another; the depths that are kept of
//! types; and which groups may be added to a list, and which of them refer by ids alone.
#![tactic(auto)]

mod ancestor_lists;
mod entries;
mod kept_depths;
mod link_count;
mod listable;

pub use ancestor_lists::AncestorLists;
pub use kept_depths::KeptDepths;
pub use link_count::LinkCount;
pub use listable::{group_is_listable, type_is_listable, types_refer_by_ids};

/// Passed on from `wasm_validator_type_groups`.
pub mod validator_type_groups {
    pub use wasm_validator_type_groups::{GroupTable, RecGroupElements, RecGroupId, SnapshotList};
}
