//! Lists of which snapshots are taken, and groups of items in one flat list: the group and the place
//! of each item, the ids of groups and of what is in them; and groups that are found by their hashes,
//! each compared with what the list holds, so that no group is kept twice.
#![tactic(auto)]

mod elements;
mod group_id;
mod group_table;
mod grouped_list;
mod known_groups;
mod parts;
mod snapshot_list;

pub use elements::RecGroupElements;
pub use group_id::RecGroupId;
pub use group_table::GroupTable;
pub use grouped_list::GroupedList;
pub use snapshot_list::SnapshotList;

/// Passed on from `wasm_readers_types`.
pub mod readers_types {
    pub use wasm_readers_types::{
        CompositeInnerType, CoreTypeId, FieldType, HeapType, PackedIndex, StorageType, SubType,
        UnpackedIndex, ValType,
    };
}
