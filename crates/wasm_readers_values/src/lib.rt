//! Value types and the indices that name types, as plain data.
#![tactic(auto)]

mod exact;
mod heaps;
mod indices;
mod text;
mod values;

pub use exact::{Exact, Faithful, copied, same};
pub use heaps::same_flag;
pub use indices::{CoreTypeId, MAX_IDS, PackedIndex, UnpackedIndex};
pub use values::{AbstractHeapType, FieldType, HeapType, RefType, StorageType, ValType, same_val};
