//! What a caller without ownership keeps between calls: a validator, or the types of a module that
//! it accepted, behind a handle of one word; these types as numbers; and what is written into its
//! arrays. `ruthvelka_c` gives all of them to C.
#![tactic(auto)]

mod arrays;
mod entities;
mod handle;
mod items;
mod kept;
mod laws;
mod loose;
mod names;
mod pairs;
mod signatures;
mod values;

pub use arrays::{
    item_at, write_bytes, write_function_ids, write_name, write_numbers, write_text, write_type_ids,
};
pub use entities::{Extern, ExternType, Externs, count_exports, count_imports, gather_externs};
pub use handle::Handle;
pub use items::{nth_export, nth_import, nth_type};
pub use kept::{Answer, Kept, NotAsked};
pub use laws::calls_say_of_all;
pub use names::{all_features, find_feature, find_name};
pub use pairs::{are_one, longer};
pub use signatures::{Signature, find_signature};
pub use values::{MOST_IDS, ValueType, match_values, tell_value};

/// The validator's items that a caller of this crate needs beside it.
pub mod validator {
    pub use wasm_validator::{
        CoreTypeId, EntityType, Error, Flags, TypeList, Types, TypesRef, ValType, Validator,
        ValidatorId, WasmFeatures, validate_list,
    };
}
