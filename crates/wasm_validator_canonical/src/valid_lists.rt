//! Whether the types of a list are valid, as [`crate::canonicalize_and_intern_rec_group`] asks.

ghost use Rattle.std.specs.Bool.{Decides};
ghost use Rattle.wasm_spec_rules.specs.FeatureFlags.{features_of};
ghost use Rattle.wasm_validator_type_list.specs.DefTypes.{types_of_list};
ghost use Rattle.wasm_validator_canonical.specs.Groups.{AreValid};

use std::alloc::Allocator;
use wasm_readers_errors::WasmFeatures;
use wasm_readers_types::CoreTypeId;
use wasm_validator_type_checks::check_type;
use wasm_validator_type_list::TypeList;

/// Whether each type of this list is valid by these features (Core Specification 3.0, Validation,
/// Types). A list of no types is, and so is one to which groups were added by
/// [`crate::canonicalize_and_intern_rec_group`] with these features and none was refused. Any other
/// list can be asked here, at the cost of checking all its types.
pub fn types_are_valid<A: Allocator + Copy>(features: WasmFeatures, types: &TypeList<A>) -> bool
    ensures { Decides result (AreValid (features_of features) (types_of_list types.now)) }
{
    let count = types.len();
    'ids: for index in 0..count {
        let id = CoreTypeId::from_index(index as u32);
        match check_type(features, types, id, 0) {
            Ok(()) => {}
            Err(_) => return false,
        }
    }
    true
}
