//! What arrays are made of and filled from.

ghost use Rattle.std.specs.Prelude.{◌≡◌, true, false, nat_lt, OnOk, OnErr};
ghost use Rattle.wasm_readers_types.specs.WasmReadersValues.SeenValues.{val_of, storage_of};
ghost use Rattle.wasm_typing_checks.specs.WasmSpecRules.Attempts.{passes};
ghost use Rattle.wasm_typing_checks.specs.WasmSpecSteps.Machine.{same_number};
ghost use Rattle.wasm_typing_checks.specs.WasmSpecSteps.Matching.{matches_storage};
ghost use Rattle.wasm_typing_checks.specs.WasmValidatorResources.Answers.{world};
ghost use Rattle.wasm_typing_arrays.specs.Segments.{segment_matches};

use wasm_readers_types::{StorageType, ValType};
use wasm_typing_checks::validator_resources::WasmModuleResources;
use wasm_typing_checks::{OperatorFault, OperatorRule};

/// Whether a type is one of numbers or vectors.
pub fn is_number(ty: ValType) -> bool
    ensures { result ≡ same_number (val_of ty) (val_of ty) }
{
    match ty {
        ValType::Ref(_) => false,
        ValType::I32 | ValType::I64 | ValType::F32 | ValType::F64 | ValType::V128 => true,
    }
}

/// Whether what one array holds may be stored in another.
pub fn is_storable<T: WasmModuleResources>(
    resources: &T,
    from: StorageType,
    to: StorageType,
) -> bool
    ensures { result ≡ matches_storage (world (T.context resources.now)) (storage_of from)
        (storage_of to) }
{
    match (from, to) {
        (StorageType::I8, StorageType::I8) => true,
        (StorageType::I16, StorageType::I16) => true,
        (StorageType::Val(from), StorageType::Val(to)) => resources.is_subtype(from, to),
        _ => false,
    }
}

/// Refuses a data segment that isn't there, by the number that the module tells in front of its
/// code.
pub fn check_data<T: WasmModuleResources>(
    resources: &T,
    data_index: u32,
) -> Result<(), OperatorFault>
    ensures ok { OnOk result
        (passes (nat_lt data_index) (T.context resources.now).data_count ≡ true) }
    ensures err { OnErr result
        (passes (nat_lt data_index) (T.context resources.now).data_count ≡ false) }
{
    match resources.data_count() {
        Some(count) => {
            if data_index < count {
                Ok(())
            } else {
                Err(OperatorFault::at(OperatorRule::UnknownData, data_index))
            }
        }
        None => Err(OperatorFault::new(OperatorRule::MissingDataCount)),
    }
}

/// Refuses an element segment that isn't there, or whose references aren't of this type.
#[tactic(auto, using(crate::proofs::ElementSegments::segments))]
pub fn check_elements<T: WasmModuleResources>(
    resources: &T,
    elem_index: u32,
    ty: ValType,
) -> Result<(), OperatorFault>
    ensures ok { OnOk result
        (segment_matches (T.context resources.now) elem_index (val_of ty) ≡ true) }
    ensures err { OnErr result
        (segment_matches (T.context resources.now) elem_index (val_of ty) ≡ false) }
{
    if is_number(ty) {
        return Err(OperatorFault::at(OperatorRule::ElementTypes, elem_index));
    }
    match resources.element_type_at(elem_index) {
        Some(segment) => {
            if resources.is_subtype(ValType::Ref(segment), ty) {
                Ok(())
            } else {
                Err(OperatorFault::at(OperatorRule::ElementTypes, elem_index))
            }
        }
        None => Err(OperatorFault::at(OperatorRule::UnknownElements, elem_index)),
    }
}
