//! What fields hold.

ghost use Rattle.std.specs.Prelude.{◌≡◌};
ghost use Rattle.wasm_validator_resources.specs.WasmSpec.MatchingTests.{same_flag as agree};
ghost use Rattle.wasm_validator_resources.specs.WasmReadersTypes.WasmReadersValues.SeenValues.{val_of, storage_of};
ghost use Rattle.wasm_typing_stacks.specs.WasmSpecSteps.Meanings.{has_default as defaults, is_packed as packed, unpack as unpacked_as};

use wasm_validator_resources::readers_types::{StorageType, ValType};

/// What a field holds as a value: an integer of 32 bits, where it is packed.
pub fn unpack(storage: StorageType) -> ValType
    ensures { val_of result ≡ unpacked_as (storage_of storage) }
{
    match storage {
        StorageType::I8 | StorageType::I16 => ValType::I32,
        StorageType::Val(ty) => ty,
    }
}

/// Whether a field is one of integers of 8 or of 16 bits.
pub fn is_packed(storage: StorageType) -> bool
    ensures { result ≡ packed (storage_of storage) }
{
    match storage {
        StorageType::I8 | StorageType::I16 => true,
        StorageType::Val(_) => false,
    }
}

/// Whether a type has a default: a number or a vector, or a reference that may be null.
pub fn has_default(ty: ValType) -> bool
    ensures { result ≡ defaults (val_of ty) }
{
    match ty {
        ValType::Ref(reference) => reference.is_nullable(),
        ValType::I32 | ValType::I64 | ValType::F32 | ValType::F64 | ValType::V128 => true,
    }
}

/// Whether two flags are both set, or neither is.
pub fn same_flag(first: bool, second: bool) -> bool
    ensures { result ≡ agree first second }
{
    if first { second } else { !second }
}
