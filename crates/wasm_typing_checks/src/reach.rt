//! What a body may reach, and what addresses it.

ghost use Rattle.std.specs.Prelude.{◌≡◌, ◌&&◌};
ghost use Rattle.wasm_validator_resources.specs.WasmSpec.ValueTypes.{implies};
ghost use Rattle.wasm_validator_resources.specs.WasmReadersErrors.WasmReadersFeatures.ProposalFlags.{has_flag};
ghost use Rattle.wasm_validator_resources.specs.WasmReadersTypes.WasmReadersValues.declared.indices.UnpackedIndex.{UnpackedIndex};
ghost use Rattle.wasm_typing_stacks.specs.SeenTypeWords.{val_in};
ghost use Rattle.wasm_typing_stacks.specs.WasmSpecSteps.Meanings.{address as address_by};

use bitflags::Flags;
use std::alloc::Allocator;
use wasm_typing_stacks::operators_plain::NumberType;
use wasm_typing_stacks::{Stacks, TypeWord};
use wasm_validator_resources::readers_errors::WasmFeatures;

/// Whether a proposal is on.
#[inline(always)]
pub fn has<A: Allocator>(stacks: &Stacks<A>, feature: WasmFeatures) -> bool
    ensures { result ≡ has_flag feature.0 stacks.now.features }
{
    stacks.features.contains(feature)
}

/// Whether what is shared, or isn't, may be reached from the body: a shared function reaches only
/// what is shared.
#[inline(always)]
pub fn reaches<A: Allocator>(stacks: &Stacks<A>, shared: bool) -> bool
    ensures { result ≡ implies stacks.now.is_shared shared }
{
    !stacks.is_shared || shared
}

/// What addresses a table or a memory, of 64 bits or of 32.
#[inline(always)]
pub fn address(is_64: bool) -> TypeWord
    ensures { val_in result ≡ address_by {R = UnpackedIndex} is_64 }
{
    if is_64 {
        TypeWord::number(NumberType::I64)
    } else {
        TypeWord::number(NumberType::I32)
    }
}

/// The lesser of two addresses: of 64 bits where both are.
#[inline(always)]
pub fn lesser(to: bool, from: bool) -> TypeWord
    ensures { val_in result ≡ address_by {R = UnpackedIndex} (to && from) }
{
    address(to && from)
}
