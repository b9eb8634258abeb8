//! Number types by features.

ghost use Rattle.std.specs.Prelude.{◌≡◌, ℕ};
ghost use Rattle.wasm_readers_errors.specs.WasmSpec.ValueTypes.{allows_val};
ghost use Rattle.wasm_typing_checks.specs.WasmSpecRules.FeatureFlags.{features_of};
ghost use Rattle.wasm_typing_checks.specs.WasmSpecSteps.Shapes.{number_type};

use bitflags::Flags;
use std::alloc::Allocator;
use wasm_operators::operators_plain::NumberType;
use wasm_readers_errors::WasmFeatures;
use wasm_typing_checks::typing_stacks::Stacks;

/// Whether the features allow this number type.
#[inline(always)]
pub fn allows_number<A: Allocator>(stacks: &Stacks<A>, ty: NumberType) -> bool
    ensures { result ≡ allows_val {R = ℕ} (features_of stacks.now.features) (number_type ty) }
{
    match ty {
        NumberType::I32 | NumberType::I64 => true,
        NumberType::F32 | NumberType::F64 => stacks.features.contains(WasmFeatures::FLOATS),
    }
}
