//! Lists of types that match.

ghost use Rattle.std.specs.Prelude.{◌≡◌, true, map};
ghost use Rattle.wasm_validator_resources.specs.WasmSpec.MatchingTests.{matches_val};
ghost use Rattle.wasm_validator_resources.specs.WasmReadersTypes.WasmReadersValues.SeenValues.{val_of};
ghost use Rattle.wasm_typing_stacks.specs.WasmSpecSteps.Matching.{matches_vals};
ghost use Rattle.wasm_validator_resources.specs.Answers.{world};

use wasm_validator_resources::WasmModuleResources;
use wasm_validator_resources::readers_types::ValType;

/// Whether a type is the same as another.
#[inline(always)]
fn is_same_type(ty: &ValType, other: &ValType) -> bool
    ensures { result ≡ true → val_of ty.now ≡ val_of other.now }
{
    *ty == *other
}

/// Whether a type matches another. Those that are the same as two that match, and one and the same,
/// aren't looked up in the list of types. They are compared where they stand.
#[inline(always)]
#[tactic(auto, using(crate::proofs::OperandMatches::same_types))]
fn match_next<T: WasmModuleResources>(
    resources: &T,
    ty: &ValType,
    other: &ValType,
    last: &ValType,
    last_other: &ValType,
) -> bool
    requires { matches_val (world (T.context resources.now)) (val_of last.now)
        (val_of last_other.now) ≡ true }
    ensures { result ≡ matches_val (world (T.context resources.now)) (val_of ty.now)
        (val_of other.now) }
{
    if is_same_type(ty, last) && is_same_type(other, last_other) {
        return true;
    }
    if is_same_type(ty, other) {
        return true;
    }
    resources.is_subtype(*ty, *other)
}

/// Whether these types match those, place by place, and are equally many.
#[tactic(auto, using(crate::proofs::ListComparisons::lists))]
pub fn match_all<T: WasmModuleResources>(
    resources: &T,
    types: &[ValType],
    others: &[ValType],
) -> bool
    ensures { result ≡ matches_vals (world (T.context resources.now)) (map val_of types.now)
        (map val_of others.now) }
{
    if types.len() != others.len() {
        return false;
    }
    if types.is_empty() {
        return true;
    }
    // a type matches itself
    let number = ValType::I32;
    if !match_next(resources, &types[0], &others[0], &number, &number) {
        return false;
    }
    'matching: for i in 1..types.len() {
        let last = &types[i - 1];
        let last_other = &others[i - 1];
        if !match_next(resources, &types[i], &others[i], last, last_other) {
            return false;
        }
    }
    true
}
