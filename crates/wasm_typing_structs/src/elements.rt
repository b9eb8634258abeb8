//! Array types that a body reaches.

ghost use Rattle.std.specs.Prelude.{◌≡◌, Some, None, true, slice_get, IfOk, OnOk, OnErr};
ghost use Rattle.wasm_readers_types.specs.WasmReadersValues.SeenValues.{index_of, field_of};
ghost use Rattle.wasm_typing_checks.specs.WasmSpecSteps.Actions.{gc, has, reaches_type};
ghost use Rattle.wasm_typing_checks.specs.Steps.{held};
ghost use Rattle.wasm_typing_checks.specs.DeclaredTypes.{element_in, Barred};

use crate::reached::Member;
use std::alloc::Allocator;
use wasm_operators_plain::readers_errors::WasmFeatures;
use wasm_readers_types::CompositeInnerType;
use wasm_typing_checks::typing_stacks::Stacks;
use wasm_typing_checks::validator_resources::WasmModuleResources;
use wasm_typing_checks::{OperatorFault, OperatorRule, has, identity, reaches};

/// What arrays of the type of this type index hold.
#[tactic(auto, using(wasm_typing_checks::proofs::ActionSteps::acts, wasm_typing_checks::proofs::IndexedTypes::reaching))]
pub fn reach_element<A: Allocator, T: WasmModuleResources>(
    stacks: &Stacks<A>,
    resources: &T,
    type_index: u32,
) -> Result<Member, OperatorFault>
    ensures identity { IfOk result (λ m. Some (index_of m.identity)
        ≡ slice_get (T.context resources.now).types type_index) }
    ensures element { IfOk result
        (λ m. element_in (T.context resources.now) type_index ≡ Some (field_of m.ty)) }
    ensures on { OnOk result (held stacks.now (T.context resources.now) (has gc) ≡ true) }
    ensures reached { OnOk result
        (held stacks.now (T.context resources.now) (reaches_type type_index) ≡ true) }
    ensures barred { OnErr result (Barred stacks.now (T.context resources.now) gc type_index
        (element_in (T.context resources.now) type_index ≡ None)) }
{
    if !has(stacks, WasmFeatures::GC) {
        return Err(OperatorFault::new(OperatorRule::Gc));
    }
    let Some(identity) = identity(resources, type_index) else {
        return Err(OperatorFault::at(OperatorRule::UnknownType, type_index));
    };
    let Some(sub) = resources.sub_type_at(type_index) else {
        return Err(OperatorFault::at(OperatorRule::UnknownType, type_index));
    };
    match &sub.composite_type.inner {
        CompositeInnerType::Array(ty) => {
            if !reaches(stacks, sub.composite_type.shared) {
                return Err(OperatorFault::at(OperatorRule::Shared, type_index));
            }
            Ok(Member { identity, ty: ty.0 })
        }
        _ => Err(OperatorFault::at(OperatorRule::NotAnArray, type_index)),
    }
}
