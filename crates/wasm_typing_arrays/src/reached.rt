//! Array types that a body reaches.

ghost use Rattle.std.specs.Prelude.{◌≡◌, Some, None, true, false, slice_get, IfOk, OnOk, OnErr};
ghost use Rattle.wasm_readers_types.specs.WasmReadersValues.SeenValues.{index_of, field_of};
ghost use Rattle.wasm_typing_checks.specs.WasmSpecSteps.Actions.{gc, has, reaches_type, element_is_mutable};
ghost use Rattle.wasm_typing_checks.specs.Steps.{held};
ghost use Rattle.wasm_typing_checks.specs.DeclaredTypes.{element_in, Barred};

use std::alloc::Allocator;
use wasm_operators_plain::readers_errors::WasmFeatures;
use wasm_readers_types::{CompositeInnerType, FieldType, PackedIndex};
use wasm_typing_checks::typing_stacks::Stacks;
use wasm_typing_checks::validator_resources::WasmModuleResources;
use wasm_typing_checks::{OperatorFault, OperatorRule, has, identity, reaches};

/// What the places of arrays hold, and which array type they are of.
#[derive(Clone, Copy)]
pub struct Elements {
    pub identity: PackedIndex,
    pub ty: FieldType,
}

/// What arrays of the type of this type index hold.
#[tactic(auto, using(wasm_typing_checks::proofs::ActionSteps::acts, wasm_typing_checks::proofs::IndexedTypes::reaching))]
pub fn reach_elements<A: Allocator, T: WasmModuleResources>(
    stacks: &Stacks<A>,
    resources: &T,
    type_index: u32,
) -> Result<Elements, OperatorFault>
    ensures identity { IfOk result
        (λ e. Some (index_of e.identity) ≡ slice_get (T.context resources.now).types type_index) }
    ensures element { IfOk result
        (λ e. element_in (T.context resources.now) type_index ≡ Some (field_of e.ty)) }
    ensures on { OnOk result (held stacks.now (T.context resources.now) (has gc) ≡ true) }
    ensures reached { OnOk result
        (held stacks.now (T.context resources.now) (reaches_type type_index) ≡ true) }
    ensures barred { OnErr result (Barred stacks.now (T.context resources.now) gc type_index
        (element_in (T.context resources.now) type_index ≡ None)) }
{
    if !has(stacks, WasmFeatures::GC) {
        return Err(OperatorFault::new(OperatorRule::Gc));
    }
    let Some(identity) = identity(resources, type_index) else {
        return Err(OperatorFault::at(OperatorRule::UnknownType, type_index));
    };
    let Some(sub) = resources.sub_type_at(type_index) else {
        return Err(OperatorFault::at(OperatorRule::UnknownType, type_index));
    };
    match &sub.composite_type.inner {
        CompositeInnerType::Array(ty) => {
            if !reaches(stacks, sub.composite_type.shared) {
                return Err(OperatorFault::at(OperatorRule::Shared, type_index));
            }
            Ok(Elements { identity, ty: ty.0 })
        }
        _ => Err(OperatorFault::at(OperatorRule::NotAnArray, type_index)),
    }
}

/// The same, where arrays of the type can be written.
#[tactic(auto, using(crate::proofs::Elements::writing))]
pub fn reach_mutable<A: Allocator, T: WasmModuleResources>(
    stacks: &Stacks<A>,
    resources: &T,
    type_index: u32,
) -> Result<Elements, OperatorFault>
    ensures identity { IfOk result
        (λ e. Some (index_of e.identity) ≡ slice_get (T.context resources.now).types type_index) }
    ensures element { IfOk result
        (λ e. element_in (T.context resources.now) type_index ≡ Some (field_of e.ty)) }
    ensures on { OnOk result (held stacks.now (T.context resources.now) (has gc) ≡ true) }
    ensures reached { OnOk result
        (held stacks.now (T.context resources.now) (reaches_type type_index) ≡ true) }
    ensures mutable { OnOk result
        (held stacks.now (T.context resources.now) (element_is_mutable type_index) ≡ true) }
    ensures barred { OnErr result (Barred stacks.now (T.context resources.now) gc type_index
        (held stacks.now (T.context resources.now) (element_is_mutable type_index) ≡ false)) }
{
    match reach_elements(stacks, resources, type_index) {
        Ok(array) => {
            if array.ty.mutable {
                Ok(array)
            } else {
                Err(OperatorFault::at(OperatorRule::ImmutableArray, type_index))
            }
        }
        Err(fault) => Err(fault),
    }
}
