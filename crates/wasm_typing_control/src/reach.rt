//! What a body may call.

ghost use Rattle.std.specs.Prelude.{◌≡◌, Some, None, IfOk, OnErr};
ghost use Rattle.std.specs.Option.{option_map};
ghost use Rattle.wasm_typing_numbers.specs.WasmTypingStacks.SeenTypeWords.{val_in};
ghost use Rattle.wasm_typing_numbers.specs.WasmTypingChecks.WasmValidatorResources.WasmSpecRules.Signatures.{resolve_val};
ghost use Rattle.wasm_typing_numbers.specs.WasmSpecSteps.Shapes.{nullable_to};
ghost use Rattle.wasm_typing_numbers.specs.WasmTypingChecks.WasmValidatorResources.Answers.{signature_seen};
ghost use Rattle.wasm_typing_control.specs.Callees.{type_in, function_in};

use std::alloc::Allocator;
use wasm_readers_types::{CompositeInnerType, FuncType, HeapType, RefType, UnpackedIndex};
use wasm_typing_numbers::typing_checks::{OperatorFault, OperatorRule, reaches};
use wasm_typing_numbers::typing_stacks::{Stacks, TypeWord};
use wasm_typing_numbers::validator_resources::WasmModuleResources;

/// The function type of this type index.
///
/// # Errors
///
/// Refuses an unknown type, one that isn't a function's, and one that isn't shared where the body
/// is a shared function's.
#[inline(always)]
pub fn type_reached<'a, A: Allocator, T: WasmModuleResources>(
    stacks: &Stacks<A>,
    resources: &'a T,
    type_index: u32,
) -> Result<&'a FuncType<T::A>, OperatorFault>
    ensures ok { IfOk result (λ f. type_in (T.context resources.now) stacks.now.is_shared type_index
        ≡ Some (signature_seen f.now)) }
    ensures err { OnErr result (type_in (T.context resources.now)
        stacks.now.is_shared type_index ≡ None) }
{
    match resources.sub_type_at(type_index) {
        Some(ty) => match &ty.composite_type.inner {
            CompositeInnerType::Func(signature) => {
                if reaches(stacks, ty.composite_type.shared) {
                    Ok(signature)
                } else {
                    Err(OperatorFault::at(OperatorRule::Shared, type_index))
                }
            }
            _ => Err(OperatorFault::at(OperatorRule::NotAFunction, type_index)),
        },
        None => Err(OperatorFault::at(OperatorRule::UnknownType, type_index)),
    }
}

/// The type of the function of this index.
///
/// # Errors
///
/// Refuses an unknown function, and one whose type isn't shared where the body is a shared
/// function's.
#[inline(always)]
pub fn function_reached<'a, A: Allocator, T: WasmModuleResources>(
    stacks: &Stacks<A>,
    resources: &'a T,
    function_index: u32,
) -> Result<&'a FuncType<T::A>, OperatorFault>
    ensures ok { IfOk result (λ f. function_in (T.context resources.now) stacks.now.is_shared
        function_index ≡ Some (signature_seen f.now)) }
    ensures err { OnErr result (function_in (T.context resources.now) stacks.now.is_shared
        function_index ≡ None) }
{
    match resources.type_index_of_function(function_index) {
        Some(type_index) => type_reached(stacks, resources, type_index),
        None => Err(OperatorFault::at(OperatorRule::UnknownFunction, function_index)),
    }
}

/// A reference, or null, to a value of the type of this index, if there is one.
pub fn null_or<T: WasmModuleResources>(resources: &T, type_index: u32) -> Option<TypeWord>
    ensures { option_map val_in result ≡ resolve_val (T.context resources.now).types
        (nullable_to type_index) }
{
    let mut heap = HeapType::Concrete(UnpackedIndex::Module(type_index));
    match resources.check_heap_type(&mut heap, 0) {
        Ok(()) => Some(TypeWord::reference(RefType::new(true, heap).unwrap())),
        Err(_) => None,
    }
}
