//! Type indices of items, and the types that they stand for.

ghost use Rattle.std.specs.Prelude.{◌≡◌, ◌<◌, length, is_ok, IfOk, IfErr, IsTrue};
ghost use Rattle.std.specs.declared.option.Option.TheVariants.{Some};
ghost use Rattle.wasm_spec.specs.Matching.{is_shared_type};
ghost use Rattle.wasm_spec.specs.Trees.{declared};
ghost use Rattle.wasm_validator_resources.specs.WasmSpecRules.IndexSpaces.{type_at};
ghost use Rattle.wasm_readers_types.specs.WasmReadersValues.SeenValues.{ref_of, val_of};
ghost use Rattle.wasm_validator_checks.specs.Answers.{IsPlainRefusalAt};
ghost use Rattle.wasm_validator_canonical.specs.Indices.{number_in};
ghost use Rattle.wasm_validator_checks.specs.ModuleTypes.{AreKnown, IsSubTypeAt, IsFuncTypeAt, module_types, arity_at, func_arity};
ghost use Rattle.wasm_validator_checks.specs.Items.{is_in_range, is_ref_in_range, is_val_in_range, is_shared_ref_over, is_shared_val_over, is_function};
ghost use Rattle.wasm_readers.specs.WasmReadersErrors.Refusals.{refused};
ghost use Rattle.wasm_validator_checks.specs.ItemRefusals.{told_of_function, told_of_heap_index, told_of_index, told_of_val_index};

use std::alloc::Allocator;
use wasm_readers::readers_errors::{Fault, Refusal};
use wasm_readers_types::{
    CompositeInnerType, CoreTypeId, FuncType, HeapType, RefType, SubType, UnpackedIndex, ValType,
};
use wasm_validator_type_list::TypeList;

/// Accepts an index of one of so many types of a module.
fn check_index(count: usize, index: UnpackedIndex, offset: u64) -> Result<(), Refusal>
    ensures allowed { is_ok result ≡ is_in_range count index }
    ensures refusal { IfErr result (IsPlainRefusalAt offset) }
    ensures told { refused result ≡ told_of_index offset count index }
{
    match index {
        UnpackedIndex::Module(number) => {
            if (number as usize) < count {
                Ok(())
            } else {
                Err(Refusal::new(Fault::UnknownType(number), offset))
            }
        }
        UnpackedIndex::RecGroup(_) | UnpackedIndex::Id(_) => {
            Err(Refusal::new(Fault::UnknownType(0), offset))
        }
    }
}

/// Accepts a reference type whose index, if it has one, is of one of so many types of a module.
pub(crate) fn check_ref_index(count: usize, ty: RefType, offset: u64) -> Result<(), Refusal>
    ensures allowed { is_ok result ≡ is_ref_in_range count (ref_of ty) }
    ensures refusal { IfErr result (IsPlainRefusalAt offset) }
    ensures told { refused result ≡ told_of_heap_index offset count (ref_of ty).heap }
{
    match ty.heap_type() {
        HeapType::Abstract { .. } => Ok(()),
        HeapType::Concrete(index) | HeapType::Exact(index) => { check_index(count, index, offset) }
    }
}

/// Accepts a value type whose index, if it has one, is of one of so many types of a module.
pub(crate) fn check_val_index(count: usize, ty: ValType, offset: u64) -> Result<(), Refusal>
    ensures allowed { is_ok result ≡ is_val_in_range count (val_of ty) }
    ensures refusal { IfErr result (IsPlainRefusalAt offset) }
    ensures told { refused result ≡ told_of_val_index offset count (val_of ty) }
{
    match ty {
        ValType::Ref(reference) => check_ref_index(count, reference, offset),
        ValType::I32 | ValType::I64 | ValType::F32 | ValType::F64 | ValType::V128 => Ok(()),
    }
}

/// The sub type at an index of the module's types.
fn sub_type_at<'a, A: Allocator + Copy>(
    types: &'a TypeList<A>,
    ids: &[CoreTypeId],
    index: u32,
) -> &'a SubType<A>
    requires known { AreKnown types.now ids.now }
    requires in_range { index < length ids.now }
    ensures there { IsSubTypeAt types.now ids.now index result.now }
    ensures shared { result.now.composite_type.shared
        ≡ is_shared_type declared (type_at (module_types types.now ids.now) index) }
    ensures arity { func_arity result.now.composite_type.inner
        ≡ arity_at (module_types types.now ids.now) index }
{
    types.recall_promises();
    &types[ids[index as usize]]
}

/// Whether values of the type that the index stands for may be shared between threads.
fn is_index_shared<A: Allocator + Copy>(
    types: &TypeList<A>,
    ids: &[CoreTypeId],
    index: UnpackedIndex,
) -> bool
    requires known { AreKnown types.now ids.now }
    requires in_range { IsTrue (is_in_range (length ids.now) index) }
    ensures { result ≡ is_shared_type declared
        (type_at (module_types types.now ids.now) (number_in index)) }
{
    match index {
        UnpackedIndex::Module(number) => sub_type_at(types, ids, number).composite_type.shared,
        UnpackedIndex::RecGroup(_) | UnpackedIndex::Id(_) => unreachable!(),
    }
}

/// Whether values of the reference type may be shared between threads.
pub(crate) fn is_ref_shared<A: Allocator + Copy>(
    types: &TypeList<A>,
    ids: &[CoreTypeId],
    ty: RefType,
) -> bool
    requires known { AreKnown types.now ids.now }
    requires in_range { IsTrue (is_ref_in_range (length ids.now) (ref_of ty)) }
    ensures { result ≡ is_shared_ref_over (module_types types.now ids.now) (ref_of ty) }
{
    match ty.heap_type() {
        HeapType::Abstract { shared, .. } => shared,
        HeapType::Concrete(index) | HeapType::Exact(index) => is_index_shared(types, ids, index),
    }
}

/// Whether values of the type may be shared between threads. Numbers and vectors may be.
pub(crate) fn is_val_shared<A: Allocator + Copy>(
    types: &TypeList<A>,
    ids: &[CoreTypeId],
    ty: ValType,
) -> bool
    requires known { AreKnown types.now ids.now }
    requires in_range { IsTrue (is_val_in_range (length ids.now) (val_of ty)) }
    ensures { result ≡ is_shared_val_over (module_types types.now ids.now) (val_of ty) }
{
    match ty {
        ValType::I32 | ValType::I64 | ValType::F32 | ValType::F64 | ValType::V128 => true,
        ValType::Ref(reference) => is_ref_shared(types, ids, reference),
    }
}

/// The function type that the type index names (Core Specification 3.0, Validation, Modules,
/// Functions). `ids` are those of the module's types in the list `types`.
///
/// The list must have a type under each of the ids.
///
/// # Errors
///
/// Refuses, at `offset`, an index that is out of range, and one of another type.
pub fn func_type_at<'a, A: Allocator + Copy>(
    types: &'a TypeList<A>,
    ids: &[CoreTypeId],
    index: u32,
    offset: u64,
) -> Result<&'a FuncType<A>, Refusal>
    requires { AreKnown types.now ids.now }
    ensures function { is_ok result ≡ is_function (module_types types.now ids.now) index }
    ensures arity { IfOk result (λ f. arity_at (module_types types.now ids.now) index
        ≡ Some (length f.now.params, length f.now.results)) }
    ensures value { IfOk result (λ f. IsFuncTypeAt types.now ids.now index f.now) }
    ensures refusal { IfErr result (IsPlainRefusalAt offset) }
    ensures told { refused result ≡ told_of_function offset (module_types types.now ids.now) index }
{
    if index as usize >= ids.len() {
        return Err(Refusal::new(Fault::UnknownType(index), offset));
    }
    match &sub_type_at(types, ids, index).composite_type.inner {
        CompositeInnerType::Func(signature) => Ok(signature),
        _ => Err(Refusal::new(Fault::NotAFunctionType(index), offset)),
    }
}
