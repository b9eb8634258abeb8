//! Whether an operand is of a type.

ghost use Rattle.std.specs.Prelude.{◌≡◌};
ghost use Rattle.wasm_typing_stacks.specs.SeenTypeWords.{val_in};
ghost use Rattle.wasm_validator_resources.specs.WasmReadersTypes.WasmReadersValues.SeenValues.{val_of, abstract_heap_of};
ghost use Rattle.wasm_typing_stacks.specs.WasmSpecSteps.Machine.{matches_operand, open_reference};
ghost use Rattle.wasm_typing_stacks.specs.SeenOperands.{operand_of, operand_seen};
ghost use Rattle.wasm_validator_resources.specs.Answers.{world};

use wasm_typing_stacks::{Operand, TypeWord, Word};
use wasm_validator_resources::WasmModuleResources;
use wasm_validator_resources::readers_types::{AbstractHeapType, HeapType, RefType, ValType};

/// Whether a reference to an abstract heap type whose shared flag is open is of a type.
#[tactic(auto, using(crate::proofs::OperandMatches::opens))]
fn matches_open<T: WasmModuleResources>(resources: &T, heap: AbstractHeapType, ty: ValType) -> bool
    ensures { result ≡ matches_operand (world (T.context resources.now))
        (open_reference (abstract_heap_of heap)) (val_of ty) }
{
    match ty {
        ValType::Ref(expected) => {
            let shared = resources.is_shared(expected);
            match RefType::new(false, HeapType::Abstract { shared, ty: heap }) {
                Some(open) => resources.is_subtype(ValType::Ref(open), ty),
                None => unreachable!(),
            }
        }
        ValType::I32 | ValType::I64 | ValType::F32 | ValType::F64 | ValType::V128 => false,
    }
}

/// Whether an operand is of a type that isn't known to be its own.
#[inline(never)]
#[tactic(auto, using(crate::proofs::OperandMatches::kinds))]
fn matches_otherwise<T: WasmModuleResources>(resources: &T, operand: Operand, ty: ValType) -> bool
    ensures { result ≡ matches_operand (world (T.context resources.now))
        (operand_seen operand) (val_of ty) }
{
    match operand {
        Operand::Known(known) => resources.is_subtype(known, ty),
        Operand::Bottom => true,
        Operand::BottomReference => match ty {
            ValType::Ref(_) => true,
            ValType::I32 | ValType::I64 | ValType::F32 | ValType::F64 | ValType::V128 => false,
        },
        Operand::Open(heap) => matches_open(resources, heap, ty),
    }
}

/// Whether an operand is of a type.
#[inline(always)]
#[tactic(auto, using(crate::proofs::OperandMatches::matchings))]
pub fn matches<T: WasmModuleResources>(resources: &T, operand: Word, ty: TypeWord) -> bool
    ensures { result ≡ matches_operand (world (T.context resources.now))
        (operand_of operand) (val_in ty) }
{
    operand.is(ty) || matches_otherwise(resources, operand.seen(), ty.ty())
}
