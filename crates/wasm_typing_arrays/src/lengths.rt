//! The length of an array.

ghost use Rattle.std.specs.Prelude.{◌≡◌, true};
ghost use Rattle.wasm_spec.specs.Syntax.{abstract_heap};
ghost use Rattle.wasm_operators_plain.specs.declared.arrays.ArrayOperator.TheVariants.{ArrayLen};
ghost use Rattle.wasm_readers_types.specs.WasmReadersValues.SeenValues.{abstract_heap_of, ref_of};
ghost use Rattle.wasm_typing_checks.specs.WasmSpecSteps.Shapes.{array_shape};
ghost use Rattle.wasm_typing_checks.specs.WasmValidatorResources.Answers.{world};
ghost use Rattle.wasm_typing_checks.specs.WasmTypingStacks.BodyStacks.{Kept};
ghost use Rattle.wasm_typing_checks.specs.WasmTypingStacks.SeenOperands.{operand_seen};
ghost use Rattle.wasm_typing_checks.specs.Steps.{Performs};
ghost use Rattle.wasm_typing_arrays.specs.Lengths.{is_reference_below};

use std::alloc::Allocator;
use wasm_operators_plain::NumberType;
use wasm_operators_plain::readers_errors::WasmFeatures;
use wasm_readers_types::{AbstractHeapType, HeapType, RefType, ValType};
use wasm_typing_checks::typing_stacks::{Operand, Stacks, TypeWord, Word};
use wasm_typing_checks::validator_resources::WasmModuleResources;
use wasm_typing_checks::{OperatorError, OperatorFault, OperatorRule, has, look};

/// A reference, or null, to an abstract heap type.
fn reference_to(shared: bool, heap: AbstractHeapType) -> RefType
    ensures { ref_of result ≡ record
        { nullable = true; heap = abstract_heap shared (abstract_heap_of heap) } }
{
    RefType::new(true, HeapType::Abstract { shared, ty: heap }).unwrap()
}

/// The refusal of an operand that isn't a reference below this abstract heap type.
fn not_below(heap: AbstractHeapType) -> OperatorFault {
    OperatorFault {
        rule: OperatorRule::ReferenceBelow,
        number: 0,
        expected: TypeWord::reference(reference_to(false, heap)),
        found: None,
    }
}

/// Whether an operand is a reference below this abstract heap type, shared or not.
#[tactic(auto, using(crate::proofs::HeapBounds::kinds))]
fn is_below<T: WasmModuleResources>(resources: &T, operand: Operand, heap: AbstractHeapType) -> bool
    ensures { result ≡ is_reference_below (world (T.context resources.now)) (abstract_heap_of heap)
        (operand_seen operand) }
{
    match operand {
        Operand::Known(ValType::Ref(known)) => {
            let shared = resources.is_shared(known);
            resources.is_subtype(
                ValType::Ref(known),
                ValType::Ref(reference_to(shared, heap)),
            )
        }
        Operand::Known(_) => false,
        Operand::Open(open) => resources.is_subtype(
            ValType::Ref(reference_to(false, open)),
            ValType::Ref(reference_to(false, heap)),
        ),
        Operand::Bottom | Operand::BottomReference => true,
    }
}

/// `array.len`: takes an array of any type, and gives its length (Core Specification 3.0,
/// Validation, Aggregate Instructions).
#[tactic(auto, using(wasm_typing_checks::proofs::ActionSteps::acts, crate::proofs::HeapBounds::measures))]
pub fn array_len<A: Allocator, T: WasmModuleResources>(
    stacks: &mut Stacks<A>,
    resources: &T,
) -> Result<(), OperatorError>
    ensures took { Performs result (T.context resources.now)
        (array_shape ArrayLen) stacks.old stacks.new }
    ensures same { Kept stacks.old stacks.new }
{
    if !has(stacks, WasmFeatures::GC) {
        return Err(OperatorError::Refused(OperatorFault::new(OperatorRule::Gc)));
    }
    let (operand, taken) = match look(stacks, 0) {
        Some(found) => found,
        None => return Err(OperatorError::Refused(not_below(AbstractHeapType::Array))),
    };
    if !is_below(resources, operand.seen(), AbstractHeapType::Array) {
        return Err(OperatorError::Refused(not_below(AbstractHeapType::Array)));
    }
    match stacks.exchange(taken, Word::number(NumberType::I32)) {
        Ok(()) => Ok(()),
        Err(_) => Err(OperatorError::OutOfMemory),
    }
}
