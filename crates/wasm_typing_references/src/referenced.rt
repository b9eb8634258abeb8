//! References among operands.

ghost use Rattle.std.specs.Prelude.{◌≡◌, ◌≤◌, length};
ghost use Rattle.std.specs.Option.{option_map};
ghost use Rattle.wasm_typing_control.specs.WasmTypingChecks.WasmSpecSteps.Machine.{as_reference, non_null, pop_reference};
ghost use Rattle.wasm_typing_control.specs.WasmTypingChecks.WasmTypingStacks.SeenOperands.{operand_of, operand_seen};
ghost use Rattle.wasm_typing_control.specs.WasmTypingChecks.WasmTypingStacks.BodyStacks.{state_of, below};
ghost use Rattle.wasm_typing_references.specs.SeenReferences.{reference_seen, LookedAt};

use std::alloc::Allocator;
use wasm_typing_control::readers_types::{AbstractHeapType, RefType, ValType};
use wasm_typing_control::typing_checks::{OperatorFault, OperatorRule, look};
use wasm_typing_control::typing_stacks::{Operand, Stacks, TypeWord, Word};

/// A reference among operands: of a known type, and in code that isn't reached of any reference
/// type, or of an abstract heap type whose shared flag is open, not null.
#[derive(Clone, Copy)]
pub enum Referenced {
    Known(RefType),
    Bottom,
    Open(AbstractHeapType),
}

/// An operand as a reference, if it is one.
fn as_reference(operand: Operand) -> Option<Referenced>
    ensures { option_map reference_seen result ≡ as_reference (operand_seen operand) }
{
    match operand {
        Operand::Known(ty) => match ty {
            ValType::Ref(ty) => Some(Referenced::Known(ty)),
            ValType::I32 | ValType::I64 | ValType::F32 | ValType::F64 | ValType::V128 => None,
        },
        Operand::Bottom | Operand::BottomReference => Some(Referenced::Bottom),
        Operand::Open(heap) => Some(Referenced::Open(heap)),
    }
}

/// The reference below so many operands that are taken already, and how many are taken with it
/// (Core Specification 3.0, Appendix, Validation Algorithm).
///
/// # Errors
///
/// Refuses where there is no operand, and one that is no reference.
#[tactic(auto, using(crate::proofs::NullTests::looks))]
pub fn look_reference<A: Allocator>(
    stacks: &Stacks<A>,
    taken: usize,
) -> Result<(Referenced, usize), OperatorFault>
    requires { taken ≤ length (state_of stacks.now).operands }
    ensures { LookedAt result (pop_reference (below taken (state_of stacks.now)))
        (state_of stacks.now) }
{
    match look(stacks, taken) {
        Some((operand, taken)) => match as_reference(operand.seen()) {
            Some(reference) => Ok((reference, taken)),
            None => Err(OperatorFault::new(OperatorRule::Reference)),
        },
        None => Err(OperatorFault::new(OperatorRule::AnyOperand)),
    }
}

/// The same reference, known not to be null.
pub fn non_null(reference: Referenced) -> Word
    ensures { operand_of result ≡ non_null (reference_seen reference) }
{
    match reference {
        Referenced::Known(ty) => Word::known(TypeWord::reference(ty.as_non_null())),
        Referenced::Bottom => Word::bottom_reference(),
        Referenced::Open(heap) => Word::open(heap),
    }
}
