//! Catch clauses.

ghost use Rattle.std.specs.Prelude.{◌≡◌, ◌∷◌, ◌++◌, [], is_ok, map};
ghost use Rattle.wasm_readers_types.specs.WasmReadersValues.SeenValues.{val_of};
ghost use Rattle.wasm_operators.specs.Control.{catch_at};
ghost use Rattle.wasm_operators.specs.SeenLists.{listed};
ghost use Rattle.wasm_typing_control.specs.WasmTypingChecks.WasmSpecSteps.Matching.{matches_vals};
ghost use Rattle.wasm_typing_control.specs.WasmTypingChecks.WasmSpecSteps.Shapes.{catch_checks};
ghost use Rattle.wasm_typing_control.specs.WasmTypingChecks.WasmValidatorResources.Answers.{world};
ghost use Rattle.wasm_typing_control.specs.WasmTypingChecks.SeenTypes.{types_seen};
ghost use Rattle.wasm_typing_blocks.specs.KnownBlockTypes.{all_held};
ghost use Rattle.wasm_typing_blocks.specs.ExceptionOperands.{exception_val, sends};

use crate::exceptions::thrown_types;
use std::alloc::Allocator;
use wasm_operators::{Catch, Listed};
use wasm_readers_types::{AbstractHeapType, HeapType, RefType, ValType};
use wasm_typing_control::typing_checks::{OperatorFault, OperatorRule, ValTypes, match_all};
use wasm_typing_control::typing_stacks::Stacks;
use wasm_typing_control::validator_resources::WasmModuleResources;
use wasm_typing_control::{label_types, match_types};

/// Whether these types, and one more behind them, match those of a list.
#[tactic(auto, using(crate::proofs::CatchOperands::listings))]
fn match_list_with<T: WasmModuleResources>(
    resources: &T,
    sent: &[ValType],
    last: ValType,
    types: &[ValType],
) -> bool
    ensures { result ≡ matches_vals (world (T.context resources.now))
        (map val_of sent.now ++ val_of last ∷ []) (map val_of types.now) }
{
    let count = types.len();
    if count == 0 {
        return false;
    }
    let front = &types[..count - 1];
    if !match_all(resources, sent, front) {
        return false;
    }
    resources.is_subtype(last, types[count - 1])
}

/// Whether these types, and one more behind them, match those, place by place, and are equally
/// many.
#[tactic(auto, using(crate::proofs::CatchOperands::matchings))]
fn match_sent_with<'a, T: WasmModuleResources>(
    resources: &T,
    sent: &[ValType],
    last: ValType,
    types: ValTypes<'a>,
) -> bool
    ensures { result ≡ matches_vals (world (T.context resources.now))
        (map val_of sent.now ++ val_of last ∷ []) (types_seen types.entry) }
{
    match types {
        ValTypes::None => false,
        ValTypes::One(ty) => sent.is_empty() && resources.is_subtype(last, ty.ty()),
        ValTypes::Many(types) => match_list_with(resources, sent, last, types),
    }
}

/// A reference to an exception.
#[tactic(auto, using(crate::proofs::CatchOperands::exceptions))]
fn exception() -> ValType
    ensures { val_of result ≡ exception_val }
{
    let heap = HeapType::Abstract {
        shared: false,
        ty: AbstractHeapType::Exn,
    };
    match RefType::new(false, heap) {
        Some(ty) => ValType::Ref(ty),
        None => unreachable!(),
    }
}

/// Whether a label takes these types.
#[tactic(auto, using(crate::proofs::CatchOperands::sendings))]
fn check_sent<A: Allocator, T: WasmModuleResources>(
    stacks: &Stacks<A>,
    resources: &T,
    sent: &[ValType],
    label: u32,
) -> Result<(), OperatorFault>
    ensures { is_ok result ≡ sends stacks.now (T.context resources.now)
        (map val_of sent.now) label }
{
    match label_types(stacks, resources, label) {
        Some(types) => {
            if match_types(resources, sent, types) {
                Ok(())
            } else {
                Err(OperatorFault::at(OperatorRule::CatchTypes, label))
            }
        }
        None => Err(OperatorFault::at(OperatorRule::UnknownLabel, label)),
    }
}

/// Whether a label takes these types, and a reference to an exception.
#[tactic(auto, using(crate::proofs::CatchOperands::sendings))]
fn check_sent_with_reference<A: Allocator, T: WasmModuleResources>(
    stacks: &Stacks<A>,
    resources: &T,
    sent: &[ValType],
    label: u32,
) -> Result<(), OperatorFault>
    ensures { is_ok result ≡ sends stacks.now (T.context resources.now)
        (map val_of sent.now ++ exception_val ∷ []) label }
{
    match label_types(stacks, resources, label) {
        Some(types) => {
            if match_sent_with(resources, sent, exception(), types) {
                Ok(())
            } else {
                Err(OperatorFault::at(OperatorRule::CatchTypes, label))
            }
        }
        None => Err(OperatorFault::at(OperatorRule::UnknownLabel, label)),
    }
}

/// Whether the label of a catch clause takes what the clause sends.
#[tactic(auto, using(crate::proofs::CatchClauses::clauses))]
fn check_catch<A: Allocator, T: WasmModuleResources>(
    stacks: &Stacks<A>,
    resources: &T,
    clause: Catch,
) -> Result<(), OperatorFault>
    ensures { is_ok result ≡ all_held stacks.now (T.context resources.now)
        (catch_checks (clause ∷ [])) }
{
    match clause {
        Catch::One { tag, label } => match thrown_types(resources, tag) {
            Ok(types) => check_sent(stacks, resources, types, label),
            Err(fault) => Err(fault),
        },
        Catch::OneRef { tag, label } => match thrown_types(resources, tag) {
            Ok(types) => check_sent_with_reference(stacks, resources, types, label),
            Err(fault) => Err(fault),
        },
        Catch::All { label } => check_sent(stacks, resources, &[], label),
        Catch::AllRef { label } => check_sent_with_reference(stacks, resources, &[], label),
    }
}

/// Whether the label of each catch clause takes what the clause sends.
#[tactic(auto, using(crate::proofs::CatchClauses::lists))]
pub(crate) fn check_catches<'a, A: Allocator, T: WasmModuleResources>(
    stacks: &Stacks<A>,
    resources: &T,
    clauses: Listed<'a, Catch>,
) -> Result<(), OperatorFault>
    ensures { is_ok result ≡ all_held stacks.now (T.context resources.now)
        (catch_checks (listed catch_at clauses.entry)) }
{
    let mut left = clauses.items();
    'checking: while let Some(clause) = left.next() {
        match check_catch(stacks, resources, clause) {
            Ok(()) => {}
            Err(fault) => return Err(fault),
        }
    }
    Ok(())
}
