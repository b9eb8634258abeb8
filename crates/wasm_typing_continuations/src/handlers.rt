//! Handlers of operators that resume continuations.

ghost use Rattle.std.specs.Prelude.{◌≡◌, ◌∷◌, [], ◌&&◌, ◌==◌, Some, None, is_ok, IfOk, OnErr, length, map};
ghost use Rattle.wasm_typing_control.specs.WasmReadersTypes.WasmReadersValues.SeenValues.{val_of};
ghost use Rattle.wasm_typing_control.specs.WasmOperators.Continuations.{handle_at};
ghost use Rattle.wasm_typing_control.specs.WasmOperators.SeenLists.{listed};
ghost use Rattle.wasm_typing_control.specs.WasmOperators.WasmOperatorsProposals.declared.continuations.Handle.TheVariants.{OnLabel, OnSwitch};
ghost use Rattle.wasm_typing_control.specs.WasmTypingChecks.WasmSpecSteps.Matching.{matches_vals};
ghost use Rattle.wasm_typing_control.specs.WasmTypingChecks.WasmValidatorResources.Answers.{world, signature_seen, tag_in};
ghost use Rattle.wasm_typing_continuations.specs.HandlerTypes.{all_handled};

use crate::continued::continued_last;
use std::alloc::Allocator;
use wasm_typing_control::operators::{Handle, Listed};
use wasm_typing_control::readers_types::{FuncType, ValType};
use wasm_typing_control::typing_checks::{OperatorFault, OperatorRule, match_all};
use wasm_typing_control::typing_stacks::Stacks;
use wasm_typing_control::validator_resources::WasmModuleResources;
use wasm_typing_control::{label_types, match_types};
use wasm_typing_references::front_types;

/// The type of the tag of this index.
pub(crate) fn tag_type<'a, T: WasmModuleResources>(
    resources: &'a T,
    tag: u32,
) -> Result<&'a FuncType<T::A>, OperatorFault>
    ensures ok { IfOk result (λ f. tag_in (T.context resources.now) tag
        ≡ Some (signature_seen f.now)) }
    ensures err { OnErr result (tag_in (T.context resources.now) tag ≡ None) }
{
    match resources.tag_at(tag) {
        Some(signature) => Ok(signature),
        None => Err(OperatorFault::at(OperatorRule::UnknownTag, tag)),
    }
}

/// Whether a continuation goes on from a suspension by a tag, by what the tag gives, to these
/// results.
fn goes_on<'a, T: WasmModuleResources>(
    resources: &T,
    results: &[ValType],
    suspended: &'a FuncType<T::A>,
    continued: &'a FuncType<T::A>,
) -> bool
    ensures { result ≡ (matches_vals (world (T.context resources.now))
        (signature_seen continued.now).takes (signature_seen suspended.now).gives
        && matches_vals (world (T.context resources.now)) (map val_of results.now)
        (signature_seen continued.now).gives) }
{
    match_all(resources, continued.params(), suspended.results())
        && match_all(resources, results, continued.results())
}

/// Whether the label of a handler takes what a suspension by the tag sends: what the tag takes, and
/// a continuation that goes on from there to these results.
#[tactic(auto, using(crate::proofs::HandlerClauses::handlers))]
fn check_label<A: Allocator, T: WasmModuleResources>(
    stacks: &Stacks<A>,
    resources: &T,
    results: &[ValType],
    tag: u32,
    label: u32,
) -> Result<(), OperatorFault>
    ensures { is_ok result ≡ all_handled stacks.now (T.context resources.now)
        (map val_of results.now) (OnLabel tag label ∷ []) }
{
    let suspended = match tag_type(resources, tag) {
        Ok(signature) => signature,
        Err(fault) => return Err(fault),
    };
    let types = match label_types(stacks, resources, label) {
        Some(types) => types,
        None => return Err(OperatorFault::at(OperatorRule::UnknownLabel, label)),
    };
    let continued = match continued_last(resources, types) {
        Some(signature) => signature,
        None => return Err(OperatorFault::at(OperatorRule::NoContinuation, label)),
    };
    if !goes_on(resources, results, suspended, continued) {
        return Err(OperatorFault::at(OperatorRule::ContinuationSignatures, label));
    }
    if !match_types(resources, suspended.params(), front_types(types)) {
        return Err(OperatorFault::at(OperatorRule::HandleTypes, label));
    }
    Ok(())
}

/// Whether a tag takes nothing, and what it gives matches these results.
fn is_of_switches<'a, T: WasmModuleResources>(
    resources: &T,
    results: &[ValType],
    tag: &'a FuncType<T::A>,
) -> bool
    ensures { result ≡ (length (signature_seen tag.now).takes == 0 && matches_vals
        (world (T.context resources.now)) (signature_seen tag.now).gives (map val_of results.now)) }
{
    tag.params().is_empty() && match_all(resources, tag.results(), results)
}

/// Whether a switch by the tag may take the place of what gives these results.
#[tactic(auto, using(crate::proofs::HandlerClauses::handlers))]
fn check_switch<A: Allocator, T: WasmModuleResources>(
    _stacks: &Stacks<A>,
    resources: &T,
    results: &[ValType],
    tag: u32,
) -> Result<(), OperatorFault>
    ensures { is_ok result ≡ all_handled _stacks.now (T.context resources.now)
        (map val_of results.now) (OnSwitch tag ∷ []) }
{
    match tag_type(resources, tag) {
        Ok(signature) => {
            if is_of_switches(resources, results, signature) {
                Ok(())
            } else {
                Err(OperatorFault::at(OperatorRule::SwitchTag, tag))
            }
        }
        Err(fault) => Err(fault),
    }
}

/// Whether a handler suits a continuation that gives these results.
fn check_handler<A: Allocator, T: WasmModuleResources>(
    stacks: &Stacks<A>,
    resources: &T,
    results: &[ValType],
    handler: Handle,
) -> Result<(), OperatorFault>
    ensures { is_ok result ≡ all_handled stacks.now (T.context resources.now)
        (map val_of results.now) (handler ∷ []) }
{
    match handler {
        Handle::OnLabel { tag, label } => check_label(stacks, resources, results, tag, label),
        Handle::OnSwitch { tag } => check_switch(stacks, resources, results, tag),
    }
}

/// Whether each handler suits a continuation that gives these results.
#[tactic(auto, using(crate::proofs::HandlerClauses::lists))]
pub(crate) fn check_handlers<'a, A: Allocator, T: WasmModuleResources>(
    stacks: &Stacks<A>,
    resources: &T,
    results: &[ValType],
    handlers: Listed<'a, Handle>,
) -> Result<(), OperatorFault>
    ensures { is_ok result ≡ all_handled stacks.now (T.context resources.now)
        (map val_of results.now) (listed handle_at handlers.entry) }
{
    let mut left = handlers.items();
    'checking: while let Some(handler) = left.next() {
        match check_handler(stacks, resources, results, handler) {
            Ok(()) => {}
            Err(fault) => return Err(fault),
        }
    }
    Ok(())
}
