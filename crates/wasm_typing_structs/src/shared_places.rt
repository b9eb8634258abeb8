//! What atomic accesses take and give, and the types that they allow.

ghost use Rattle.std.specs.Prelude.{◌≡◌, ◌∷◌, ◌++◌, [], true};
ghost use Rattle.wasm_spec.specs.Syntax.{abstract_heap};
ghost use Rattle.wasm_spec.specs.MatchingTests.{matches_val};
ghost use Rattle.wasm_spec.specs.ValueTypes.{implies};
ghost use Rattle.wasm_typing_checks.specs.WasmSpecSteps.Meanings.{ref_to};
ghost use Rattle.wasm_readers_types.specs.WasmReadersValues.SeenValues.{val_of, abstract_heap_of};
ghost use Rattle.wasm_typing_checks.specs.WasmSpecSteps.Matching.{match_some};
ghost use Rattle.wasm_typing_checks.specs.WasmTypingStacks.SeenTypeWords.{val_in};
ghost use Rattle.wasm_typing_checks.specs.WasmTypingStacks.BodyStacks.{Kept};
ghost use Rattle.wasm_typing_checks.specs.WasmValidatorResources.Answers.{world};
ghost use Rattle.wasm_typing_checks.specs.SeenTypes.{types_seen, takes_seen, exchanged};
ghost use Rattle.wasm_typing_checks.specs.Steps.{Turns};
ghost use Rattle.wasm_typing_structs.specs.AtomicOperands.{allowed_of, address_seen, taken_seen, given_seen, is_writing};

use std::alloc::Allocator;
use wasm_readers_types::{AbstractHeapType, HeapType, RefType, ValType};
use wasm_typing_checks::spec_steps::Access;
use wasm_typing_checks::typing_stacks::{Stacks, TypeWord};
use wasm_typing_checks::validator_resources::WasmModuleResources;
use wasm_typing_checks::{OperatorError, Takes, ValTypes, plain};

/// The operands that say where an access goes, the last one on top.
#[derive(Clone, Copy)]
pub enum Address {
    None,
    One(TypeWord),
    Two(TypeWord, TypeWord),
}

/// Whether the access writes.
fn writes(access: Access) -> bool
    ensures { result ≡ is_writing access }
{
    match access {
        Access::Get => false,
        Access::Set | Access::Compute | Access::Exchange | Access::Compare => true,
    }
}

/// Whether the access may reach what is mutable, or isn't: what is written is.
pub fn is_writable(access: Access, mutable: bool) -> bool
    ensures { result ≡ implies (is_writing access) mutable }
{
    !writes(access) || mutable
}

/// Whether a reference type is below this abstract heap type, or the shared one of its name.
fn is_below<T: WasmModuleResources>(
    resources: &T,
    shared: bool,
    heap: AbstractHeapType,
    ty: ValType,
) -> bool
    ensures { result ≡ matches_val (world (T.context resources.now)) (val_of ty)
        (ref_to true (abstract_heap shared (abstract_heap_of heap))) }
{
    match RefType::new(true, HeapType::Abstract { shared, ty: heap }) {
        Some(above) => resources.is_subtype(ty, ValType::Ref(above)),
        None => unreachable!(),
    }
}

/// Whether the access allows that what is stored is of this type: an integer, or a reference below
/// `any`, or `eq` where it compares, or the shared ones of these.
#[tactic(auto, using(crate::proofs::AccessTypes::allowing))]
pub fn allows<T: WasmModuleResources>(
    resources: &T,
    access: Access,
    shared: bool,
    ty: ValType,
) -> bool
    ensures { result ≡ match_some (world (T.context resources.now)) (allowed_of shared access)
        (val_of ty ∷ []) }
{
    match ty {
        ValType::I32 | ValType::I64 => true,
        ValType::F32 | ValType::F64 | ValType::V128 => false,
        ValType::Ref(_) => match access {
            Access::Compute => false,
            Access::Compare => is_below(resources, shared, AbstractHeapType::Eq, ty),
            Access::Get | Access::Set | Access::Exchange => {
                is_below(resources, shared, AbstractHeapType::Any, ty)
            }
        },
    }
}

/// The operands of an access without a further one.
fn taken_without<'a>(address: Address) -> Takes<'a>
    ensures { takes_seen result ≡ address_seen address }
{
    match address {
        Address::None => Takes::None,
        Address::One(first) => Takes::One(first),
        Address::Two(first, second) => Takes::Two(first, second),
    }
}

/// The operands of an access with one operand of this type above what says where it goes.
fn taken_with<'a>(address: Address, value: TypeWord) -> Takes<'a>
    ensures { takes_seen result ≡ address_seen address ++ val_in value ∷ [] }
{
    match address {
        Address::None => Takes::One(value),
        Address::One(first) => Takes::Two(first, value),
        Address::Two(first, second) => Takes::Three(first, second, value),
    }
}

/// What an access gives.
fn given<'a>(access: Access, value: TypeWord) -> ValTypes<'a>
    ensures { types_seen result ≡ given_seen access (val_in value) }
{
    match access {
        Access::Set => ValTypes::None,
        Access::Get | Access::Compute | Access::Exchange | Access::Compare => ValTypes::One(value),
    }
}

/// Takes two operands of a type above what says where an access goes, and gives one.
fn compare<A: Allocator, T: WasmModuleResources>(
    stacks: &mut Stacks<A>,
    resources: &T,
    address: Address,
    value: TypeWord,
) -> Result<(), OperatorError>
    ensures took { Turns result (exchanged (world (T.context resources.now))
        (address_seen address ++ val_in value ∷ val_in value ∷ []) (val_in value ∷ []))
        stacks.old stacks.new }
    ensures same { Kept stacks.old stacks.new }
{
    let gives = ValTypes::One(value);
    match address {
        Address::None => plain(stacks, resources, Takes::Two(value, value), gives),
        Address::One(first) => plain(stacks, resources, Takes::Three(first, value, value), gives),
        Address::Two(first, second) => {
            let types = [first.ty(), second.ty(), value.ty(), value.ty()];
            plain(stacks, resources, Takes::Many(&types), gives)
        }
    }
}

/// Takes what an access takes, and gives what it gives. Where that can't be, all stays.
pub fn exchange<A: Allocator, T: WasmModuleResources>(
    stacks: &mut Stacks<A>,
    resources: &T,
    access: Access,
    address: Address,
    value: TypeWord,
) -> Result<(), OperatorError>
    ensures took { Turns result (exchanged (world (T.context resources.now))
        (taken_seen access (address_seen address) (val_in value)) (given_seen access (val_in value)))
        stacks.old stacks.new }
    ensures same { Kept stacks.old stacks.new }
{
    match access {
        Access::Get => plain(
            stacks,
            resources,
            taken_without(address),
            given(access, value),
        ),
        Access::Set | Access::Compute | Access::Exchange => plain(
            stacks,
            resources,
            taken_with(address, value),
            given(access, value),
        ),
        Access::Compare => compare(stacks, resources, address, value),
    }
}
