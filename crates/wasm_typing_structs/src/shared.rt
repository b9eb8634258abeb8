//! Atomic accesses to globals, tables, structures and arrays, and `pause`.

ghost use Rattle.std.specs.Prelude.{◌≡◌, [], Some, None, slice_get, IfOk, OnOk, OnErr, false, true};
ghost use Rattle.wasm_readers_types.specs.SeenExterns.{global_of};
ghost use Rattle.wasm_readers_types.specs.WasmReadersValues.SeenValues.{index_of, field_of};
ghost use Rattle.wasm_typing_checks.specs.WasmSpecSteps.Actions.{gc, has, reaches_type};
ghost use Rattle.wasm_typing_checks.specs.WasmSpecSteps.Shapes.{sharing_shape, shared_shape};
ghost use Rattle.wasm_typing_checks.specs.WasmSpecSteps.SharedForm.TheVariants.{Global, Table};
ghost use Rattle.wasm_typing_checks.specs.WasmTypingStacks.BodyStacks.{Kept};
ghost use Rattle.wasm_typing_checks.specs.WasmValidatorResources.Answers.{world};
ghost use Rattle.wasm_typing_checks.specs.Steps.{Performs, held};
ghost use Rattle.wasm_typing_checks.specs.DeclaredTypes.{Barred};
ghost use Rattle.wasm_typing_structs.specs.AtomicOperands.{address_seen, place_in, member_in, member_shape, packed_shape, stores};

use crate::elements::reach_element;
use crate::reached::{Member, reach_member};
use crate::shared_places::{Address, allows, exchange, is_writable};
use std::alloc::Allocator;
use wasm_operators_plain::NumberType;
use wasm_operators_plain::readers_errors::WasmFeatures;
use wasm_readers_types::{FieldType, GlobalType, ValType};
use wasm_typing_checks::spec_steps::{
    Access, AccessValues, SharedAtomicOperator, SharedForm, shared_code, shared_form,
};
use wasm_typing_checks::typing_stacks::{Stacks, TypeWord};
use wasm_typing_checks::validator_resources::WasmModuleResources;
use wasm_typing_checks::{
    OperatorError, OperatorFault, OperatorRule, Takes, ValTypes, address, has, is_packed, nullable,
    plain, reaches, unpack,
};

/// The rule that a global can be written, and the number that belongs to it.
fn immutable_global(access: Access, code: u32, index: u32) -> OperatorFault {
    match access {
        Access::Get | Access::Set => OperatorFault::at(OperatorRule::ImmutableGlobal, index),
        Access::Compute | Access::Exchange | Access::Compare => {
            OperatorFault::at(OperatorRule::AtomicGlobal, code)
        }
    }
}

/// An access to a global that is there.
#[tactic(auto, using(crate::proofs::AtomicAccesses::sharing))]
fn access_global<A: Allocator, T: WasmModuleResources>(
    stacks: &mut Stacks<A>,
    resources: &T,
    code: u32,
    access: Access,
    values: AccessValues,
    ty: GlobalType,
) -> Result<(), OperatorError>
    requires { Some (global_of ty) ≡ slice_get (T.context resources.now).globals values.index }
    ensures took { Performs result (T.context resources.now) (sharing_shape [] (Global access) values)
        stacks.old stacks.new }
    ensures same { Kept stacks.old stacks.new }
{
    if !reaches(stacks, ty.shared) {
        return Err(OperatorError::Refused(OperatorFault::at(OperatorRule::Shared, values.index)));
    }
    if !is_writable(access, ty.mutable) {
        return Err(OperatorError::Refused(immutable_global(access, code, values.index)));
    }
    if !allows(resources, access, false, ty.content_type) {
        return Err(OperatorError::Refused(OperatorFault::at(OperatorRule::AtomicType, code)));
    }
    exchange(
        stacks,
        resources,
        access,
        Address::None,
        TypeWord::new(ty.content_type),
    )
}

/// An access to an entry of a table.
#[tactic(auto, using(crate::proofs::AtomicAccesses::sharing))]
fn access_table<A: Allocator, T: WasmModuleResources>(
    stacks: &mut Stacks<A>,
    resources: &T,
    code: u32,
    access: Access,
    values: AccessValues,
) -> Result<(), OperatorError>
    ensures took { Performs result (T.context resources.now) (sharing_shape [] (Table access) values)
        stacks.old stacks.new }
    ensures same { Kept stacks.old stacks.new }
{
    let index = values.index;
    let Some(ty) = resources.table_at(index) else {
        return Err(OperatorError::Refused(OperatorFault::at(OperatorRule::UnknownTable, index)));
    };
    if !reaches(stacks, ty.shared) {
        return Err(OperatorError::Refused(OperatorFault::at(OperatorRule::Shared, index)));
    }
    if !allows(resources, access, true, ValType::Ref(ty.element_type)) {
        return Err(OperatorError::Refused(OperatorFault::at(OperatorRule::AtomicType, code)));
    }
    exchange(
        stacks,
        resources,
        access,
        Address::One(address(ty.table64)),
        TypeWord::reference(ty.element_type),
    )
}

/// The member that an access reaches: an element of an array, or a field of a structure.
fn reach<A: Allocator, T: WasmModuleResources>(
    stacks: &Stacks<A>,
    resources: &T,
    of_array: bool,
    index: u32,
    field_index: u32,
) -> Result<Member, OperatorFault>
    ensures identity { IfOk result (λ m. Some (index_of m.identity)
        ≡ slice_get (T.context resources.now).types index) }
    ensures member { IfOk result (λ m. member_in (T.context resources.now) of_array index field_index
        ≡ Some (field_of m.ty)) }
    ensures on { OnOk result (held stacks.now (T.context resources.now) (has gc) ≡ true) }
    ensures reached { OnOk result
        (held stacks.now (T.context resources.now) (reaches_type index) ≡ true) }
    ensures barred { OnErr result (Barred stacks.now (T.context resources.now) gc index
        (member_in (T.context resources.now) of_array index field_index ≡ None)) }
{
    if of_array {
        reach_element(stacks, resources, index)
    } else {
        reach_member(stacks, resources, index, field_index)
    }
}

/// The rule that a member can be written, and the number that belongs to it.
fn immutable_member(of_array: bool, values: AccessValues) -> OperatorFault {
    if of_array {
        OperatorFault::at(OperatorRule::ImmutableArray, values.index)
    } else {
        OperatorFault::at(OperatorRule::ImmutableField, values.field_index)
    }
}

/// The rule that what is given isn't packed, and the number that belongs to it.
fn packed_member(of_array: bool, values: AccessValues) -> OperatorFault {
    if of_array {
        OperatorFault::at(OperatorRule::ArrayPacked, values.index)
    } else {
        OperatorFault::at(OperatorRule::FieldPacked, values.field_index)
    }
}

/// The rule that what is given is packed, and the number that belongs to it.
fn unpacked_member(of_array: bool, values: AccessValues) -> OperatorFault {
    if of_array {
        OperatorFault::at(OperatorRule::ArrayNotPacked, values.index)
    } else {
        OperatorFault::at(OperatorRule::FieldNotPacked, values.field_index)
    }
}

/// The rule that what is stored isn't packed, which an access but one that only writes asks for, and
/// that it is of a type that the access allows.
fn check_stored<T: WasmModuleResources>(
    resources: &T,
    code: u32,
    access: Access,
    packed: OperatorFault,
    ty: FieldType,
) -> Result<(), OperatorFault>
    ensures ok { OnOk result (stores (world (T.context resources.now)) access (field_of ty) ≡ true) }
    ensures err { OnErr result (stores (world (T.context resources.now)) access (field_of ty)
        ≡ false) }
{
    if is_packed(ty.element_type) {
        match access {
            Access::Get => return Err(packed),
            Access::Set => {}
            Access::Compute | Access::Exchange | Access::Compare => {
                return Err(OperatorFault::at(OperatorRule::AtomicType, code));
            }
        }
    }
    if !allows(resources, access, true, unpack(ty.element_type)) {
        return Err(OperatorFault::at(OperatorRule::AtomicType, code));
    }
    Ok(())
}

/// What says which structure, and with an index which element of an array.
fn address_in(of_array: bool, member: Member) -> Address
    ensures { address_seen result ≡ place_in of_array (index_of member.identity) }
{
    let reference = nullable(member.identity);
    if of_array {
        Address::Two(reference, TypeWord::number(NumberType::I32))
    } else {
        Address::One(reference)
    }
}

/// An access to a field of a structure, or to an element of an array.
#[tactic(auto, using(crate::proofs::Members::members))]
fn access_member<A: Allocator, T: WasmModuleResources>(
    stacks: &mut Stacks<A>,
    resources: &T,
    code: u32,
    access: Access,
    of_array: bool,
    values: AccessValues,
) -> Result<(), OperatorError>
    ensures took { Performs result (T.context resources.now)
        (member_shape of_array access values.index values.field_index) stacks.old stacks.new }
    ensures same { Kept stacks.old stacks.new }
{
    let member = reach(
        stacks,
        resources,
        of_array,
        values.index,
        values.field_index,
    )?;
    if !is_writable(access, member.ty.mutable) {
        return Err(OperatorError::Refused(immutable_member(of_array, values)));
    }
    check_stored(
        resources,
        code,
        access,
        packed_member(of_array, values),
        member.ty,
    )?;
    exchange(
        stacks,
        resources,
        access,
        address_in(of_array, member),
        TypeWord::new(unpack(member.ty.element_type)),
    )
}

/// Gives a packed field of a structure, or a packed element of an array.
#[tactic(auto, using(crate::proofs::Members::members))]
fn get_packed<A: Allocator, T: WasmModuleResources>(
    stacks: &mut Stacks<A>,
    resources: &T,
    of_array: bool,
    values: AccessValues,
) -> Result<(), OperatorError>
    ensures took { Performs result (T.context resources.now)
        (packed_shape of_array values.index values.field_index) stacks.old stacks.new }
    ensures same { Kept stacks.old stacks.new }
{
    let member = reach(
        stacks,
        resources,
        of_array,
        values.index,
        values.field_index,
    )?;
    if !is_packed(member.ty.element_type) {
        return Err(OperatorError::Refused(unpacked_member(of_array, values)));
    }
    exchange(
        stacks,
        resources,
        Access::Get,
        address_in(of_array, member),
        TypeWord::number(NumberType::I32),
    )
}

/// An atomic access of this form, whose number is this one.
#[tactic(auto, using(wasm_typing_checks::proofs::ActionSteps::acts, wasm_typing_checks::proofs::TypeLookups::types, crate::proofs::AtomicAccesses::sharing))]
fn step_by_access<A: Allocator, T: WasmModuleResources>(
    stacks: &mut Stacks<A>,
    resources: &T,
    code: u32,
    form: SharedForm,
    values: AccessValues,
) -> Result<(), OperatorError>
    ensures took { Performs result (T.context resources.now) (sharing_shape [] form values)
        stacks.old stacks.new }
    ensures same { Kept stacks.old stacks.new }
{
    match form {
        SharedForm::Pause => plain(stacks, resources, Takes::None, ValTypes::None),
        SharedForm::Global(access) => match resources.global_at(values.index) {
            Some(ty) => access_global(stacks, resources, code, access, values, ty),
            None => Err(OperatorError::Refused(OperatorFault::at(
                OperatorRule::UnknownGlobal,
                values.index,
            ))),
        },
        SharedForm::Table(access) => access_table(stacks, resources, code, access, values),
        SharedForm::Field(access) => {
            access_member(stacks, resources, code, access, false, values)
        }
        SharedForm::PackedField => get_packed(stacks, resources, false, values),
        SharedForm::Element(access) => access_member(stacks, resources, code, access, true, values),
        SharedForm::PackedElement => get_packed(stacks, resources, true, values),
    }
}

/// An atomic access to a global, a table, a structure or an array, or `pause` (Shared-Everything
/// Threads, Validation, Instructions).
#[tactic(auto, using(wasm_typing_checks::proofs::ActionSteps::acts))]
pub fn step_shared<A: Allocator, T: WasmModuleResources>(
    stacks: &mut Stacks<A>,
    resources: &T,
    op: SharedAtomicOperator,
    values: AccessValues,
) -> Result<(), OperatorError>
    ensures took { Performs result (T.context resources.now) (shared_shape op values)
        stacks.old stacks.new }
    ensures same { Kept stacks.old stacks.new }
{
    let code = shared_code(op);
    if !has(stacks, WasmFeatures::SHARED_ATOMIC_OPERATORS) {
        return Err(OperatorError::Refused(OperatorFault::at(
            OperatorRule::OpcodeBehind(0xfe),
            code,
        )));
    }
    if !has(stacks, WasmFeatures::SHARED_EVERYTHING_THREADS) {
        return Err(OperatorError::Refused(OperatorFault::new(OperatorRule::SharedEverything)));
    }
    step_by_access(stacks, resources, code, shared_form(op), values)
}
