//! Operators on vectors, and atomic ones, by their forms.

ghost use Rattle.std.specs.Prelude.{◌≡◌, ◌∷◌, [], ◌++◌, ◌||◌, ◌^◌, nat_lt, ℕ};
ghost use Rattle.wasm_readers_errors.specs.WasmSpec.ValueTypes.{allows_val};
ghost use Rattle.wasm_readers_types.specs.WasmReadersValues.declared.indices.UnpackedIndex.{UnpackedIndex};
ghost use Rattle.wasm_typing_checks.specs.WasmSpecRules.FeatureFlags.{features_of};
ghost use Rattle.wasm_typing_checks.specs.WasmSpecSteps.Forms.{value_type, operand_types, result_types, allows_each, allows_alignment, is_lane_of_two, are_lanes_of_two, all_lanes_of_two, suits_immediates, suits_access, suits_form, memarg_of};
ghost use Rattle.wasm_typing_checks.specs.WasmSpecSteps.Shapes.{form_shape, vector_shape, atomic_shape};
ghost use Rattle.wasm_typing_checks.specs.WasmTypingStacks.SeenTypeWords.{val_in};
ghost use Rattle.wasm_typing_checks.specs.WasmTypingStacks.BodyStacks.{Kept};
ghost use Rattle.wasm_typing_checks.specs.SeenTypes.{types_seen, takes_seen};
ghost use Rattle.wasm_typing_checks.specs.Steps.{Performs};
ghost use Rattle.wasm_typing_numbers.specs.Forms.{stored_types, operands_in, result_in};

use bitflags::Flags;
use std::alloc::Allocator;
use wasm_operators::operators_atomic::{
    Alignment, AtomicOperator, Form, Immediates, Operands, ValueType, VectorOperator, atomic_form,
    vector_form,
};
use wasm_operators::{ImmediateValues, MemArg, V128};
use wasm_readers_errors::WasmFeatures;
use wasm_readers_types::{MemoryType, ValType};
use wasm_typing_checks::typing_stacks::{Stacks, TypeWord};
use wasm_typing_checks::validator_resources::WasmModuleResources;
use wasm_typing_checks::{
    OperatorError, OperatorFault, OperatorRule, Takes, ValTypes, address, has, plain,
};

/// The type as it stands on the stack.
fn word(ty: ValueType) -> TypeWord
    ensures { val_in result ≡ value_type ty }
{
    TypeWord::new(match ty {
        ValueType::I32 => ValType::I32,
        ValueType::I64 => ValType::I64,
        ValueType::F32 => ValType::F32,
        ValueType::F64 => ValType::F64,
        ValueType::V128 => ValType::V128,
    })
}

/// What an operator of this form takes, where it accesses no memory.
fn taken<'a>(takes: Operands) -> Takes<'a>
    ensures { takes_seen result ≡ operand_types {R = UnpackedIndex} takes }
{
    match takes {
        Operands::Nothing => Takes::None,
        Operands::One(first) => Takes::One(word(first)),
        Operands::Two(first, second) => Takes::Two(word(first), word(second)),
        Operands::Three(first, second, third) => Takes::Three(
            word(first),
            word(second),
            word(third),
        ),
    }
}

/// An address, and above it up to two operands of an operator that accesses a memory.
fn taken_above<'a>(address: TypeWord, takes: Operands) -> Takes<'a>
    ensures { takes_seen result ≡ val_in address ∷ stored_types takes }
{
    match takes {
        Operands::Nothing => Takes::One(address),
        Operands::One(first) => Takes::Two(address, word(first)),
        Operands::Two(first, second) => Takes::Three(address, word(first), word(second)),
        Operands::Three(first, second, _) => Takes::Three(address, word(first), word(second)),
    }
}

/// What is given.
fn given<'a>(gives: Option<ValueType>) -> ValTypes<'a>
    ensures { types_seen result ≡ result_types {R = UnpackedIndex} gives }
{
    match gives {
        None => ValTypes::None,
        Some(ty) => ValTypes::One(word(ty)),
    }
}

/// The types of the operands but for an address.
fn operands_of(form: Form) -> Operands
    ensures { operands_in form ≡ result }
{
    match form {
        Form::Compute { takes, .. } => takes,
        Form::Access { takes, .. } => takes,
    }
}

/// The type of the result, if there is one.
fn result_of(form: Form) -> Option<ValueType>
    ensures { result_in form ≡ result }
{
    match form {
        Form::Compute { gives, .. } => gives,
        Form::Access { gives, .. } => gives,
    }
}

/// Whether the features allow this type.
fn allows_value<A: Allocator>(stacks: &Stacks<A>, ty: ValueType) -> bool
    ensures { result ≡ allows_val {R = ℕ} (features_of stacks.now.features) (value_type ty) }
{
    match ty {
        ValueType::I32 | ValueType::I64 => true,
        ValueType::F32 | ValueType::F64 => stacks.features.contains(WasmFeatures::FLOATS),
        ValueType::V128 => stacks.features.contains(WasmFeatures::SIMD),
    }
}

/// Whether the features allow what is given.
fn allows_result<A: Allocator>(stacks: &Stacks<A>, gives: Option<ValueType>) -> bool
    ensures { result ≡ allows_each (features_of stacks.now.features) (result_types gives) }
{
    match gives {
        None => true,
        Some(ty) => allows_value(stacks, ty),
    }
}

/// Whether the features allow what is taken and given.
fn allows_types<A: Allocator>(stacks: &Stacks<A>, takes: Operands, gives: Option<ValueType>) -> bool
    ensures { result ≡ allows_each (features_of stacks.now.features)
        (operand_types takes ++ result_types gives) }
{
    match takes {
        Operands::Nothing => allows_result(stacks, gives),
        Operands::One(first) => allows_value(stacks, first) && allows_result(stacks, gives),
        Operands::Two(first, second) => {
            allows_value(stacks, first)
                && (allows_value(stacks, second) && allows_result(stacks, gives))
        }
        Operands::Three(first, second, third) => {
            allows_value(stacks, first)
                && (allows_value(stacks, second)
                    && (allows_value(stacks, third) && allows_result(stacks, gives)))
        }
    }
}

/// Whether an access may have this alignment, a logarithm to base 2 of bytes.
fn allows_alignment(alignment: Alignment, align: u8) -> bool
    ensures { result ≡ allows_alignment alignment align }
{
    match alignment {
        Alignment::AtMost(most) => align <= most,
        Alignment::Exactly(exact) => align == exact,
    }
}

/// Whether the lowest byte is a lane of two vectors of sixteen lanes.
fn is_lane_of_two(bits: u64) -> bool
    ensures { result ≡ is_lane_of_two bits }
{
    bits % 256 < 32
}

/// Whether each of the eight bytes is a lane of two vectors of sixteen lanes.
fn are_lanes_of_two(bits: u64) -> bool
    ensures { result ≡ are_lanes_of_two 8 bits }
{
    let second = bits / 256;
    let third = second / 256;
    let fourth = third / 256;
    let fifth = fourth / 256;
    let sixth = fifth / 256;
    let seventh = sixth / 256;
    let eighth = seventh / 256;
    is_lane_of_two(bits)
        && (is_lane_of_two(second)
            && (is_lane_of_two(third)
                && (is_lane_of_two(fourth)
                    && (is_lane_of_two(fifth)
                        && (is_lane_of_two(sixth)
                            && (is_lane_of_two(seventh) && is_lane_of_two(eighth)))))))
}

/// Whether each of the sixteen bytes is a lane of two vectors of sixteen lanes.
fn all_lanes_of_two(lanes: V128) -> bool
    ensures { result ≡ all_lanes_of_two lanes }
{
    are_lanes_of_two(lanes.low) && are_lanes_of_two(lanes.high)
}

/// Whether an operator that accesses no memory may have these immediates.
fn suits_immediates(immediates: Immediates, values: ImmediateValues) -> bool
    ensures { result ≡ suits_immediates immediates values }
{
    match (immediates, values) {
        (Immediates::Nothing, ImmediateValues::Nothing) => true,
        (Immediates::Zero, ImmediateValues::Nothing) => true,
        (Immediates::Lane(lanes), ImmediateValues::Lane(lane)) => lane < lanes,
        (Immediates::Lanes, ImmediateValues::Lanes(lanes)) => all_lanes_of_two(lanes),
        _ => false,
    }
}

/// Whether an operator that accesses a memory may have these immediates, its memory aside.
fn suits_access(alignment: Alignment, lanes: Option<u8>, values: ImmediateValues) -> bool
    ensures { result ≡ suits_access alignment lanes values }
{
    match (lanes, values) {
        (None, ImmediateValues::MemArg(arg)) => allows_alignment(alignment, arg.align),
        (Some(lanes), ImmediateValues::MemArgLane(arg, lane)) => {
            allows_alignment(alignment, arg.align) && lane < lanes
        }
        _ => false,
    }
}

/// Whether an operator of this form may have these immediates, its memory aside.
fn suits_form(form: Form, values: ImmediateValues) -> bool
    ensures { result ≡ suits_form form values }
{
    match form {
        Form::Compute { immediates, .. } => suits_immediates(immediates, values),
        Form::Access {
            alignment,
            lanes,
            takes,
            ..
        } => match takes {
            Operands::Three(_, _, _) => false,
            _ => suits_access(alignment, lanes, values),
        },
    }
}

/// The rule that immediates break which don't suit the form: that of the alignment first.
#[inline(never)]
fn misfit(form: Form, values: ImmediateValues) -> OperatorRule {
    match (form, memarg_of(values)) {
        (Form::Access { alignment, .. }, Some(arg)) => {
            if allows_alignment(alignment, arg.align) {
                OperatorRule::Lane
            } else {
                match alignment {
                    Alignment::AtMost(_) => OperatorRule::Alignment,
                    Alignment::Exactly(_) => OperatorRule::AtomicAlignment,
                }
            }
        }
        _ => OperatorRule::Lane,
    }
}

/// The memory argument, if there is one.
fn memarg_of(values: ImmediateValues) -> Option<MemArg>
    ensures { result ≡ memarg_of values }
{
    match values {
        ImmediateValues::MemArg(arg) => Some(arg),
        ImmediateValues::MemArgLane(arg, _) => Some(arg),
        _ => None,
    }
}

/// Whether an address of this memory has room for the offset.
fn has_room(memory: MemoryType, offset: u64) -> bool
    ensures { result ≡ (memory.memory64 || nat_lt offset (2 ^ 32)) }
{
    memory.memory64 || offset < 4_294_967_296
}

/// An operator of this form.
#[tactic(auto, using(crate::proofs::Cited::acts, crate::proofs::FormTypes::forms))]
fn step_by_form<A: Allocator, T: WasmModuleResources>(
    stacks: &mut Stacks<A>,
    resources: &T,
    form: Form,
    values: ImmediateValues,
) -> Result<(), OperatorError>
    ensures took { Performs result (T.context resources.now) (form_shape [] form values)
        stacks.old stacks.new }
    ensures same { Kept stacks.old stacks.new }
{
    if !suits_form(form, values) {
        return Err(OperatorError::Refused(OperatorFault::new(misfit(form, values))));
    }
    let takes = operands_of(form);
    let gives = result_of(form);
    if !allows_types(stacks, takes, gives) {
        return Err(OperatorError::Refused(OperatorFault::new(OperatorRule::Floats)));
    }
    match memarg_of(values) {
        Some(arg) => match resources.memory_at(arg.memory) {
            Some(memory) => {
                if !has_room(memory, arg.offset) {
                    return Err(OperatorError::Refused(OperatorFault::new(OperatorRule::Offset)));
                }
                plain(
                    stacks,
                    resources,
                    taken_above(address(memory.memory64), takes),
                    given(gives),
                )
            }
            None => Err(OperatorError::Refused(OperatorFault::at(
                OperatorRule::UnknownMemory,
                arg.memory,
            ))),
        },
        None => plain(stacks, resources, taken(takes), given(gives)),
    }
}

/// An operator on vectors.
#[tactic(auto, using(crate::proofs::Cited::acts))]
pub fn step_vector<A: Allocator, T: WasmModuleResources>(
    stacks: &mut Stacks<A>,
    resources: &T,
    op: VectorOperator,
    values: ImmediateValues,
) -> Result<(), OperatorError>
    ensures took { Performs result (T.context resources.now) (vector_shape op values)
        stacks.old stacks.new }
    ensures same { Kept stacks.old stacks.new }
{
    if !has(stacks, WasmFeatures::VECTOR_OPERATORS) {
        return Err(OperatorError::Refused(OperatorFault::new(OperatorRule::VectorOperators)));
    }
    if !has(stacks, WasmFeatures::SIMD) {
        return Err(OperatorError::Refused(OperatorFault::new(OperatorRule::Simd)));
    }
    step_by_form(stacks, resources, vector_form(op), values)
}

/// An atomic operator.
#[tactic(auto, using(crate::proofs::Cited::acts))]
pub fn step_atomic<A: Allocator, T: WasmModuleResources>(
    stacks: &mut Stacks<A>,
    resources: &T,
    op: AtomicOperator,
    values: ImmediateValues,
) -> Result<(), OperatorError>
    ensures took { Performs result (T.context resources.now) (atomic_shape op values)
        stacks.old stacks.new }
    ensures same { Kept stacks.old stacks.new }
{
    if !has(stacks, WasmFeatures::ATOMIC_OPERATORS) {
        return Err(OperatorError::Refused(OperatorFault::new(OperatorRule::AtomicOperators)));
    }
    if !has(stacks, WasmFeatures::THREADS) {
        return Err(OperatorError::Refused(OperatorFault::new(OperatorRule::Threads)));
    }
    step_by_form(stacks, resources, atomic_form(op), values)
}
