//! Which operators a constant expression may have.

ghost use Rattle.std.specs.Prelude.{◌≡◌, slice_get};
ghost use Rattle.wasm_validator_resources.specs.WasmSpecRules.FeatureFlags.{features_of};
ghost use Rattle.wasm_operators.specs.Maps.{map_instruction};
ghost use Rattle.wasm_operators.specs.SeenOperators.{operator_of};
ghost use Rattle.wasm_typing_validator.specs.WasmSpecSteps.ConstantExpressions.{is_extended, makes_structure, makes_array, is_constant_conversion, is_constant};
ghost use Rattle.wasm_validator_resources.specs.Answers.{written_index};
ghost use Rattle.wasm_typing_validator.specs.WasmSpecSteps.ConstantRules.{may_be_read, is_readable};

use bitflags::Flags;
use wasm_operators::operators_plain::{
    ArrayOperator, ConversionOperator, NumericOperator, StructOperator, VariableOperator,
};
use wasm_operators::{ControlOperator, Operator, ReferenceOperator};
use wasm_readers::readers_errors::{GatedConstant, WasmFeatures};
use wasm_validator_resources::WasmModuleResources;

/// Whether it is arithmetic of extended constant expressions.
fn is_extended(op: NumericOperator) -> bool
    ensures { result ≡ is_extended op }
{
    match op {
        NumericOperator::I32Add
        | NumericOperator::I32Sub
        | NumericOperator::I32Mul
        | NumericOperator::I64Add
        | NumericOperator::I64Sub
        | NumericOperator::I64Mul => true,
        _ => false,
    }
}

/// Whether it makes a structure.
fn makes_structure(op: StructOperator) -> bool
    ensures { result ≡ makes_structure op }
{
    match op {
        StructOperator::StructNew { .. }
        | StructOperator::StructNewDefault { .. }
        | StructOperator::StructNewDesc { .. }
        | StructOperator::StructNewDefaultDesc { .. } => true,
        _ => false,
    }
}

/// Whether it makes an array of operands or of defaults.
fn makes_array(op: ArrayOperator) -> bool
    ensures { result ≡ makes_array op }
{
    match op {
        ArrayOperator::ArrayNew { .. }
        | ArrayOperator::ArrayNewDefault { .. }
        | ArrayOperator::ArrayNewFixed { .. } => true,
        _ => false,
    }
}

/// Whether it is a conversion that gives a reference, under these features.
fn is_constant_conversion(features: WasmFeatures, op: ConversionOperator) -> bool
    ensures { result ≡ is_constant_conversion (features_of features) op }
{
    match op {
        ConversionOperator::AnyConvertExtern
        | ConversionOperator::ExternConvertAny
        | ConversionOperator::RefI31 => features.contains(WasmFeatures::GC),
        ConversionOperator::RefI31Shared => {
            features.contains(WasmFeatures::SHARED_EVERYTHING_THREADS)
        }
        _ => false,
    }
}

/// Whether a constant expression may have this operator under these features. Which globals it may
/// read is a rule of its own (Core Specification 3.0, Validation, Instructions, Constant
/// Expressions).
pub fn is_constant<'a>(features: WasmFeatures, op: &Operator<'a>) -> bool
    ensures { result ≡ is_constant (features_of features)
        (map_instruction written_index (operator_of op.now)) }
{
    match *op {
        Operator::Control(op) => match op {
            ControlOperator::End => true,
            _ => false,
        },
        Operator::Constant(_) => true,
        Operator::Reference(op) => match op {
            ReferenceOperator::RefNull { .. } | ReferenceOperator::RefFunc { .. } => true,
            _ => false,
        },
        Operator::Variable(op) => match op {
            VariableOperator::GlobalGet { .. } => true,
            _ => false,
        },
        Operator::Numeric(op) => {
            features.contains(WasmFeatures::EXTENDED_CONST) && is_extended(op)
        }
        Operator::Struct(op) => features.contains(WasmFeatures::GC) && makes_structure(op),
        Operator::Array(op) => features.contains(WasmFeatures::GC) && makes_array(op),
        Operator::Conversion(op) => is_constant_conversion(features, op),
        _ => false,
    }
}

/// Whether a constant expression may read this global: it is there, is immutable, and is imported
/// or else `GC` is on. So many globals are imported, and they come first.
fn is_readable_global<T: WasmModuleResources>(
    features: WasmFeatures,
    resources: &T,
    imported_globals: u32,
    global_index: u32,
) -> bool
    ensures { result ≡ may_be_read (features_of features) imported_globals global_index
        (slice_get (T.context resources.now).globals global_index) }
{
    match resources.global_at(global_index) {
        Some(global) => {
            !global.mutable
                && (features.contains(WasmFeatures::GC) || global_index < imported_globals)
        }
        None => false,
    }
}

/// Whether a constant expression may read the global that the operator reads, if it reads one. So
/// many globals are imported, and they come first.
pub fn reads_constants<'a, T: WasmModuleResources>(
    features: WasmFeatures,
    resources: &T,
    imported_globals: u32,
    op: &Operator<'a>,
) -> bool
    ensures { result ≡ is_readable (features_of features) imported_globals
        (T.context resources.now).globals (map_instruction written_index (operator_of op.now)) }
{
    match *op {
        Operator::Variable(op) => match op {
            VariableOperator::GlobalGet { global_index } => {
                is_readable_global(features, resources, imported_globals, global_index)
            }
            _ => true,
        },
        _ => true,
    }
}

/// The operator as one that a proposal would bring, if there is such a proposal.
pub(crate) fn gated_constant<'a>(op: &Operator<'a>) -> Option<GatedConstant> {
    match *op {
        Operator::Numeric(op) => gated_number(op),
        Operator::Struct(op) => gated_structure(op),
        Operator::Array(op) => gated_array(op),
        Operator::Conversion(op) => gated_conversion(op),
        _ => None,
    }
}

fn gated_number(op: NumericOperator) -> Option<GatedConstant> {
    match op {
        NumericOperator::I32Add => Some(GatedConstant::I32Add),
        NumericOperator::I32Sub => Some(GatedConstant::I32Sub),
        NumericOperator::I32Mul => Some(GatedConstant::I32Mul),
        NumericOperator::I64Add => Some(GatedConstant::I64Add),
        NumericOperator::I64Sub => Some(GatedConstant::I64Sub),
        NumericOperator::I64Mul => Some(GatedConstant::I64Mul),
        _ => None,
    }
}

fn gated_structure(op: StructOperator) -> Option<GatedConstant> {
    match op {
        StructOperator::StructNew { .. } => Some(GatedConstant::StructNew),
        StructOperator::StructNewDefault { .. } => Some(GatedConstant::StructNewDefault),
        StructOperator::StructNewDesc { .. } => Some(GatedConstant::StructNewDesc),
        StructOperator::StructNewDefaultDesc { .. } => Some(GatedConstant::StructNewDefaultDesc),
        _ => None,
    }
}

fn gated_array(op: ArrayOperator) -> Option<GatedConstant> {
    match op {
        ArrayOperator::ArrayNew { .. } => Some(GatedConstant::ArrayNew),
        ArrayOperator::ArrayNewDefault { .. } => Some(GatedConstant::ArrayNewDefault),
        ArrayOperator::ArrayNewFixed { .. } => Some(GatedConstant::ArrayNewFixed),
        _ => None,
    }
}

fn gated_conversion(op: ConversionOperator) -> Option<GatedConstant> {
    match op {
        ConversionOperator::AnyConvertExtern => Some(GatedConstant::AnyConvertExtern),
        ConversionOperator::ExternConvertAny => Some(GatedConstant::ExternConvertAny),
        ConversionOperator::RefI31 => Some(GatedConstant::RefI31),
        ConversionOperator::RefI31Shared => Some(GatedConstant::RefI31Shared),
        _ => None,
    }
}
