//! Value types by features.

ghost use Rattle.std.specs.Prelude.{◌≡◌, is_ok, IfErr};
ghost use Rattle.wasm_readers_errors.specs.WasmSpec.Syntax.{abstract_heap};
ghost use Rattle.wasm_readers_errors.specs.WasmSpec.ValueTypes.{abstract_needs, allows_heap, allows_ref, allows_val};
ghost use Rattle.wasm_spec_rules.specs.FeatureFlags.{features_of};
ghost use Rattle.wasm_readers_types.specs.WasmReadersValues.SeenValues.{abstract_heap_of, ref_of, val_of};
ghost use Rattle.wasm_readers_types.specs.WasmReadersValues.declared.indices.UnpackedIndex.{UnpackedIndex};
ghost use Rattle.wasm_readers_errors.specs.Refusals.{refused};
ghost use Rattle.wasm_validator_resources.specs.Refusals.{IsMissing};
ghost use Rattle.wasm_validator_resources.specs.ProposalRefusals.{told_of_abstract, told_of_heap, told_of_ref, told_of_val};

use bitflags::Flags;
use wasm_readers_errors::{Fault, Refusal, Rule, ValueTypeRule, WasmFeatures, require, require_if};
use wasm_readers_types::{AbstractHeapType, HeapType, RefType, ValType};

/// Accepts where the features allow what this abstract heap type stands for.
fn check_abstract_needs(
    features: WasmFeatures,
    nullable: bool,
    ty: AbstractHeapType,
    offset: u64,
) -> Result<(), Refusal>
    ensures allowed { is_ok result ≡ abstract_needs (features_of features) nullable
        (abstract_heap_of ty) }
    ensures refusal { IfErr result (IsMissing features offset) }
    ensures told { refused result ≡ told_of_abstract features offset nullable
        (abstract_heap_of ty) }
{
    let (feature, rule) = match ty {
        AbstractHeapType::Func | AbstractHeapType::Extern => {
            if nullable {
                return Ok(());
            }
            (
                WasmFeatures::FUNCTION_REFERENCES,
                ValueTypeRule::NonNullable,
            )
        }
        AbstractHeapType::Any
        | AbstractHeapType::None
        | AbstractHeapType::Eq
        | AbstractHeapType::Struct
        | AbstractHeapType::Array
        | AbstractHeapType::I31
        | AbstractHeapType::NoExtern
        | AbstractHeapType::NoFunc => (WasmFeatures::GC, ValueTypeRule::GcHeapTypes),
        AbstractHeapType::Exn | AbstractHeapType::NoExn => {
            (WasmFeatures::EXCEPTIONS, ValueTypeRule::ExceptionReferences)
        }
        AbstractHeapType::Cont | AbstractHeapType::NoCont => {
            (
                WasmFeatures::STACK_SWITCHING,
                ValueTypeRule::ContinuationReferences,
            )
        }
    };
    require(features, feature, Fault::ValueType(rule), offset)
}

/// Accepts where the features allow references to this abstract heap type.
fn check_abstract_heap_type(
    features: WasmFeatures,
    nullable: bool,
    shared: bool,
    ty: AbstractHeapType,
    offset: u64,
) -> Result<(), Refusal>
    ensures allowed { is_ok result ≡ allows_heap {R = UnpackedIndex} (features_of features) nullable
        (abstract_heap shared (abstract_heap_of ty)) }
    ensures refusal { IfErr result (IsMissing features offset) }
    ensures told { refused result ≡ told_of_heap features offset {R = UnpackedIndex} nullable
        (abstract_heap shared (abstract_heap_of ty)) }
{
    if shared {
        let fault = Fault::ValueType(ValueTypeRule::SharedReferences);
        require(
            features,
            WasmFeatures::SHARED_EVERYTHING_THREADS,
            fault,
            offset,
        )?;
    }
    if !matches!(ty, AbstractHeapType::Func | AbstractHeapType::Exn) {
        let fault = Fault::ValueType(ValueTypeRule::GcTypes);
        require(features, WasmFeatures::GC_TYPES, fault, offset)?;
    }
    check_abstract_needs(features, nullable, ty, offset)
}

/// Accepts a reference type that the features allow (Core Specification 3.0, Validation, Types,
/// Reference Types): the indices in it aside.
///
/// # Errors
///
/// Refuses, at `offset`, with the first `ValueTypeRule` that the type breaks, and names the
/// proposal that would lift the refusal: of the two that allow an index, `FUNCTION_REFERENCES`.
pub fn check_ref_type(features: WasmFeatures, ty: RefType, offset: u64) -> Result<(), Refusal>
    ensures allowed { is_ok result ≡ allows_ref (features_of features) (ref_of ty) }
    ensures refusal { IfErr result (IsMissing features offset) }
    ensures told { refused result ≡ told_of_ref features offset (ref_of ty) }
{
    let fault = Fault::ValueType(ValueTypeRule::ReferenceTypes);
    require(features, WasmFeatures::REFERENCE_TYPES, fault, offset)?;
    match ty.heap_type() {
        HeapType::Concrete(_) => {
            if features.contains(WasmFeatures::GC) {
                return Ok(());
            }
            let fault = Fault::ValueType(ValueTypeRule::IndexReferences);
            require(features, WasmFeatures::FUNCTION_REFERENCES, fault, offset)
        }
        HeapType::Exact(_) => {
            let fault = Fault::ValueType(ValueTypeRule::ExactReferences);
            require(features, WasmFeatures::CUSTOM_DESCRIPTORS, fault, offset)
        }
        HeapType::Abstract { shared, ty: heap } => check_abstract_heap_type(
            features,
            ty.is_nullable(),
            shared,
            heap,
            offset,
        ),
    }
}

/// Accepts a value type that the features allow (Core Specification 3.0, Validation, Types, Value
/// Types): the indices in it aside.
///
/// # Errors
///
/// Refuses, at `offset`, floats, vectors and references without their proposals, and names the
/// proposal that would lift the refusal; references as [`check_ref_type`] does.
pub fn check_value_type(features: WasmFeatures, ty: ValType, offset: u64) -> Result<(), Refusal>
    ensures allowed { is_ok result ≡ allows_val (features_of features) (val_of ty) }
    ensures refusal { IfErr result (IsMissing features offset) }
    ensures told { refused result ≡ told_of_val features offset (val_of ty) }
{
    match ty {
        ValType::I32 | ValType::I64 => Ok(()),
        ValType::F32 | ValType::F64 => require(
            features,
            WasmFeatures::FLOATS,
            Fault::Rule(Rule::Floats),
            offset,
        ),
        ValType::V128 => require(
            features,
            WasmFeatures::SIMD,
            Fault::Rule(Rule::Simd),
            offset,
        ),
        ValType::Ref(ty) => check_ref_type(features, ty, offset),
    }
}
