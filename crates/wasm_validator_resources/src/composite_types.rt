//! Composite types by features, and by the limits of `CRATE_LIMITS`.

ghost use Rattle.std.specs.Prelude.{◌≡◌, is_ok, IfErr, map};
ghost use Rattle.std.specs.List.{list_all};
ghost use Rattle.wasm_readers_errors.specs.WasmSpec.GroupRules.{field_storage};
ghost use Rattle.wasm_readers_errors.specs.WasmSpec.ValueTypes.{allows_storage, allows_val};
ghost use Rattle.wasm_readers_errors.specs.WasmSpec.CrateLimits.{is_within, is_limited};
ghost use Rattle.wasm_spec_rules.specs.FeatureFlags.{features_of};
ghost use Rattle.wasm_readers_types.specs.WasmReadersValues.SeenValues.{field_of, storage_of, val_of};
ghost use Rattle.wasm_readers_types.specs.SeenTypes.{array_of, comp_of, cont_of, func_of, struct_of};
ghost use Rattle.wasm_validator_resources.specs.AllowedComposites.{allows_comp, proposals_allow};
ghost use Rattle.wasm_readers_errors.specs.Refusals.{refused};
ghost use Rattle.wasm_validator_resources.specs.Refusals.{IsMissing, IsMissingOrLimited};
ghost use Rattle.wasm_validator_resources.specs.ProposalRefusals.{first_told, told_of_val, told_of_storage, told_of_field, told_of_form, told_of_count, told_of_limits, told_of_comp};

use crate::value_types::check_value_type;
use std::alloc::Allocator;
use wasm_readers_errors::{Fault, GroupRule, Refusal, Rule, WasmFeatures, require, require_if};
use wasm_readers_types::{
    ArrayType, CompositeInnerType, ContType, FieldType, FuncType, StorageType, StructType, ValType,
};

/// The most parameters of a function type, with `CRATE_LIMITS`.
pub const MAX_WASM_FUNCTION_PARAMS: usize = 1_000;

/// The most results of a function type, with `CRATE_LIMITS`.
pub const MAX_WASM_FUNCTION_RETURNS: usize = 1_000;

/// The most fields of a structure type, with `CRATE_LIMITS`.
pub const MAX_WASM_STRUCT_FIELDS: usize = 10_000;

/// Accepts where the features allow all of these.
fn check_value_types(features: WasmFeatures, types: &[ValType], offset: u64) -> Result<(), Refusal>
    ensures allowed { is_ok result ≡ list_all (allows_val (features_of features))
        (map val_of types.now) }
    ensures refusal { IfErr result (IsMissing features offset) }
    ensures told { refused result ≡ first_told (told_of_val features offset)
        (map val_of types.now) }
{
    for ty in types {
        check_value_type(features, *ty, offset)?;
    }
    Ok(())
}

/// Accepts a storage type that the features allow.
fn check_storage_type(features: WasmFeatures, ty: StorageType, offset: u64) -> Result<(), Refusal>
    ensures allowed { is_ok result ≡ allows_storage (features_of features) (storage_of ty) }
    ensures refusal { IfErr result (IsMissing features offset) }
    ensures told { refused result ≡ told_of_storage features offset (storage_of ty) }
{
    match ty {
        StorageType::I8 | StorageType::I16 => Ok(()),
        StorageType::Val(ty) => check_value_type(features, ty, offset),
    }
}

/// Accepts where the features allow what each of these fields holds.
fn check_fields(features: WasmFeatures, fields: &[FieldType], offset: u64) -> Result<(), Refusal>
    ensures allowed { is_ok result ≡ list_all (allows_storage (features_of features))
        (map field_storage (map field_of fields.now)) }
    ensures refusal { IfErr result (IsMissing features offset) }
    ensures told { refused result ≡ first_told (told_of_field features offset)
        (map field_of fields.now) }
{
    for field in fields {
        check_storage_type(features, field.element_type, offset)?;
    }
    Ok(())
}

/// Accepts a function type whose proposals are on.
fn check_func_type<A: Allocator>(
    features: WasmFeatures,
    ty: &FuncType<A>,
    offset: u64,
) -> Result<(), Refusal>
    ensures allowed { is_ok result ≡ proposals_allow (features_of features) (func_of ty.now) }
    ensures refusal { IfErr result (IsMissing features offset) }
    ensures told { refused result ≡ told_of_form features offset (func_of ty.now) }
{
    check_value_types(features, ty.params(), offset)?;
    check_value_types(features, ty.results(), offset)?;
    if ty.results().len() > 1 {
        let fault = Fault::Rule(Rule::MultiValue);
        require(features, WasmFeatures::MULTI_VALUE, fault, offset)?;
    }
    Ok(())
}

/// Accepts an array type whose proposals are on.
#[tactic(auto, using(crate::proofs::Composites::composites))]
fn check_array_type(features: WasmFeatures, ty: ArrayType, offset: u64) -> Result<(), Refusal>
    ensures allowed { is_ok result ≡ proposals_allow (features_of features) (array_of ty) }
    ensures refusal { IfErr result (IsMissing features offset) }
    ensures told { refused result ≡ told_of_form features offset (array_of ty) }
{
    let fault = Fault::Group(GroupRule::Arrays);
    require(features, WasmFeatures::GC, fault, offset)?;
    let fault = Fault::Group(GroupRule::ArrayGcTypes);
    require(features, WasmFeatures::GC_TYPES, fault, offset)?;
    check_storage_type(features, ty.0.element_type, offset)
}

/// Accepts a structure type whose proposals are on.
#[tactic(auto, using(crate::proofs::Composites::composites))]
fn check_struct_type<A: Allocator>(
    features: WasmFeatures,
    ty: &StructType<A>,
    offset: u64,
) -> Result<(), Refusal>
    ensures allowed { is_ok result ≡ proposals_allow (features_of features) (struct_of ty.now) }
    ensures refusal { IfErr result (IsMissing features offset) }
    ensures told { refused result ≡ told_of_form features offset (struct_of ty.now) }
{
    let fault = Fault::Group(GroupRule::Structs);
    require(features, WasmFeatures::GC, fault, offset)?;
    let fault = Fault::Group(GroupRule::StructGcTypes);
    require(features, WasmFeatures::GC_TYPES, fault, offset)?;
    check_fields(features, ty.fields.as_slice(), offset)
}

/// Accepts a continuation type where its proposals are on.
fn check_cont_type(features: WasmFeatures, ty: ContType, offset: u64) -> Result<(), Refusal>
    ensures allowed { is_ok result ≡ proposals_allow (features_of features) (cont_of ty) }
    ensures refusal { IfErr result (IsMissing features offset) }
    ensures told { refused result ≡ told_of_form features offset (cont_of ty) }
{
    let fault = Fault::Group(GroupRule::Continuations);
    require(features, WasmFeatures::STACK_SWITCHING, fault, offset)?;
    let fault = Fault::Group(GroupRule::ContinuationGcTypes);
    require(features, WasmFeatures::GC_TYPES, fault, offset)
}

/// Accepts a composite type whose proposals are on, and those of its members.
fn check_form<A: Allocator>(
    features: WasmFeatures,
    ty: &CompositeInnerType<A>,
    offset: u64,
) -> Result<(), Refusal>
    ensures allowed { is_ok result ≡ proposals_allow (features_of features) (comp_of ty.now) }
    ensures refusal { IfErr result (IsMissing features offset) }
    ensures told { refused result ≡ told_of_form features offset (comp_of ty.now) }
{
    match ty {
        CompositeInnerType::Func(func) => check_func_type(features, func, offset),
        CompositeInnerType::Array(array) => check_array_type(features, *array, offset),
        CompositeInnerType::Struct(fields) => check_struct_type(features, fields, offset),
        CompositeInnerType::Cont(cont) => check_cont_type(features, *cont, offset),
    }
}

/// Accepts so many of what may be at most so many, where `CRATE_LIMITS` is on.
fn check_count(
    features: WasmFeatures,
    most: usize,
    count: usize,
    rule: GroupRule,
    offset: u64,
) -> Result<(), Refusal>
    ensures allowed { is_ok result ≡ is_within (features_of features) most count }
    ensures refusal { IfErr result (IsMissingOrLimited features offset) }
    ensures told { refused result ≡ told_of_count features offset most count rule }
{
    if count > most && features.crate_limits() {
        return Err(Refusal::new(Fault::Group(rule), offset));
    }
    Ok(())
}

/// Accepts a composite type that keeps the limits, where `CRATE_LIMITS` is on.
fn check_limits<A: Allocator>(
    features: WasmFeatures,
    ty: &CompositeInnerType<A>,
    offset: u64,
) -> Result<(), Refusal>
    ensures allowed { is_ok result ≡ is_limited (features_of features) (comp_of ty.now) }
    ensures refusal { IfErr result (IsMissingOrLimited features offset) }
    ensures told { refused result ≡ told_of_limits features offset (comp_of ty.now) }
{
    match ty {
        CompositeInnerType::Func(func) => {
            let params = func.params().len();
            let results = func.results().len();
            let rule = GroupRule::FunctionParams;
            check_count(features, MAX_WASM_FUNCTION_PARAMS, params, rule, offset)?;
            let rule = GroupRule::FunctionReturns;
            check_count(features, MAX_WASM_FUNCTION_RETURNS, results, rule, offset)
        }
        CompositeInnerType::Struct(structure) => {
            let fields = structure.fields.as_slice().len();
            let rule = GroupRule::StructFields;
            check_count(features, MAX_WASM_STRUCT_FIELDS, fields, rule, offset)
        }
        CompositeInnerType::Array(_) | CompositeInnerType::Cont(_) => Ok(()),
    }
}

/// Accepts a composite type that the features allow (Core Specification 3.0, Validation, Types,
/// Composite Types): the indices in it aside, and whether it is shared.
///
/// # Errors
///
/// Refuses, at `offset`, a form without its proposals (`GroupRule`), more than one result without
/// `MULTI_VALUE`, and a value type that [`check_value_type`](crate::check_value_type) refuses: the
/// form before its fields, and the number of results behind their types. The refusal names the
/// proposal that would lift it. Behind all of these it refuses, with `CRATE_LIMITS`, more than 1,000
/// parameters, 1,000 results or 10,000 fields (`FunctionParams`, `FunctionReturns`, `StructFields`),
/// and names no proposal.
#[tactic(auto, using(crate::proofs::Composites::limited))]
pub fn check_composite_type<A: Allocator>(
    features: WasmFeatures,
    ty: &CompositeInnerType<A>,
    offset: u64,
) -> Result<(), Refusal>
    ensures allowed { is_ok result ≡ allows_comp (features_of features) (comp_of ty.now) }
    ensures refusal { IfErr result (IsMissingOrLimited features offset) }
    ensures told { refused result ≡ told_of_comp features offset (comp_of ty.now) }
{
    check_form(features, ty, offset)?;
    check_limits(features, ty, offset)
}
