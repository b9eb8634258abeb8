//! How many operands operators on references, structures and arrays take and give.

ghost use Rattle.std.specs.Prelude.{◌≡◌, ◌∷◌, [], Some, IfSome};
ghost use Rattle.wasm_spec_steps.specs.WasmSpecRules.WasmSpec.Syntax.{i32};
ghost use Rattle.wasm_operators.specs.Maps.{map_reference, map_cast};
ghost use Rattle.wasm_operators.specs.SeenReferences.{reference_of, cast_of};
ghost use Rattle.wasm_spec_steps.specs.Shapes.{reference_shape, cast_shape, conversion_shape, struct_shape, array_shape};
ghost use Rattle.wasm_spec_steps.specs.Actions.{these, label, front, joined};
ghost use Rattle.wasm_typing_arity.specs.Arities.{how_many, arity, index_number};
ghost use Rattle.wasm_typing_arity.specs.Sizes.{IsSmall};
ghost use Rattle.wasm_typing_arity.specs.ArityQueries.{Asked};

use crate::counts::{field_count, label_count};
use crate::module::ModuleArity;
use wasm_operators::{
    ArrayOperator, CastOperator, ConversionOperator, ReferenceOperator, StructOperator,
};

/// How many operands an operator on references takes and gives.
pub(crate) fn reference_arity<M: ModuleArity>(
    op: &ReferenceOperator,
    resources: &M,
) -> Option<(u128, u128)>
    ensures { result ≡ arity (M.asked resources.now)
        (reference_shape (map_reference index_number (reference_of op.now))) }
{
    match *op {
        ReferenceOperator::RefNull { .. } | ReferenceOperator::RefFunc { .. } => Some((0, 1)),
        ReferenceOperator::RefIsNull | ReferenceOperator::RefAsNonNull => Some((1, 1)),
        ReferenceOperator::RefEq => Some((2, 1)),
        ReferenceOperator::BrOnNull { relative_depth } => {
            match label_count(resources, relative_depth) {
                Some(count) => Some((count + 1, count + 1)),
                None => None,
            }
        }
        ReferenceOperator::BrOnNonNull { relative_depth } => {
            match label_count(resources, relative_depth) {
                Some(count) if count > 0 => Some((count, count - 1)),
                _ => None,
            }
        }
    }
}

/// How many operands a branch on a cast leaves where it is not taken: as many as its label takes,
/// and one at least.
fn kept_count<M: ModuleArity>(resources: &M, depth: u32) -> Option<u128>
    ensures counted { result ≡ how_many (M.asked resources.now)
        (joined (front (label depth)) (these (i32 ∷ []))) }
    ensures small { IfSome result IsSmall }
{
    match label_count(resources, depth) {
        Some(count) if count > 0 => Some(count),
        Some(_) => Some(1),
        None => None,
    }
}

/// How many operands a test or a cast of a reference takes and gives, or a branch on one.
pub(crate) fn cast_arity<M: ModuleArity>(op: &CastOperator, resources: &M) -> Option<(u128, u128)>
    ensures { result ≡ arity (M.asked resources.now)
        (cast_shape (map_cast index_number (cast_of op.now))) }
{
    match *op {
        CastOperator::RefTestNonNull { .. }
        | CastOperator::RefGetDesc { .. }
        | CastOperator::RefTestNullable { .. }
        | CastOperator::RefCastNonNull { .. }
        | CastOperator::RefCastNullable { .. } => Some((1, 1)),
        CastOperator::RefCastDescEqNonNull { .. } | CastOperator::RefCastDescEqNullable { .. } => {
            Some((2, 1))
        }
        CastOperator::BrOnCast { relative_depth, .. }
        | CastOperator::BrOnCastFail { relative_depth, .. } => {
            match kept_count(resources, relative_depth) {
                Some(count) => Some((count, count)),
                None => None,
            }
        }
        CastOperator::BrOnCastDescEq { relative_depth, .. }
        | CastOperator::BrOnCastDescEqFail { relative_depth, .. } => {
            match kept_count(resources, relative_depth) {
                Some(count) => Some((count + 1, count)),
                None => None,
            }
        }
    }
}

/// How many operands a conversion of references takes and gives.
pub(crate) fn conversion_arity(op: ConversionOperator) -> (u128, u128)
    ensures { (M : Asked) → Some result ≡ arity M (conversion_shape op) }
{
    match op {
        ConversionOperator::AnyConvertExtern
        | ConversionOperator::ExternConvertAny
        | ConversionOperator::RefI31
        | ConversionOperator::RefI31Shared
        | ConversionOperator::I31GetS
        | ConversionOperator::I31GetU => (1, 1),
    }
}

/// How many operands an operator on structures takes and gives.
pub(crate) fn struct_arity<M: ModuleArity>(
    op: &StructOperator,
    resources: &M,
) -> Option<(u128, u128)>
    ensures { result ≡ arity (M.asked resources.now) (struct_shape op.now) }
{
    match *op {
        StructOperator::StructNew { struct_type_index } => {
            match field_count(resources, struct_type_index) {
                Some(count) => Some((count, 1)),
                None => None,
            }
        }
        StructOperator::StructNewDesc { struct_type_index } => {
            match field_count(resources, struct_type_index) {
                Some(count) => Some((count + 1, 1)),
                None => None,
            }
        }
        StructOperator::StructNewDefault { .. } => Some((0, 1)),
        StructOperator::StructNewDefaultDesc { .. }
        | StructOperator::StructGet { .. }
        | StructOperator::StructGetS { .. }
        | StructOperator::StructGetU { .. } => Some((1, 1)),
        StructOperator::StructSet { .. } => Some((2, 0)),
    }
}

/// How many operands an operator on arrays takes and gives.
pub(crate) fn array_arity(op: &ArrayOperator) -> (u128, u128)
    ensures { (M : Asked) → Some result ≡ arity M (array_shape op.now) }
{
    match *op {
        ArrayOperator::ArrayNew { .. }
        | ArrayOperator::ArrayNewData { .. }
        | ArrayOperator::ArrayNewElem { .. }
        | ArrayOperator::ArrayGet { .. }
        | ArrayOperator::ArrayGetS { .. }
        | ArrayOperator::ArrayGetU { .. } => (2, 1),
        ArrayOperator::ArrayNewDefault { .. } | ArrayOperator::ArrayLen => (1, 1),
        ArrayOperator::ArrayNewFixed { array_size, .. } => (array_size as u128, 1),
        ArrayOperator::ArraySet { .. } => (3, 0),
        ArrayOperator::ArrayFill { .. }
        | ArrayOperator::ArrayInitData { .. }
        | ArrayOperator::ArrayInitElem { .. } => (4, 0),
        ArrayOperator::ArrayCopy { .. } => (5, 0),
    }
}
