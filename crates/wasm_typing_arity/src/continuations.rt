//! How many operands operators on continuations take and give.

ghost use Rattle.std.specs.Prelude.{◌≡◌, map, Some, None, IfSome, IfNone};
ghost use Rattle.std.specs.Option.{option_map, option_and_then};
ghost use Rattle.wasm_readers_types.specs.WasmReadersValues.SeenValues.{ref_of, val_of};
ghost use Rattle.wasm_readers_types.specs.SeenTypes.{func_of, sub_of};
ghost use Rattle.wasm_operators.specs.SeenContinuations.{continuation_of};
ghost use Rattle.wasm_spec_steps.specs.WasmSpecRules.Attempts.{last_of};
ghost use Rattle.wasm_spec_steps.specs.WasmSpecRules.WasmSpec.Syntax.{reference};
ghost use Rattle.wasm_spec_steps.specs.WasmSpecRules.Signatures.{signature_of};
ghost use Rattle.wasm_spec_steps.specs.Actions.{params, results, of_tag, taken_by, before, front};
ghost use Rattle.wasm_spec_steps.specs.Shapes.{continuation_shape, takes_of, gives_of};
ghost use Rattle.wasm_typing_arity.specs.ArityQueries.{Asked, func_alone};
ghost use Rattle.wasm_typing_arity.specs.Arities.{arity, how_many, pair, plus, func_counts, referred_by, function_behind, last_type, continued_counts, switched_counts};
ghost use Rattle.wasm_typing_arity.specs.Sizes.{AreSmall};

use crate::module::ModuleArity;
use std::alloc::Allocator;
use wasm_operators::ContinuationOperator;
use wasm_readers_types::{CompositeInnerType, FuncType, RefType, SubType, ValType};

/// How many operands an operator takes and gives, if that is known.
type Arity = Option<(u128, u128)>;

/// The function type that a type is of, if it is a continuation type.
fn function_behind<'a, M: ModuleArity>(
    resources: &'a M,
    ty: &SubType<M::A>,
) -> Option<&'a FuncType<M::A>>
    ensures { option_map (λ f. func_of f.now) result ≡ option_and_then (λ d. func_alone d.comp)
        (function_behind (M.asked resources.now) (Some (sub_of ty.now))) }
{
    match &ty.composite_type.inner {
        CompositeInnerType::Cont(function) => resources.func_type_of_cont_type(function),
        _ => None,
    }
}

/// How many parameters and results a function type has.
fn func_counts<A: Allocator>(signature: &FuncType<A>) -> (u128, u128)
    ensures counted { Some result ≡ func_counts (func_of signature.now) }
    ensures small { AreSmall result }
{
    (
        signature.params().len() as u128,
        signature.results().len() as u128,
    )
}

/// How many operands a continuation of this type takes and gives.
#[tactic(auto, using(crate::proofs::ContinuationCounts::continuing))]
fn counts_behind<M: ModuleArity>(resources: &M, ty: &SubType<M::A>) -> Arity
    ensures counted { result ≡ option_and_then (λ d. func_counts d.comp)
        (function_behind (M.asked resources.now) (Some (sub_of ty.now))) }
    ensures small { IfSome result AreSmall }
{
    match function_behind(resources, ty) {
        Some(signature) => Some(func_counts(signature)),
        None => None,
    }
}

/// How many operands a continuation of the type of this index takes and gives.
fn continued_counts<M: ModuleArity>(resources: &M, type_index: u32) -> Arity
    ensures counted { result ≡ continued_counts (M.asked resources.now) type_index }
    ensures small { IfSome result AreSmall }
{
    match resources.sub_type_at(type_index) {
        Some(ty) => counts_behind(resources, ty),
        None => None,
    }
}

/// The last parameter of a function type, where it is a reference.
#[tactic(auto, using(crate::proofs::ContinuationCounts::lasts))]
fn last_reference<A: Allocator>(signature: &FuncType<A>) -> Option<RefType>
    ensures some { IfSome result (λ r. last_of (map val_of signature.now.params)
        ≡ Some (reference (ref_of r))) }
    ensures none { IfNone result ((M : Asked)
        → referred_by M (last_of (map val_of signature.now.params)) ≡ None) }
{
    match signature.params().last() {
        Some(ValType::Ref(last)) => Some(*last),
        _ => None,
    }
}

/// The type that the last parameter of a function type refers to.
#[tactic(auto, using(crate::proofs::ContinuationCounts::referring))]
fn referred_last<'a, M: ModuleArity>(
    resources: &'a M,
    signature: &FuncType<M::A>,
) -> Option<&'a SubType<M::A>>
    ensures { option_map (λ t. sub_of t.now) result ≡ referred_by (M.asked resources.now)
        (last_of (map val_of signature.now.params)) }
{
    match last_reference(signature) {
        Some(last) => resources.sub_type_of_ref_type(&last),
        None => None,
    }
}

/// The type that a continuation of this type gets last.
#[tactic(auto, using(crate::proofs::ContinuationCounts::continuing))]
fn last_behind<'a, M: ModuleArity>(
    resources: &'a M,
    ty: &SubType<M::A>,
) -> Option<&'a SubType<M::A>>
    ensures { option_map (λ t. sub_of t.now) result ≡ option_and_then
        (λ d. referred_by (M.asked resources.now)
        (option_and_then (λ g. last_of g.takes) (signature_of d.comp)))
        (function_behind (M.asked resources.now) (Some (sub_of ty.now))) }
{
    match function_behind(resources, ty) {
        Some(signature) => referred_last(resources, signature),
        None => None,
    }
}

/// The type that a continuation of the type of this index gets last.
fn last_taken<M: ModuleArity>(resources: &M, type_index: u32) -> Option<&SubType<M::A>>
    ensures { option_map (λ t. sub_of t.now) result
        ≡ last_type (M.asked resources.now) (takes_of type_index) }
{
    match resources.sub_type_at(type_index) {
        Some(ty) => last_behind(resources, ty),
        None => None,
    }
}

/// How many operands the continuation takes and gives that one of the type of this index gets last.
fn switched_counts<M: ModuleArity>(resources: &M, type_index: u32) -> Arity
    ensures counted { result ≡ switched_counts (M.asked resources.now) type_index }
    ensures small { IfSome result AreSmall }
{
    match last_taken(resources, type_index) {
        Some(ty) => counts_behind(resources, ty),
        None => None,
    }
}

/// How many operands a tag takes and gives.
fn tag_counts<M: ModuleArity>(resources: &M, tag_index: u32) -> Arity
    ensures counted { result ≡ pair (how_many (M.asked resources.now) (params (of_tag tag_index)))
        (how_many (M.asked resources.now) (results (of_tag tag_index))) }
    ensures small { IfSome result AreSmall }
{
    match resources.tag_type_arity(tag_index) {
        Some((params, results)) => Some((params as u128, results as u128)),
        None => None,
    }
}

/// How many operands `cont.bind` takes and gives.
fn bind_arity<M: ModuleArity>(resources: &M, argument_index: u32, result_index: u32) -> Arity
    ensures { result ≡ pair (plus (how_many (M.asked resources.now)
        (before (takes_of argument_index) (takes_of result_index))) (Some 1)) (Some 1) }
{
    let (all, _) = continued_counts(resources, argument_index)?;
    let (kept, _) = continued_counts(resources, result_index)?;
    if all < kept {
        return None;
    }
    Some((all - kept + 1, 1))
}

/// How many operands `switch` takes and gives. What is switched to takes one, where the last that it
/// takes is known.
#[tactic(auto, using(crate::proofs::ContinuationCounts::switching))]
fn switch_arity<M: ModuleArity>(resources: &M, type_index: u32) -> Arity
    ensures { result ≡ pair (plus (how_many (M.asked resources.now) (front (takes_of type_index)))
        (Some 1)) (how_many (M.asked resources.now) (taken_by (takes_of type_index))) }
{
    let (takes, _) = continued_counts(resources, type_index)?;
    let (gives, _) = switched_counts(resources, type_index)?;
    Some((takes, gives))
}

/// How many operands `resume` takes and gives.
fn resume_arity<M: ModuleArity>(resources: &M, type_index: u32) -> Arity
    ensures { result ≡ pair (plus (how_many (M.asked resources.now) (takes_of type_index)) (Some 1))
        (how_many (M.asked resources.now) (gives_of type_index)) }
{
    match continued_counts(resources, type_index) {
        Some((takes, gives)) => Some((takes + 1, gives)),
        None => None,
    }
}

/// How many operands `resume_throw` takes and gives.
fn throw_arity<M: ModuleArity>(resources: &M, type_index: u32, tag_index: u32) -> Arity
    ensures { result ≡ pair (plus (how_many (M.asked resources.now) (params (of_tag tag_index)))
        (Some 1)) (how_many (M.asked resources.now) (gives_of type_index)) }
{
    let (takes, _) = tag_counts(resources, tag_index)?;
    let (_, gives) = continued_counts(resources, type_index)?;
    Some((takes + 1, gives))
}

/// How many operands `resume_throw_ref` takes and gives.
fn throw_ref_arity<M: ModuleArity>(resources: &M, type_index: u32) -> Arity
    ensures { result ≡ pair (Some 2) (how_many (M.asked resources.now) (gives_of type_index)) }
{
    match continued_counts(resources, type_index) {
        Some((_, gives)) => Some((2, gives)),
        None => None,
    }
}

/// How many operands an operator on continuations takes and gives.
pub(crate) fn continuation_arity<M: ModuleArity>(
    op: &ContinuationOperator<'_>,
    resources: &M,
) -> Arity
    ensures { result ≡ arity (M.asked resources.now) (continuation_shape (continuation_of op.now)) }
{
    match *op {
        ContinuationOperator::ContNew { .. } => Some((1, 1)),
        ContinuationOperator::ContBind {
            argument_index,
            result_index,
        } => bind_arity(resources, argument_index, result_index),
        ContinuationOperator::Suspend { tag_index } => tag_counts(resources, tag_index),
        ContinuationOperator::Resume {
            cont_type_index,
            ..
        } => resume_arity(resources, cont_type_index),
        ContinuationOperator::ResumeThrow {
            cont_type_index,
            tag_index,
            ..
        } => throw_arity(resources, cont_type_index, tag_index),
        ContinuationOperator::ResumeThrowRef {
            cont_type_index,
            ..
        } => throw_ref_arity(resources, cont_type_index),
        ContinuationOperator::Switch {
            cont_type_index,
            ..
        } => switch_arity(resources, cont_type_index),
    }
}
