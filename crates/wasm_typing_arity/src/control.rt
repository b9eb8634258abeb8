//! How many operands control operators, calls and parametric operators take and give.

ghost use Rattle.std.specs.Prelude.{◌≡◌, ◌==◌, length, Some};
ghost use Rattle.wasm_spec_steps.specs.WasmSpecRules.WasmSpec.BinaryTypes.{val_at};
ghost use Rattle.wasm_operators.specs.WasmOperatorsPlain.WasmReaders.WrittenIndices.{written};
ghost use Rattle.wasm_operators.specs.Maps.{map_block, map_control, map_parametric};
ghost use Rattle.wasm_operators.specs.SeenControl.{block_of, control_of, parametric_of};
ghost use Rattle.wasm_operators.specs.SeenLists.{listed};
ghost use Rattle.wasm_spec_steps.specs.Shapes.{control_shape, call_shape, parametric_shape};
ghost use Rattle.wasm_typing_arity.specs.Arities.{pair, plus, takes_of, block_counts, arity, index_number};

use crate::counts::{
    block_counts, function_counts, innermost_counts, label_count, returned_count, tag_count,
    type_counts,
};
use crate::module::ModuleArity;
use wasm_operators::{BlockType, CallOperator, ControlOperator, Listed, ParametricOperator};
use wasm_readers_types::ValType;

/// How many operands an operator takes that begins a block, and takes so many besides, and how many
/// the block begins with.
pub(crate) fn opening_counts<M: ModuleArity>(
    resources: &M,
    ty: BlockType,
    besides: u8,
) -> Option<(u128, u128)>
    ensures { result ≡ pair (plus (Some besides)
        (takes_of (block_counts (M.asked resources.now) (map_block index_number (block_of ty)))))
        (takes_of (block_counts (M.asked resources.now) (map_block index_number (block_of ty)))) }
{
    match block_counts(resources, ty) {
        Some((takes, _)) => Some((besides as u128 + takes, takes)),
        None => None,
    }
}

/// How many operands are left to unreachable code: these, and none is given.
fn ending_counts(takes: Option<u128>) -> Option<(u128, u128)>
    ensures { result ≡ pair takes (Some 0) }
{
    match takes {
        Some(takes) => Some((takes, 0)),
        None => None,
    }
}

/// How many operands an operator that begins or ends a block takes and gives, or one that branches.
pub(crate) fn control_arity<M: ModuleArity>(
    op: &ControlOperator,
    resources: &M,
) -> Option<(u128, u128)>
    ensures { result ≡ arity (M.asked resources.now)
        (control_shape (map_control index_number (control_of op.now))) }
{
    match *op {
        ControlOperator::Unreachable | ControlOperator::Nop => Some((0, 0)),
        ControlOperator::Block { blockty } | ControlOperator::Loop { blockty } => {
            opening_counts(resources, blockty, 0)
        }
        ControlOperator::TryTable { try_table } => opening_counts(resources, try_table.ty, 0),
        ControlOperator::If { blockty } => opening_counts(resources, blockty, 1),
        ControlOperator::Else => match innermost_counts(resources) {
            Some((takes, gives)) => Some((gives, takes)),
            None => None,
        },
        ControlOperator::End => match innermost_counts(resources) {
            Some((_, gives)) => Some((gives, gives)),
            None => None,
        },
        ControlOperator::Throw { tag_index } => ending_counts(tag_count(resources, tag_index)),
        ControlOperator::ThrowRef => Some((1, 0)),
        ControlOperator::Br { relative_depth } => {
            ending_counts(label_count(resources, relative_depth))
        }
        ControlOperator::BrIf { relative_depth } => match label_count(resources, relative_depth) {
            Some(count) => Some((count + 1, count)),
            None => None,
        },
        ControlOperator::BrTable { targets } => match label_count(resources, targets.default) {
            Some(count) => Some((count + 1, 0)),
            None => None,
        },
        ControlOperator::Return => ending_counts(returned_count(resources)),
    }
}

/// How many operands a call takes and gives.
pub(crate) fn call_arity<M: ModuleArity>(op: &CallOperator, resources: &M) -> Option<(u128, u128)>
    ensures { result ≡ arity (M.asked resources.now) (call_shape op.now) }
{
    match *op {
        CallOperator::Call { function_index } => match function_counts(resources, function_index) {
            Some((params, results)) => Some((params, results)),
            None => None,
        },
        CallOperator::ReturnCall { function_index } => {
            match function_counts(resources, function_index) {
                Some((params, _)) => Some((params, 0)),
                None => None,
            }
        }
        CallOperator::CallIndirect { type_index, .. } | CallOperator::CallRef { type_index } => {
            match type_counts(resources, type_index) {
                Some((params, results)) => Some((params + 1, results)),
                None => None,
            }
        }
        CallOperator::ReturnCallIndirect { type_index, .. }
        | CallOperator::ReturnCallRef { type_index } => match type_counts(resources, type_index) {
            Some((params, _)) => Some((params + 1, 0)),
            None => None,
        },
    }
}

/// Whether a list has exactly one type.
fn is_one_type<'a>(types: &Listed<'a, ValType>) -> bool
    ensures { result ≡ (length (listed (val_at written) types.now) == 1) }
{
    let mut items = types.items();
    match items.next() {
        Some(_) => items.next().is_none(),
        None => false,
    }
}

/// How many operands a parametric operator takes and gives. A `select` names one type.
pub(crate) fn parametric_arity<M: ModuleArity>(
    op: &ParametricOperator,
    resources: &M,
) -> Option<(u128, u128)>
    ensures { result ≡ arity (M.asked resources.now)
        (parametric_shape (map_parametric index_number (parametric_of op.now))) }
{
    match op {
        ParametricOperator::Drop => Some((1, 0)),
        ParametricOperator::Select => Some((3, 1)),
        ParametricOperator::TypedSelect { tys } => {
            if is_one_type(tys) { Some((3, 1)) } else { None }
        }
    }
}
