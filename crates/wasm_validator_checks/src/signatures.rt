//! How many parameters and results the types of a list have.

ghost use Rattle.std.specs.Prelude.{◌≡◌, map};
ghost use Rattle.wasm_readers_types.specs.SeenTypes.{sub_of};
ghost use Rattle.wasm_validator_type_list.specs.ListViews.{types_in};
ghost use Rattle.wasm_validator_canonical.specs.Arities.{arity_at};
ghost use Rattle.wasm_validator_type_list.specs.DefTypes.{types_of_list};
ghost use Rattle.wasm_validator_checks.specs.Arities.{written_arity_at};

use std::alloc::Allocator;
use wasm_readers::{CompositeInnerType, CoreTypeId};
use wasm_validator_types::TypeList;

/// How many parameters and results the type with this id has, if it is a function type.
pub fn function_arity<A: Allocator + Copy>(
    list: &TypeList<A>,
    id: CoreTypeId,
) -> Option<(usize, usize)>
    ensures { result ≡ arity_at (types_of_list list.now) id.index }
{
    list.recall_promises();
    written_arity(list, id)
}

/// The same, as it is written in the list.
fn written_arity<A: Allocator + Copy>(list: &TypeList<A>, id: CoreTypeId) -> Option<(usize, usize)>
    ensures { result ≡ written_arity_at (map sub_of (types_in list.now)) id.index }
{
    match list.get(id) {
        Some(ty) => match &ty.composite_type.inner {
            CompositeInnerType::Func(func) => Some((func.params().len(), func.results().len())),
            _ => None,
        },
        None => None,
    }
}
