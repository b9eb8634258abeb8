//! Types of functions, and the start function (Core Specification 3.0, Validation, Modules, Start
//! Function).

ghost use Rattle.std.specs.Prelude.{◌≡◌, length, slice_get, is_ok, is_some, IfOk, IfErr};
ghost use Rattle.std.specs.declared.option.Option.TheVariants.{Some, None};
ghost use Rattle.wasm_validator_checks.specs.Answers.{IsPlainRefusalAt};
ghost use Rattle.wasm_validator_checks.specs.WasmValidatorTypeList.DefTypes.{types_of_list};
ghost use Rattle.wasm_validator_core.specs.Functions.{IsTypeOfFunction, IsUnknownFunction};
ghost use Rattle.wasm_validator_core.specs.Items.{arity_of_function, is_startable};
ghost use Rattle.wasm_validator_core.specs.OpenLists.{AreHeld};
ghost use Rattle.wasm_validator_core.specs.AddedItemRefusals.{told_of_function_type, told_of_start};
ghost use Rattle.wasm_readers_errors.specs.Refusals.{refused};

use std::alloc::Allocator;
use wasm_readers::{Fault, FuncType, ItemRule, Refusal};
use wasm_validator_checks::validator_types::{IndexSpaces, TypeList};
use wasm_validator_checks::{func_type_at, known_ids};

/// The type of the function with this index.
pub(crate) fn function_type<'a, A: Allocator + Copy>(
    list: &'a TypeList<A>,
    spaces: &IndexSpaces<A>,
    func_idx: u32,
    offset: u64,
) -> Result<&'a FuncType<A>, Refusal>
    requires { AreHeld list.now spaces.now.types }
    ensures there { is_ok result ≡ is_some (arity_of_function
        (types_of_list list.now) spaces.now func_idx) }
    ensures arity { IfOk result (λ f. arity_of_function (types_of_list list.now) spaces.now func_idx
        ≡ Some (length f.now.params, length f.now.results)) }
    ensures value { IfOk result (λ f. IsTypeOfFunction list.now spaces.now func_idx f.now) }
    ensures refusal { IfErr result (IsPlainRefusalAt offset) }
    ensures told { refused result ≡ told_of_function_type offset
        (types_of_list list.now) spaces.now func_idx }
    ensures unknown { slice_get spaces.now.functions func_idx ≡ None
        → IfErr result (IsUnknownFunction func_idx offset) }
{
    if func_idx >= spaces.function_count() {
        return Err(Refusal::new(Fault::UnknownFunction(func_idx), offset));
    }
    let type_index = spaces.function_type_index(func_idx);
    func_type_at(list, known_ids(list, spaces), type_index, offset)
}

/// Accepts the index of a function that takes and gives nothing.
pub(crate) fn check_start_function<A: Allocator + Copy>(
    list: &TypeList<A>,
    spaces: &IndexSpaces<A>,
    func_idx: u32,
    offset: u64,
) -> Result<(), Refusal>
    requires { AreHeld list.now spaces.now.types }
    ensures allowed { is_ok result ≡ is_startable (types_of_list list.now) spaces.now func_idx }
    ensures refusal { IfErr result (IsPlainRefusalAt offset) }
    ensures told { refused result ≡ told_of_start offset
        (types_of_list list.now) spaces.now func_idx }
{
    let signature = function_type(list, spaces, func_idx, offset)?;
    if signature.params().is_empty() && signature.results().is_empty() {
        Ok(())
    } else {
        Err(Refusal::new(Fault::Item(ItemRule::StartType), offset))
    }
}
