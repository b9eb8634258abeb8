//! A test of what the calls on a module ask of the list of types that they are given.

ghost use Rattle.std.specs.Bool.{Decides};
ghost use Rattle.wasm_validator_modules.specs.WasmValidatorCore.OpenLists.{AreHeld};

use std::alloc::Allocator;
use wasm_validator_modules::{Module, TypeList};

/// Whether the list has a type for each id of the module's types, as the calls of [`Module`] ask.
pub fn holds_types_of<A: Allocator + Copy>(list: &TypeList<A>, module: &Module<A>) -> bool
    ensures { Decides result (AreHeld list.now «module».now.types) }
{
    list.holds_all(module.spaces().type_ids())
}
