//! What is written into a caller's arrays, as far as there is room.

ghost use Rattle.std.specs.Prelude.{◌≡◌, ◌<◌, length, map, slice_get, slice_index, Some};
ghost use Rattle.wasm_validator.specs.WasmValidatorTypes.ShownModules.{shown_by};
ghost use Rattle.wasm_validator_handles.specs.Arrays.{AreWritten, HasText};

use std::alloc::Allocator;
use wasm_validator::TypesRef;

/// One of these items.
pub fn item_at<T: Copy>(given: &[T], k: usize) -> T
    requires { k < length given.now }
    ensures { slice_get given.now k ≡ Some result }
{
    given[k]
}

/// Writes as much of a text as there is room for, and gives the length of the whole.
pub fn write_text(to: &mut [u8], text: &[u8]) -> u64
    ensures { HasText result to.old to.new }
{
    write_bytes(to, text);
    text.len() as u64
}

/// Writes as much of these bytes as there is room for.
pub fn write_bytes(to: &mut [u8], given: &[u8])
    ensures { AreWritten given.now to.old to.new }
{
    let most = to.len().min(given.len());
    to[..most].copy_from_slice(&given[..most]);
}

/// Writes as many of these numbers as there is room for.
pub fn write_numbers(to: &mut [u32], given: &[u32])
    ensures { AreWritten given.now to.old to.new }
{
    let room = to.len().min(given.len());
    to[..room].copy_from_slice(&given[..room]);
}

/// Writes the ids of the module's types, as far as there is room.
pub fn write_type_ids<A: Allocator + Copy>(to: &mut [u32], types: &TypesRef<'_, A>)
    ensures { AreWritten (shown_by types.now).spaces.types to.old to.new }
{
    'types: for index in 0..types.core_type_count_in_module() {
        let place = index as usize;
        if place >= to.len() {
            break;
        }
        to[place] = types.core_type_at_in_module(index).index() as u32;
    }
}

/// Writes the ids of the types of the module's functions, as far as there is room.
pub fn write_function_ids<A: Allocator + Copy>(to: &mut [u32], types: &TypesRef<'_, A>)
    ensures { let spaces = (shown_by types.now).spaces in AreWritten
        (map (slice_index spaces.types) spaces.functions) to.old to.new }
{
    'functions: for index in 0..types.function_count() {
        let place = index as usize;
        if place >= to.len() {
            break;
        }
        to[place] = types.core_function_at(index).index() as u32;
    }
}

/// Writes as much of a name as there is room for, and gives the length of the whole.
pub fn write_name(to: &mut [u8], name: &str) -> u64
    ensures told { result ≡ length name.now }
    ensures written { AreWritten name.now to.old to.new }
{
    write_bytes(to, name.as_bytes());
    name.len() as u64
}
