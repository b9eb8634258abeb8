//! An inspection tool shows the index spaces of a module.

use crate::refusals::print_refusal;
use std::alloc::Allocator;
use std::io;
use wasm_validator::{TypesRef, ValidatorId, validate};

/// A module that imports a function, a memory and a table, and exports the function as `c`.
const BYTES: &[u8] =
    b"\0asm\x01\0\0\0\x01\x05\x01\x60\x01\x7f\0\x02\x16\x03\x01a\x01f\0\0\x01a\x01m\x02\0\x01\x01a\x01t\x01\x70\0\x05\x07\x05\x01\x01c\0\0";

/// Prints the functions, memories and tables of a module.
pub fn run<R: Print + AllocGlobal>(rt: &R) -> io::Result<()> {
    let types = match validate(rt.alloc(), BYTES, ValidatorId::from_number(0)) {
        Ok(types) => types,
        Err(error) => return print_refusal(rt, &error),
    };
    let shown = types.as_ref();
    for index in 0..shown.function_count() {
        // The list has the type of each function of a module that was accepted.
        let ty = &shown[shown.core_function_at(index)];
        let id = shown.core_function_at(index).index();
        println!(rt; "function {index}: type {id}, final {}", ty.is_final)?;
    }
    print_memories(rt, &shown)?;
    print_tables(rt, &shown)
}

fn print_memories<R: Print, A: Allocator + Copy>(
    rt: &R,
    shown: &TypesRef<'_, A>,
) -> io::Result<()> {
    for index in 0..shown.memory_count() {
        let pages = shown.memory_at(index).initial;
        println!(rt; "memory {index}: {pages} pages at the start")?;
    }
    Ok(())
}

fn print_tables<R: Print, A: Allocator + Copy>(rt: &R, shown: &TypesRef<'_, A>) -> io::Result<()> {
    for index in 0..shown.table_count() {
        let entries = shown.table_at(index).initial;
        println!(rt; "table {index}: {entries} entries at the start")?;
    }
    Ok(())
}

/// A module with a group of two types that refer to each other, and an array of the first.
const TYPES: &[u8] =
    b"\0asm\x01\0\0\0\x01\x13\x02\x4e\x02\x5f\x01\x63\x01\x01\x60\x02\x7f\x63\0\x01\x7c\x5e\x64\0\0";

/// Prints each type of a module under its id.
pub fn print_types<R: Print + AllocGlobal>(rt: &R) -> io::Result<()> {
    let types = match validate(rt.alloc(), TYPES, ValidatorId::from_number(0)) {
        Ok(types) => types,
        Err(error) => return print_refusal(rt, &error),
    };
    let shown = types.as_ref();
    for index in 0..shown.core_type_count_in_module() {
        let id = shown.core_type_at_in_module(index);
        println!(rt; "type {index}, id {}: {}", id.index(), shown[id])?;
    }
    Ok(())
}
