//! A component validator keeps its own types beside those of its modules: equal types have one id.

use crate::refusals::print_refusal;
use std::alloc::Allocator;
use std::io;
use wasm_validator::{CoreTypeId, Error, FuncType, TypeList, ValType};

/// The ids of `[] -> []`, of `[i32] -> []`, and of `[] -> []` once more, in one list.
fn intern_three<A: Allocator + Copy>(alloc: A) -> Result<[CoreTypeId; 3], Error<A>> {
    let mut types = TypeList::new(alloc, true);
    let first = types.intern_func_type(FuncType::new(Vec::new(alloc), Vec::new(alloc)), 0)?;
    let mut params = Vec::new(alloc);
    params.push(ValType::I32)?;
    let second = types.intern_func_type(FuncType::new(params, Vec::new(alloc)), 0)?;
    let third = types.intern_func_type(FuncType::new(Vec::new(alloc), Vec::new(alloc)), 0)?;
    Ok([first, second, third])
}

/// Prints the ids of three types, of which two are equal.
pub fn run<R: Print + AllocGlobal>(rt: &R) -> io::Result<()> {
    match intern_three(rt.alloc()) {
        Ok(ids) => {
            let [first, second, third] = ids;
            println!(rt; "{} {} {}", first.index(), second.index(), third.index())
        }
        Err(error) => print_refusal(rt, &error),
    }
}
