//! An interpreter reads sections and bodies as they come, and has each checked before it uses it.

use crate::refusals::print_refusal;
use std::alloc::{Allocator, Global};
use std::io;
use wasm_validator::{
    Error, FuncValidatorAllocations, Parser, Payload, Types, ValidPayload, Validator, ValidatorId,
};

/// A module that exports the function `c`, which takes a number and gives it.
const BYTES: &[u8] =
    b"\0asm\x01\0\0\0\x01\x06\x01\x60\x01\x7f\x01\x7f\x03\x02\x01\0\x07\x05\x01\x01c\0\0\x0a\x06\x01\x04\0\x20\0\x0b";

/// What an interpreter keeps of a module that it loads.
#[derive(Drop)]
struct Loaded<A: Allocator = Global> {
    types: Types<A>,
    body_count: u32,
}

/// Checks a payload. What is done with it is done here, behind its check.
pub fn check_payload<'a, A: Allocator + Copy>(
    validator: &mut Validator<A>,
    payload: Payload<'a, A>,
) -> Result<ValidPayload<'a, A>, Error<A>> {
    validator.payload(&payload)
}

/// Checks the module payload by payload, and each body as it comes, in the same memory.
fn load<A: Allocator + Copy>(alloc: A, bytes: &[u8]) -> Result<Option<Loaded<A>>, Error<A>> {
    let mut validator = Validator::new(alloc, ValidatorId::from_number(0));
    let mut payloads = Parser::new(alloc, 0).parse_all(bytes);
    let mut allocations = FuncValidatorAllocations::new(alloc);
    let mut body_count = 0u32;
    for _ in 0..u64::MAX {
        let Some(payload) = payloads.next_payload()? else {
            break;
        };
        match check_payload(&mut validator, payload)? {
            ValidPayload::Ok => {}
            ValidPayload::Func(function, body) => {
                allocations = function.validate(&body, allocations)?;
                body_count = body_count.saturating_add(1);
            }
            ValidPayload::End(types) => return Ok(Some(Loaded { types, body_count })),
        }
    }
    Ok(None)
}

/// Loads a module, and prints what is kept of it.
pub fn run<R: Print + AllocGlobal>(rt: &R) -> io::Result<()> {
    match load(rt.alloc(), BYTES) {
        Ok(Some(loaded)) => {
            let functions = loaded.types.as_ref().function_count();
            let bodies = loaded.body_count;
            println!(rt; "{functions} function, {bodies} body")
        }
        Ok(None) => println!(rt; "the module has no end"),
        Err(error) => print_refusal(rt, &error),
    }
}
