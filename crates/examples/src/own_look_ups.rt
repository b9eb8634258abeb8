//! An engine that keeps modules in a form of its own validates a body over its own look-ups.

use examples_own_module::{OwnFunction, OwnModule, OwnParts};
use std::alloc::{AllocError, Allocator};
use std::io;
use wasm_validator::{
    BinaryReader, BodyError, FuncToValidate, FuncType, FuncValidatorAllocations, FunctionBody,
    SubType, ValType, WasmFeatures,
};

/// A body without locals of its own, which gives the double of its parameter: `local.get 0` twice,
/// `i32.add` and `end`.
const DOUBLE: &[u8] = b"\0\x20\0\x20\0\x6a\x0b";

/// The same without the second `local.get 0`.
const UNBALANCED: &[u8] = b"\0\x20\0\x6a\x0b";

/// What the functions take and give: an i32.
fn signature<A: Allocator + Copy>(alloc: A) -> Result<FuncType<A>, AllocError> {
    let mut params = Vec::new(alloc);
    params.push(ValType::I32)?;
    let mut results = Vec::new(alloc);
    results.push(ValType::I32)?;
    Ok(FuncType::new(params, results))
}

/// Validates the body of function 0 in this module.
fn validate_body<A: Allocator + Copy>(
    alloc: A,
    module: &OwnModule<'_, A>,
    bytes: &[u8],
) -> Result<(), BodyError> {
    let function = FuncToValidate {
        resources: module,
        index: 0,
        ty: 0,
        features: WasmFeatures::STANDARD,
    };
    let body = FunctionBody::new(BinaryReader::new(bytes, 0));
    let _memory = function.validate(&body, FuncValidatorAllocations::new(alloc))?;
    Ok(())
}

/// A function that is defined in the module, of its first type.
const FUNCTION: OwnFunction = OwnFunction {
    type_index: 0,
    is_exact: true,
};

/// A module of these types, with two functions of the first.
fn module_of<A: Allocator>(types: &[SubType<A>]) -> Option<OwnModule<'_, A>> {
    OwnModule::new(OwnParts {
        types,
        functions: &[FUNCTION, FUNCTION],
        tables: &[],
        memories: &[],
        globals: &[],
        tags: &[],
        elements: &[],
        data_count: None,
        references: &[],
    })
}

/// Validates the body of function 0 in a module of two functions of one type. There is no answer
/// where a module can't have so many types.
fn validate_in_module<A: Allocator + Copy>(
    alloc: A,
    bytes: &[u8],
) -> Result<Option<()>, BodyError> {
    let mut types = Vec::new(alloc);
    types.push(SubType::func(alloc, signature(alloc)?, false))?;
    match module_of(types.as_slice()) {
        Some(module) => Ok(Some(validate_body(alloc, &module, bytes)?)),
        None => Ok(None),
    }
}

/// Prints whether a body is valid.
fn print_verdict<R: Print + AllocGlobal>(rt: &R, bytes: &[u8]) -> io::Result<()> {
    match validate_in_module(rt.alloc(), bytes) {
        Ok(Some(())) => println!(rt; "the body is valid"),
        Ok(None) => println!(rt; "the module has too many types"),
        Err(error) => println!(rt; "the body is refused at byte {}: {error}", error.offset()),
    }
}

/// Prints whether each body is valid.
pub fn run<R: Print + AllocGlobal>(rt: &R) -> io::Result<()> {
    print_verdict(rt, DOUBLE)?;
    print_verdict(rt, UNBALANCED)
}
