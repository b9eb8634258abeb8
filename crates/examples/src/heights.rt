//! A debugger validates the first body of a module operator by operator, and prints how many operands
//! and frames there are after each.

use crate::interpreter::check_payload;
use crate::refusals::print_refusal;
use std::alloc::Allocator;
use std::io;
use wasm_validator::{
    BinaryReader, BodyError, Error, FuncToValidate, FuncValidator, FuncValidatorAllocations,
    FunctionBody, Parser, ValidPayload, Validator, ValidatorId, ValidatorResources, read_operator,
    validate,
};

/// A module with one function, from a number to its double: `block (result i32)`, `local.get 0`
/// twice, `i32.add`, and two times `end`.
const BYTES: &[u8] =
    b"\0asm\x01\0\0\0\x01\x06\x01\x60\x01\x7f\x01\x7f\x03\x02\x01\0\x0a\x0c\x01\x0a\0\x02\x7f\x20\0\x20\0\x6a\x0b\x0b";

/// A module that imports a function and has two, of which the second adds a number to nothing.
const UNBALANCED: &[u8] =
    b"\0asm\x01\0\0\0\x01\x06\x01\x60\x01\x7f\x01\x7f\x02\x07\x01\x01a\x01f\0\0\x03\x03\x02\0\0\x0a\x0c\x02\x04\0\x20\0\x0b\x05\0\x20\0\x6a\x0b";

/// The offset of an operator, and how many operands and frames there are after it.
#[derive(Clone, Copy)]
struct Height {
    offset: u64,
    operands: u32,
    frames: u32,
}

/// Validates the next operator, and gives the heights after it.
fn height_after<A: Allocator + Copy>(
    validator: &mut FuncValidator<ValidatorResources<A>, A>,
    reader: &mut BinaryReader<'_>,
) -> Result<Height, BodyError> {
    let offset = reader.original_position();
    let operator = read_operator(reader)?;
    validator.op(offset, &operator)?;
    Ok(Height {
        offset,
        operands: validator.operand_stack_height(),
        frames: validator.control_stack_height(),
    })
}

/// The heights after each operator of the body.
fn heights<A: Allocator + Copy>(
    alloc: A,
    function: FuncToValidate<ValidatorResources<A>>,
    body: &FunctionBody<'_>,
) -> Result<Vec<Height, A>, BodyError> {
    let mut validator = function.into_validator(FuncValidatorAllocations::new(alloc))?;
    let mut reader = body.get_binary_reader();
    validator.read_locals(&mut reader)?;
    let mut heights = Vec::new(alloc);
    for _ in 0..reader.bytes_remaining() {
        if reader.eof() {
            break;
        }
        heights.push(height_after(&mut validator, &mut reader)?)?;
    }
    if validator.control_stack_height() > 0 {
        // The bytes end before the body does, which is refused here.
        read_operator(&mut reader)?;
    }
    Ok(heights)
}

/// A function of a module, and its body.
type Defined<'a, A> = (FuncToValidate<ValidatorResources<A>>, FunctionBody<'a>);

/// The first function with a body in a module that is valid up to it, if it has one.
fn first_function<'a, A: Allocator + Copy>(
    alloc: A,
    bytes: &'a [u8],
) -> Result<Option<Defined<'a, A>>, Error<A>> {
    let mut validator = Validator::new(alloc, ValidatorId::from_number(0));
    let mut payloads = Parser::new(alloc, 0).parse_all(bytes);
    for _ in 0..u64::MAX {
        let Some(payload) = payloads.next_payload()? else {
            break;
        };
        if let ValidPayload::Func(function, body) = check_payload(&mut validator, payload)? {
            return Ok(Some((function, body)));
        }
    }
    Ok(None)
}

/// The heights in the first body of a module that is valid up to it, if it has one.
fn first_heights<A: Allocator + Copy>(
    alloc: A,
    bytes: &[u8],
) -> Result<Option<Vec<Height, A>>, Error<A>> {
    let Some((function, body)) = first_function(alloc, bytes)? else {
        return Ok(None);
    };
    let index = function.index;
    match heights(alloc, function, &body) {
        Ok(heights) => Ok(Some(heights)),
        Err(error) => Err(Error::in_function(index, error)),
    }
}

/// Prints the heights in the one body of a module.
pub fn run<R: Print + AllocGlobal>(rt: &R) -> io::Result<()> {
    match first_heights(rt.alloc(), BYTES) {
        Ok(Some(heights)) => print_heights(rt, &heights),
        Ok(None) => println!(rt; "the module has no body"),
        Err(error) => print_refusal(rt, &error),
    }
}

fn print_heights<R: Print>(rt: &R, heights: &[Height]) -> io::Result<()> {
    for height in heights {
        let Height {
            offset,
            operands,
            frames,
        } = *height;
        println!(rt; "byte {offset}: {operands} operands, {frames} frames")?;
    }
    Ok(())
}

/// Prints in which function of a module a body isn't valid.
pub fn print_refused_body<R: Print + AllocGlobal>(rt: &R) -> io::Result<()> {
    match validate(rt.alloc(), UNBALANCED, ValidatorId::from_number(0)) {
        Ok(_types) => println!(rt; "all bodies are valid"),
        Err(error) => print_refusal(rt, &error),
    }
}
