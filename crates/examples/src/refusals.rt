//! How these examples print why a module is refused.

use std::alloc::Allocator;
use std::io;
use wasm_validator::Error;

/// Prints what is wrong, where, and of a body in which function.
pub fn print_refusal<R: Print, A: Allocator>(rt: &R, error: &Error<A>) -> io::Result<()> {
    let message = error.message();
    match error.function() {
        Some(index) => println!(rt; "function {index}, byte {}: {message}", error.offset()),
        None => println!(rt; "byte {}: {message}", error.offset()),
    }
}
