//! An example: an interpreter that runs bodies in place, over the side tables that their validation
//! makes, and three functions from an integer of 64 bits to another.
#![tactic(auto)]

mod engine;
mod loader;
mod operators;

use engine::{Stopped, Store, run_function};
use loader::load;
use std::alloc::Allocator;
use std::io;

/// The product of the numbers from 1 to the parameter, by recursion.
const FAC: &[u8] = &[
    0x00, 0x20, 0x00, 0x50, 0x04, 0x7e, 0x42, 0x01, 0x05, 0x20, 0x00, 0x20, 0x00, 0x42, 0x01, 0x7d,
    0x10, 0x00, 0x7e, 0x0b, 0x0b,
];

/// The Fibonacci number of the parameter, by recursion, with a `br_if` out of a block.
const FIB: &[u8] = &[
    0x00, 0x02, 0x40, 0x20, 0x00, 0x42, 0x02, 0x5a, 0x45, 0x0d, 0x00, 0x20, 0x00, 0x42, 0x01, 0x7d,
    0x10, 0x01, 0x20, 0x00, 0x42, 0x02, 0x7d, 0x10, 0x01, 0x7c, 0x0f, 0x0b, 0x20, 0x00, 0x0b,
];

/// The sum of the squares below the parameter, which one loop writes to the memory and another one
/// reads.
const SUM: &[u8] = &[
    0x02, 0x01, 0x7f, 0x02, 0x7e, 0x02, 0x40, 0x03, 0x40, 0x20, 0x02, 0x20, 0x00, 0x5a, 0x0d, 0x01,
    0x20, 0x01, 0x20, 0x02, 0x20, 0x02, 0x7e, 0x37, 0x03, 0x00, 0x20, 0x01, 0x41, 0x08, 0x6a, 0x21,
    0x01, 0x20, 0x02, 0x42, 0x01, 0x7c, 0x21, 0x02, 0x0c, 0x00, 0x0b, 0x0b, 0x03, 0x7e, 0x20, 0x03,
    0x20, 0x01, 0x45, 0x0d, 0x01, 0x1a, 0x20, 0x01, 0x41, 0x08, 0x6b, 0x22, 0x01, 0x29, 0x03, 0x00,
    0x20, 0x03, 0x7c, 0x21, 0x03, 0x0c, 0x00, 0x0b, 0x0b,
];

/// Runs one of the functions.
fn result_of<A: Allocator + Copy>(alloc: A, function: usize, n: u64) -> Result<u64, Stopped> {
    let loaded = load(alloc, &[FAC, FIB, SUM])?;
    let mut store = Store {
        values: Vec::new(alloc),
        memory: Vec::new(alloc),
    };
    store.memory.resize(65_536, 0)?;
    store.push(n)?;
    run_function(alloc, &loaded, &mut store, function, 10_000_000)?;
    store.pop()
}

/// Runs each function, and prints what it gives.
pub fn run<R: Print + AllocGlobal>(rt: &R) -> io::Result<()> {
    for (name, function, n) in [("fac", 0, 20), ("fib", 1, 20), ("sum", 2, 100)] {
        match result_of(rt.alloc(), function, n) {
            Ok(result) => println!(rt; "{name}({n}) = {result}")?,
            Err(_) => println!(rt; "{name}({n}) has no result")?,
        }
    }
    Ok(())
}

/// Passed on from `wasm_validator_side_table`.
pub mod side_table {
    pub use wasm_validator_side_table::validator_func::{FuncToValidate, FuncValidatorAllocations};
    pub use wasm_validator_side_table::{SideTable, validate_with_side_table};
}
