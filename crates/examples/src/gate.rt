//! An admission gate: a module is let in exactly where it is valid and keeps the limits of
//! `CRATE_LIMITS`, which bound the work on it by its bytes. Who takes modules from strangers limits
//! their bytes besides.

use std::io;
use wasm_validator::{Flags, Validator, ValidatorId, WasmFeatures};

/// A module with one function type.
const ONE_TYPE: &[u8] = b"\0asm\x01\0\0\0\x01\x06\x01\x60\x01\x7f\x01\x7c";
/// A module whose memory has more pages than it may grow to.
const SHRINKING_MEMORY: &[u8] = b"\0asm\x01\0\0\0\x05\x04\x01\x01\x02\x01";

/// Lets a module in, or turns it away.
fn admit<R: Print + AllocGlobal>(rt: &R, bytes: &[u8]) -> io::Result<()> {
    let features = WasmFeatures::STANDARD.union(WasmFeatures::CRATE_LIMITS);
    let id = ValidatorId::from_number(0);
    let mut gate = Validator::new_with_features(rt.alloc(), features, id);
    match gate.validate_all(bytes) {
        Ok(_types) => println!(rt; "let in"),
        Err(error) if error.is_out_of_memory() => println!(rt; "try again"),
        Err(error) => println!(rt; "turned away, for byte {}: {error}", error.offset()),
    }
}

/// Lets two modules in, or turns them away.
pub fn run<R: Print + AllocGlobal>(rt: &R) -> io::Result<()> {
    admit(rt, ONE_TYPE)?;
    admit(rt, SHRINKING_MEMORY)
}
