//! Opcodes that no operator has.

ghost use Rattle.std.specs.Prelude.{◌≡◌};
ghost use Rattle.wasm_readers.specs.WasmReadersErrors.Refusals.{plain};

use wasm_readers::readers_errors::{Fault, Malformed, Refusal};

/// The refusal of an opcode of one byte, at this byte offset from the start of the input.
#[inline(never)]
pub fn unknown_opcode(opcode: u8, offset: u64) -> Refusal
    ensures { result ≡ plain (Fault.Malformed (Malformed.Opcode opcode)) offset }
{
    Refusal::new(Fault::Malformed(Malformed::Opcode(opcode)), offset)
}

/// The refusal of the number `code` behind a prefix which stands at this byte offset from the start
/// of the input.
#[inline(never)]
pub fn unknown_prefixed_opcode(prefix: u8, code: u32, offset: u64) -> Refusal
    ensures { result ≡ plain (Fault.Malformed (Malformed.PrefixedOpcode prefix code)) offset }
{
    Refusal::new(
        Fault::Malformed(Malformed::PrefixedOpcode(prefix, code)),
        offset,
    )
}
