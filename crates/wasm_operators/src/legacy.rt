//! Operators of the legacy exception-handling proposal.

ghost use Rattle.std.specs.Prelude.{◌≡◌, ◌≤◌, ◌+◌, Some, None, IfOk, IfErr, OnErr};
ghost use Rattle.wasm_operators_proposals.specs.WasmOperatorsPlain.WasmReaders.WasmReadersBytes.Reader.{SameInput, position_in, original, rest};
ghost use Rattle.wasm_operators_proposals.specs.WasmOperatorsPlain.WasmReaders.WrittenIndices.{written};
ghost use Rattle.wasm_operators_proposals.specs.WasmOperatorsPlain.Refusals.{RefusedBetween};
ghost use Rattle.wasm_operators.specs.Legacy.{legacy_from};
ghost use Rattle.wasm_operators.specs.SeenLegacy.{legacy_of};

use crate::control::{BlockType, read_block_type};
use wasm_operators_proposals::operators_plain::readers::BinaryReader;
use wasm_operators_proposals::operators_plain::readers_errors::Refusal;
use wasm_operators_proposals::operators_plain::unknown_opcode;

/// The operators by which exceptions were handled before references to them (the legacy
/// exception-handling proposal). Validation asks for `LEGACY_EXCEPTIONS` and `EXCEPTIONS`.
#[derive(Clone, Copy, Debug)]
pub enum LegacyOperator {
    /// A block whose exceptions are caught behind it, or handed to a label.
    Try { blockty: BlockType },
    /// What is done with the exceptions of this tag.
    Catch { tag_index: u32 },
    /// Throws the exception again that the block of this label has caught.
    Rethrow { relative_depth: u32 },
    /// The end of a `try` whose exceptions are thrown at this label, which is counted from outside.
    Delegate { relative_depth: u32 },
    /// What is done with all other exceptions.
    CatchAll,
}

impl LegacyOperator {
    ghost use Rattle.std.specs.Prelude.{◌≡◌};
    ghost use Rattle.wasm_operators.specs.Legacy.{legacy_opcode};
    ghost use Rattle.wasm_operators.specs.SeenLegacy.{legacy_of};

    /// The opcode, a byte.
    pub fn opcode(self) -> u8
        ensures { result ≡ legacy_opcode (legacy_of self) }
    {
        match self {
            LegacyOperator::Try { .. } => 0x06,
            LegacyOperator::Catch { .. } => 0x07,
            LegacyOperator::Rethrow { .. } => 0x09,
            LegacyOperator::Delegate { .. } => 0x18,
            LegacyOperator::CatchAll => 0x19,
        }
    }
}

/// The operator of legacy exceptions of this opcode, which stood at this offset.
#[tactic(auto, unfolding(crate::specs::Legacy::legacy_from))]
pub(crate) fn read_legacy(
    reader: &mut BinaryReader,
    opcode: u8,
    offset: u64,
) -> Result<LegacyOperator, Refusal>
    requires { offset ≤ original reader.old + position_in reader.old }
    ensures same { SameInput reader.old reader.new }
    ensures onward { position_in reader.old ≤ position_in reader.new }
    ensures refusal { IfErr result (RefusedBetween offset reader.old) }
    ensures ok { IfOk result (λ op. legacy_from written opcode (rest reader.old)
        ≡ Some (legacy_of op, rest reader.new)) }
    ensures err { OnErr result (legacy_from written opcode (rest reader.old) ≡ None) }
{
    match opcode {
        0x06 => Ok(LegacyOperator::Try {
            blockty: read_block_type(reader)?,
        }),
        0x07 => Ok(LegacyOperator::Catch {
            tag_index: reader.read_var_u32()?,
        }),
        0x09 => Ok(LegacyOperator::Rethrow {
            relative_depth: reader.read_var_u32()?,
        }),
        0x18 => Ok(LegacyOperator::Delegate {
            relative_depth: reader.read_var_u32()?,
        }),
        0x19 => Ok(LegacyOperator::CatchAll),
        _ => Err(unknown_opcode(opcode, offset)),
    }
}
