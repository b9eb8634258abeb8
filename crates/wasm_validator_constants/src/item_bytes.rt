//! The bytes of a reference alone.

ghost use Rattle.std.specs.Prelude.{◌≡◌, ◌≤◌, [], ◌∷◌, Some, OnSome, IfSome};
ghost use Rattle.wasm_operators.specs.Control.{end_};
ghost use Rattle.wasm_operators.specs.References.{ref_func};
ghost use Rattle.wasm_operators.specs.Instructions.{control, reference, instruction_at};
ghost use Rattle.wasm_typing_validator.specs.WasmSpecSteps.Sequences.{Are};
ghost use Rattle.wasm_readers.specs.WasmReadersBytes.Reader.{SameInput, position_in, rest};
ghost use Rattle.wasm_validator_constants.specs.Items.{IsNull};

use wasm_readers::BinaryReader;

/// Goes past an `end`, if it is next. Else the reader may stand further on.
#[inline(always)]
#[tactic(auto, using(crate::proofs::ItemBytes::written))]
pub fn next_end(reader: &mut BinaryReader<'_>) -> Option<()>
    ensures same { SameInput reader.old reader.new }
    ensures onward { OnSome result (position_in reader.old ≤ position_in reader.new) }
    ensures some { OnSome result (instruction_at (λ n. n) (rest reader.old)
        ≡ Some (control end_, rest reader.new)) }
{
    if reader.next_u8()? == 0x0b {
        Some(())
    } else {
        None
    }
}

/// Goes past a reference to a function and the `end` behind it, if these are next, and gives the
/// function's index. Else the reader may stand further on.
#[inline(always)]
#[tactic(auto, using(crate::proofs::ItemBytes::written))]
pub(crate) fn next_function(reader: &mut BinaryReader<'_>) -> Option<u32>
    ensures same { SameInput reader.old reader.new }
    ensures onward { OnSome result (position_in reader.old ≤ position_in reader.new) }
    ensures some { IfSome result (λ x. Are (reference (ref_func x) ∷ control end_ ∷ [])
        (rest reader.old) (rest reader.new)) }
{
    if reader.next_u8()? != 0xd2 {
        return None;
    }
    let function_index = reader.next_var_u32()?;
    next_end(reader)?;
    Some(function_index)
}

/// Goes past a null whose heap type is one byte and the `end` behind it, if these are next, and gives
/// the byte. Else the reader may stand further on.
#[inline(always)]
#[tactic(auto, using(crate::proofs::ItemBytes::written))]
pub(crate) fn next_null(reader: &mut BinaryReader<'_>) -> Option<u8>
    ensures same { SameInput reader.old reader.new }
    ensures onward { OnSome result (position_in reader.old ≤ position_in reader.new) }
    ensures some { IfSome result (λ b. IsNull b (rest reader.old) (rest reader.new)) }
{
    if reader.next_u8()? != 0xd0 {
        return None;
    }
    let byte = reader.next_u8()?;
    next_end(reader)?;
    Some(byte)
}
