//! Constant expressions of one integer, whose number is passed and not read.

ghost use Rattle.std.specs.Prelude.{◌≡◌, ◌≤◌, [], OnSome};
ghost use Rattle.wasm_spec.specs.Syntax.{i32, i64};
ghost use Rattle.wasm_readers.specs.WasmReadersBytes.Reader.{SameInput, position_in, rest};
ghost use Rattle.wasm_readers_types.specs.WasmReadersValues.SeenValues.{val_of};
ghost use Rattle.wasm_validator_constants.specs.WasmValidatorReferences.References.{names_of_expression};
ghost use Rattle.wasm_validator_segments.specs.Numbers.{IsAnywhere};

use wasm_readers::BinaryReader;
use wasm_readers_types::ValType;
use wasm_validator_constants::{next_end, pass_i32, pass_i64};

/// Goes past a constant expression of one integer of 32 bits, if it is next. Else the reader may
/// stand further on.
#[inline(always)]
#[tactic(auto, using(crate::proofs::IntegerOffsets::anywhere))]
fn next_i32(reader: &mut BinaryReader<'_>) -> Option<()>
    ensures same { SameInput reader.old reader.new }
    ensures onward { OnSome result (position_in reader.old ≤ position_in reader.new) }
    ensures some { OnSome result (IsAnywhere i32 (rest reader.old) (rest reader.new)) }
    ensures named { OnSome result (names_of_expression (rest reader.old) ≡ []) }
{
    if reader.next_u8()? != 0x41 {
        return None;
    }
    match pass_i32(reader) {
        Ok(()) => next_end(reader),
        Err(_) => None,
    }
}

/// Goes past a constant expression of one integer of 64 bits, if it is next. Else the reader may
/// stand further on.
#[inline(always)]
#[tactic(auto, using(crate::proofs::IntegerOffsets::anywhere))]
fn next_i64(reader: &mut BinaryReader<'_>) -> Option<()>
    ensures same { SameInput reader.old reader.new }
    ensures onward { OnSome result (position_in reader.old ≤ position_in reader.new) }
    ensures some { OnSome result (IsAnywhere i64 (rest reader.old) (rest reader.new)) }
    ensures named { OnSome result (names_of_expression (rest reader.old) ≡ []) }
{
    if reader.next_u8()? != 0x42 {
        return None;
    }
    match pass_i64(reader) {
        Ok(()) => next_end(reader),
        Err(_) => None,
    }
}

/// Goes past a constant expression of one integer of this type, if it is next. Else the reader may
/// stand further on.
#[inline(always)]
pub(crate) fn next_number(ty: ValType, reader: &mut BinaryReader<'_>) -> Option<()>
    ensures same { SameInput reader.old reader.new }
    ensures onward { OnSome result (position_in reader.old ≤ position_in reader.new) }
    ensures some { OnSome result (IsAnywhere (val_of ty) (rest reader.old) (rest reader.new)) }
    ensures named { OnSome result (names_of_expression (rest reader.old) ≡ []) }
{
    match ty {
        ValType::I32 => next_i32(reader),
        ValType::I64 => next_i64(reader),
        _ => None,
    }
}
