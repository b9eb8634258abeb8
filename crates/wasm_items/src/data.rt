//! Data segments.

ghost use Rattle.std.specs.Prelude.{◌≡◌, ◌≤◌, Some, None, IfOk, IfErr, OnErr};
ghost use Rattle.wasm_readers.specs.WasmReadersBytes.Reader.{SameInput, position_in, rest, RefusedFrom, place_of_next};
ghost use Rattle.wasm_readers.specs.WasmSpec.BinarySections.{data_mode_from};
ghost use Rattle.wasm_readers.specs.WrittenIndices.{written};
ghost use Rattle.wasm_operators.specs.Expressions.{expression_at};
ghost use Rattle.wasm_operators.specs.WasmOperatorsPlain.Refusals.{RefusedBetween};
ghost use Rattle.wasm_items.specs.ItemExpressions.{with_index, data_item_at};
ghost use Rattle.wasm_items.specs.SeenItems.{written_mode_of, data_mode_of, data_of};

use crate::const_expr::{ConstExpr, read_const_expr};
use std::alloc::Allocator;
use std::ops::Range;
use wasm_readers::readers_errors::{Error, Fault, Malformed, Refusal};
use wasm_readers::{BinaryReader, FromReader};

/// How a data segment is used.
#[derive(Clone, Copy, Debug)]
pub enum DataKind<'a> {
    Passive,
    /// Written into a memory at the start; into memory 0 where no index is written.
    Active {
        memory_index: u32,
        offset_expr: ConstExpr<'a>,
    },
}

/// A data segment (Core Specification 3.0, Binary Format, Modules, Data Section).
#[derive(Clone, Debug, Drop)]
pub struct Data<'a> {
    pub kind: DataKind<'a>,
    pub bytes: &'a [u8],
    /// The offsets, from the start of the input, of the segment's first byte and of the byte after
    /// it.
    pub range: Range<u64>,
}

/// How a data segment is used, with the index of its memory if one is written.
#[derive(Clone, Copy)]
pub enum WrittenMode<'a> {
    Passive,
    Active(Option<u32>, ConstExpr<'a>),
}

/// Where a data segment with this flag goes, which stood at this offset.
fn read_mode<'a>(
    reader: &mut BinaryReader<'a>,
    flag: u32,
    offset: u64,
) -> Result<WrittenMode<'a>, Refusal>
    requires { offset ≤ place_of_next reader.old }
    ensures same { SameInput reader.old reader.new }
    ensures onward { position_in reader.old ≤ position_in reader.new }
    ensures refusal { IfErr result (RefusedBetween offset reader.old) }
    ensures ok { IfOk result (λ m. data_mode_from (expression_at written) flag (rest reader.old)
        ≡ Some (written_mode_of m, rest reader.new)) }
    ensures err { OnErr result (data_mode_from (expression_at written) flag (rest reader.old)
        ≡ None) }
{
    match flag {
        0 => Ok(WrittenMode::Active(None, read_const_expr(reader)?)),
        1 => Ok(WrittenMode::Passive),
        2 => {
            let memory_index = reader.read_var_u32()?;
            let offset_expr = read_const_expr(reader)?;
            Ok(WrittenMode::Active(Some(memory_index), offset_expr))
        }
        _ => Err(Refusal::new(Fault::Malformed(Malformed::DataFlags), offset)),
    }
}

/// How a data segment is used that is written so: without an index, it goes into memory 0.
fn kind_of(mode: WrittenMode<'_>) -> DataKind<'_>
    ensures { data_mode_of result ≡ with_index (written_mode_of mode.entry) }
{
    match mode {
        WrittenMode::Passive => DataKind::Passive,
        WrittenMode::Active(Some(memory_index), offset_expr) => DataKind::Active {
            memory_index,
            offset_expr,
        },
        WrittenMode::Active(None, offset_expr) => DataKind::Active {
            memory_index: 0,
            offset_expr,
        },
    }
}

/// Reads a data segment.
///
/// # Errors
///
/// Refused where the bytes begin with none: a flag above 2 at its first byte.
#[tactic(auto, unfolding(crate::proofs::Cited::data_at))]
pub fn read_data<'a>(reader: &mut BinaryReader<'a>) -> Result<Data<'a>, Refusal>
    ensures same { SameInput reader.old reader.new }
    ensures onward { position_in reader.old ≤ position_in reader.new }
    ensures refusal { IfErr result (RefusedFrom reader.old) }
    ensures ok { IfOk result (λ d. data_item_at (rest reader.old)
        ≡ Some (data_of d, rest reader.new)) }
    ensures start { IfOk result (λ d. d.range.start ≡ place_of_next reader.old) }
    ensures end { IfOk result (λ d. d.range.end ≡ place_of_next reader.new) }
    ensures err { OnErr result (data_item_at (rest reader.old) ≡ None) }
{
    let start = reader.original_position();
    let flag = reader.read_var_u32()?;
    let mode = read_mode(reader, flag, start)?;
    let bytes = reader.read_sized()?.remaining();
    Ok(Data {
        kind: kind_of(mode),
        bytes,
        range: start..reader.original_position(),
    })
}

impl<'a, A: Allocator> FromReader<'a, A> for Data<'a> {
    ghost use Rattle.std.specs.Prelude.{ℕ, List};
    ghost use Rattle.wasm_readers.specs.WasmSpec.BinarySections.{Data};

    ghost Value = { Data (List ℕ) };

    ghost encoded = { data_item_at };

    ghost value = { data_of };

    ghost refuses = { RefusedFrom };

    fn from_reader(_alloc: A, reader: &mut BinaryReader<'a>) -> Result<Data<'a>, Error> {
        Ok(read_data(reader)?)
    }
}
