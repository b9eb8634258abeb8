//! Globals with their initializers.

ghost use Rattle.std.specs.Prelude.{◌≡◌, ◌≤◌, Some, None, IfOk, IfErr, OnErr};
ghost use Rattle.wasm_readers.specs.WasmReadersBytes.Reader.{SameInput, position_in, rest, RefusedFrom};
ghost use Rattle.wasm_readers.specs.WasmSpec.BinarySections.{GlobalEntry, global_entry_at};
ghost use Rattle.wasm_readers.specs.WasmReadersTypes.WasmReadersValues.declared.indices.UnpackedIndex.{UnpackedIndex};
ghost use Rattle.wasm_readers.specs.WrittenIndices.{written};
ghost use Rattle.wasm_operators.specs.Expressions.{expression_at};
ghost use Rattle.wasm_items.specs.SeenItems.{global_entry_of};

use crate::const_expr::{ConstExpr, read_const_expr};
use std::alloc::Allocator;
use wasm_readers::externs::read_global_type;
use wasm_readers::readers_errors::{Error, Refusal};
use wasm_readers::{BinaryReader, FromReader, GlobalType};

/// A global with its initializer (Core Specification 3.0, Binary Format, Modules, Global Section).
#[derive(Clone, Copy, Debug)]
pub struct Global<'a> {
    pub ty: GlobalType,
    pub init_expr: ConstExpr<'a>,
}

/// Reads a global.
///
/// # Errors
///
/// Refused where the bytes begin with none.
#[tactic(auto, unfolding(crate::proofs::Cited::global_entry_at))]
pub fn read_global<'a>(reader: &mut BinaryReader<'a>) -> Result<Global<'a>, Refusal>
    ensures same { SameInput reader.old reader.new }
    ensures onward { position_in reader.old ≤ position_in reader.new }
    ensures refusal { IfErr result (RefusedFrom reader.old) }
    ensures ok { IfOk result (λ g. global_entry_at (expression_at written) written
        (rest reader.old) ≡ Some (global_entry_of g, rest reader.new)) }
    ensures err { OnErr result (global_entry_at (expression_at written) written
        (rest reader.old) ≡ None) }
{
    let ty = read_global_type(reader)?;
    let init_expr = read_const_expr(reader)?;
    Ok(Global { ty, init_expr })
}

impl<'a, A: Allocator> FromReader<'a, A> for Global<'a> {
    ghost use Rattle.std.specs.Prelude.{ℕ, List};

    ghost Value = { GlobalEntry (List ℕ) UnpackedIndex };

    ghost encoded = { global_entry_at (expression_at written) written };

    ghost value = { global_entry_of };

    ghost refuses = { RefusedFrom };

    fn from_reader(_alloc: A, reader: &mut BinaryReader<'a>) -> Result<Global<'a>, Error> {
        Ok(read_global(reader)?)
    }
}
