//! Tables with their initializers.

ghost use Rattle.std.specs.Prelude.{◌≡◌, ◌≤◌, Some, None, IfOk, IfErr, OnErr};
ghost use Rattle.wasm_readers.specs.WasmReadersBytes.Reader.{SameInput, position_in, rest, RefusedFrom};
ghost use Rattle.wasm_readers.specs.WasmSpec.BinarySections.{TableEntry, table_entry_at};
ghost use Rattle.wasm_readers.specs.WasmReadersTypes.WasmReadersValues.declared.indices.UnpackedIndex.{UnpackedIndex};
ghost use Rattle.wasm_readers.specs.WrittenIndices.{written};
ghost use Rattle.wasm_operators.specs.Expressions.{expression_at};
ghost use Rattle.wasm_items.specs.SeenItems.{table_entry_of};

use crate::const_expr::{ConstExpr, read_const_expr};
use std::alloc::Allocator;
use wasm_readers::externs::read_table_head;
use wasm_readers::readers_errors::{Error, Refusal};
use wasm_readers::{BinaryReader, FromReader, TableType};

/// What a table holds at the start.
#[derive(Clone, Copy, Debug)]
pub enum TableInit<'a> {
    /// Null references.
    RefNull,
    /// What this expression gives.
    Expr(ConstExpr<'a>),
}

/// A table with its initializer (Core Specification 3.0, Binary Format, Modules, Table Section).
#[derive(Clone, Copy, Debug)]
pub struct Table<'a> {
    pub ty: TableType,
    pub init: TableInit<'a>,
}

/// Reads a table.
///
/// # Errors
///
/// Refused where the bytes begin with none: a byte `0x40` begins one with an initializer, and a
/// byte other than 0 after it is refused at its offset.
#[tactic(auto, using(crate::proofs::TableHeads::tables_by_heads))]
pub fn read_table<'a>(reader: &mut BinaryReader<'a>) -> Result<Table<'a>, Refusal>
    ensures same { SameInput reader.old reader.new }
    ensures onward { position_in reader.old ≤ position_in reader.new }
    ensures refusal { IfErr result (RefusedFrom reader.old) }
    ensures ok { IfOk result (λ t. table_entry_at (expression_at written) written
        (rest reader.old) ≡ Some (table_entry_of t, rest reader.new)) }
    ensures err { OnErr result (table_entry_at (expression_at written) written
        (rest reader.old) ≡ None) }
{
    let head = read_table_head(reader)?;
    if head.has_init {
        let init_expr = read_const_expr(reader)?;
        return Ok(Table {
            ty: head.ty,
            init: TableInit::Expr(init_expr),
        });
    }
    Ok(Table {
        ty: head.ty,
        init: TableInit::RefNull,
    })
}

impl<'a, A: Allocator> FromReader<'a, A> for Table<'a> {
    ghost use Rattle.std.specs.Prelude.{ℕ, List};

    ghost Value = { TableEntry (List ℕ) UnpackedIndex };

    ghost encoded = { table_entry_at (expression_at written) written };

    ghost value = { table_entry_of };

    ghost refuses = { RefusedFrom };

    fn from_reader(_alloc: A, reader: &mut BinaryReader<'a>) -> Result<Table<'a>, Error> {
        Ok(read_table(reader)?)
    }
}
