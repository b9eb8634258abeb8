//! Constant expressions as their bytes.

ghost use Rattle.std.specs.Prelude.{◌≡◌, ◌≤◌, ◌<◌, ℕ, List, Some, None, IfOk, IfErr, OnOk, OnErr};
ghost use Rattle.wasm_readers.specs.WasmReadersBytes.Reader.{SameInput, position_in, rest, RefusedFrom, place_of_next};
ghost use Rattle.wasm_readers.specs.WrittenIndices.{written};
ghost use Rattle.wasm_operators.specs.Expressions.{expression_at};
ghost use Rattle.wasm_items.specs.SeenReaders.{expression_reader, expression_of, operators_left};

use crate::operators_reader::OperatorsReader;
use std::alloc::Allocator;
use wasm_operators::{Immediate, read_expression};
use wasm_readers::readers_errors::{Error, Refusal};
use wasm_readers::{BinaryReader, FromReader};

/// An expression where a constant one is wanted, as its bytes, with its `end` (Core Specification
/// 3.0, Binary Format, Instructions, Expressions). Whether it is constant isn't checked.
#[derive(Clone, Copy, Debug)]
pub struct ConstExpr<'a> {
    reader: BinaryReader<'a>,
}

impl<'a> ConstExpr<'a> {
    /// The expression that is left in this reader.
    pub fn new(reader: BinaryReader<'a>) -> ConstExpr<'a>
        ensures { expression_reader result ≡ reader.entry }
    {
        ConstExpr { reader }
    }

    /// A reader of the bytes.
    pub fn get_binary_reader(&self) -> BinaryReader<'a>
        ensures { result ≡ expression_reader self.now }
    {
        self.reader
    }

    /// A reader of the operators.
    pub fn get_operators_reader(&self) -> OperatorsReader<'a>
        ensures { operators_left result ≡ expression_reader self.now }
    {
        OperatorsReader::new(self.reader)
    }
}

/// Reads an expression, up to the `end` that belongs to no block in it.
///
/// # Errors
///
/// Refused at the first bytes that encode no operator, as where they end before the expression does.
pub fn read_const_expr<'a>(reader: &mut BinaryReader<'a>) -> Result<ConstExpr<'a>, Refusal>
    ensures same { SameInput reader.old reader.new }
    ensures onward { position_in reader.old ≤ position_in reader.new }
    ensures refusal { IfErr result (RefusedFrom reader.old) }
    ensures start { IfOk result (λ e. place_of_next (expression_reader e)
        ≡ place_of_next reader.old) }
    ensures ok { IfOk result (λ e. expression_at written (rest reader.old)
        ≡ Some (expression_of e, rest reader.new)) }
    ensures further { OnOk result (position_in reader.old < position_in reader.new) }
    ensures err { OnErr result (expression_at written (rest reader.old) ≡ None) }
{
    Ok(ConstExpr {
        reader: read_expression(reader)?,
    })
}

impl<'a> Immediate<'a> for ConstExpr<'a> {
    ghost Value = { List ℕ };

    ghost encoded = { expression_at written };

    ghost value = { expression_of };

    fn read(reader: &mut BinaryReader<'a>) -> Result<ConstExpr<'a>, Refusal> {
        read_const_expr(reader)
    }
}

impl<'a, A: Allocator> FromReader<'a, A> for ConstExpr<'a> {
    ghost Value = { List ℕ };

    ghost encoded = { expression_at written };

    ghost value = { expression_of };

    ghost refuses = { RefusedFrom };

    fn from_reader(_alloc: A, reader: &mut BinaryReader<'a>) -> Result<ConstExpr<'a>, Error> {
        Ok(read_const_expr(reader)?)
    }
}
