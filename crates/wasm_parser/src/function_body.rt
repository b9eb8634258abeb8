//! Function bodies, as their bytes.

ghost use Rattle.std.specs.Prelude.{◌≡◌, ◌+◌, length, Some, None, IfOk, IfErr, OnErr};
ghost use Rattle.wasm_spec.specs.Values.{u32_at};
ghost use Rattle.wasm_items.specs.WasmReaders.WasmReadersBytes.Reader.{input, SameInput, position_in, original, rest, RefusedFrom};
ghost use Rattle.wasm_items.specs.WasmOperators.SeenLists.{behind};
ghost use Rattle.wasm_items.specs.SeenReaders.{operators_left};
ghost use Rattle.wasm_parser.specs.Locals.{locals_at};
ghost use Rattle.wasm_parser.specs.PayloadViews.{body_of, body_reader};
ghost use Rattle.wasm_parser.specs.SeenLocals.{locals_count, locals_left};

use crate::locals::{LocalDeclaration, LocalsReader};
use std::ops::Range;
use wasm_items::OperatorsReader;
use wasm_items::operators::read_listed;
use wasm_items::readers::BinaryReader;
use wasm_items::readers_errors::Refusal;

/// The body of one function: its locals and its instructions (Core Specification 3.0, Binary
/// Format, Code Section).
#[derive(Clone, Copy, Debug)]
pub struct FunctionBody<'a> {
    reader: BinaryReader<'a>,
}

impl<'a> FunctionBody<'a> {
    /// The body that is left in this reader.
    pub fn new(reader: BinaryReader<'a>) -> FunctionBody<'a>
        ensures bytes { body_of result ≡ rest reader.entry }
        ensures reader { body_reader result ≡ reader.entry }
    {
        FunctionBody { reader }
    }

    /// The offsets, from the start of the input, of the body's first byte and of the byte behind
    /// it.
    pub fn range(&self) -> Range<u64>
        ensures start { result.start ≡ original (body_reader self.now) + position_in
            (body_reader self.now) }
        ensures end { result.end ≡ original (body_reader self.now) + length
            (input (body_reader self.now)) }
    {
        let reader = self.get_binary_reader();
        reader.original_position()..reader.range().end
    }

    /// The bytes of the body.
    pub fn as_bytes(&self) -> &'a [u8]
        ensures { result.now ≡ body_of self.now }
    {
        self.get_binary_reader().remaining()
    }

    /// A reader of the body.
    pub fn get_binary_reader(&self) -> BinaryReader<'a>
        ensures { result ≡ body_reader self.now }
    {
        self.reader
    }

    /// A reader of the declarations of locals.
    ///
    /// # Errors
    ///
    /// Refused where the body begins with no count, as by [`BinaryReader::read_var_u32`].
    pub fn get_locals_reader(&self) -> Result<LocalsReader<'a>, Refusal>
        ensures ok { IfOk result (λ l. u32_at (body_of self.now)
            ≡ Some (locals_count l, rest (locals_left l))) }
        ensures part { IfOk result (λ l. SameInput (body_reader self.now) (locals_left l)) }
        ensures refusal { IfErr result (RefusedFrom (body_reader self.now)) }
        ensures err { OnErr result (u32_at (body_of self.now) ≡ None) }
    {
        LocalsReader::new(self.reader)
    }

    /// A reader of the bytes after the declarations of locals.
    ///
    /// # Errors
    ///
    /// Refused where the body begins with no list of declarations.
    pub fn get_binary_reader_for_operators(&self) -> Result<BinaryReader<'a>, Refusal>
        ensures ok { IfOk result (λ r. behind (locals_at (body_of self.now)) ≡ Some (rest r)) }
        ensures part { IfOk result (λ r. SameInput (body_reader self.now) r) }
        ensures refusal { IfErr result (RefusedFrom (body_reader self.now)) }
        ensures err { OnErr result (locals_at (body_of self.now) ≡ None) }
    {
        let mut reader = self.reader;
        read_listed::<LocalDeclaration>(&mut reader)?;
        Ok(reader)
    }

    /// A reader of the operators, which follow the declarations of locals.
    ///
    /// # Errors
    ///
    /// Refused where the body begins with no list of declarations.
    pub fn get_operators_reader(&self) -> Result<OperatorsReader<'a>, Refusal>
        ensures ok { IfOk result (λ r. behind (locals_at (body_of self.now))
            ≡ Some (rest (operators_left r))) }
        ensures part { IfOk result (λ r. SameInput (body_reader self.now) (operators_left r)) }
        ensures refusal { IfErr result (RefusedFrom (body_reader self.now)) }
        ensures err { OnErr result (locals_at (body_of self.now) ≡ None) }
    {
        Ok(OperatorsReader::new(self.get_binary_reader_for_operators()?))
    }
}
