ghost use Rattle.std.specs.Prelude.{◌≡◌, ◌+◌, length, Some, None, IfOk, IfErr, OnErr};
ghost use Rattle.wasm_spec.specs.Values.{name_at};
ghost use Rattle.wasm_items.specs.WasmReaders.WasmReadersBytes.Reader.{input, SameInput, position_in, original, rest, RefusedFrom};
ghost use Rattle.wasm_parser.specs.PayloadViews.{name_of, data_of, data_reader};

use std::ops::Range;
use wasm_items::readers::BinaryReader;
use wasm_items::readers_errors::Refusal;

/// A custom section: a name, and bytes that the standard gives no meaning (Core Specification 3.0,
/// Binary Format, Custom Section).
#[derive(Clone, Copy, Debug)]
pub struct CustomSectionReader<'a> {
    name: &'a str,
    reader: BinaryReader<'a>,
}

impl<'a> CustomSectionReader<'a> {
    /// The section of these contents: a name, and what follows it (Core Specification 3.0, Binary
    /// Format, Modules, Custom Section).
    ///
    /// # Errors
    ///
    /// Refused where the bytes begin with no name, as by [`BinaryReader::read_string`].
    pub fn new(reader: BinaryReader<'a>) -> Result<CustomSectionReader<'a>, Refusal>
        ensures ok { IfOk result (λ s. name_at (rest reader.entry) ≡ Some (name_of s, data_of s)) }
        ensures part { IfOk result (λ s. SameInput reader.entry (data_reader s)) }
        ensures refusal { IfErr result (RefusedFrom reader.entry) }
        ensures err { OnErr result (name_at (rest reader.entry) ≡ None) }
    {
        let mut reader = reader;
        let name = reader.read_string()?;
        Ok(CustomSectionReader { name, reader })
    }

    /// The name.
    pub fn name(&self) -> &'a str
        ensures { result.now ≡ name_of self.now }
    {
        self.name
    }

    /// The bytes behind the name.
    pub fn data(&self) -> &'a [u8]
        ensures { result.now ≡ data_of self.now }
    {
        self.reader.remaining()
    }

    /// The offset, from the start of the input, of the first byte behind the name.
    pub fn data_offset(&self) -> u64
        ensures { result ≡ original (data_reader self.now) + position_in (data_reader self.now) }
    {
        self.reader.original_position()
    }

    /// The offsets, from the start of the input, of the contents' first byte and of the byte behind
    /// them.
    pub fn range(&self) -> Range<u64>
        ensures start { result.start ≡ original (data_reader self.now) }
        ensures end { result.end ≡ original (data_reader self.now) + length
            (input (data_reader self.now)) }
    {
        self.reader.range()
    }
}
