//! Bytes read from their front (Core Specification 3.0, Binary Format, Values).
//!
//! A [`BinaryReader`] has a part of the input, the offset of that part's first byte in the whole
//! input, and how many bytes of the part are read. So offsets in refusals count from the start of
//! the input, while a reader of a part sees nothing behind it. A contract sees three things of a
//! reader: its bytes and their offset (`SameInput` says that both stay), its position in them, and
//! the rest.
//!
//! A method either reads one value, and then the rest is what follows it, or refuses, at the byte
//! that its contract names. Numbers are in LEB128: unsigned ones are read by unrolled code, and
//! refusals are made out of line.

ghost use Rattle.std.specs.Prelude.{◌≡◌, ◌==◌, ◌≤◌, ◌<◌, ◌^◌, ◌-◌, ◌+◌, ◌≤ℤ◌, ◌<ℤ◌, ◌-ℤ◌, pos, IfOk, OnOk, OnErr, IfSome, OnSome, IfNone, length, [], ◌∷◌, Some, None, IfErr};
ghost use Rattle.wasm_readers_errors.specs.WasmSpec.Values.{u32_at, u64_at, s33_index_at, bytes_at, sized_at, name_at, signed_at as integer_at, unsigned_at};

use crate::leb128::{long_signed_at, signed_at, u32_in_five, wrong_number};
use std::ops::Range;
use wasm_readers_errors::{Fault, Integer, Malformed, Refusal};

/// Bytes that are read from their front. Where a reader refuses bytes, it stays where it was or has
/// gone on in the same bytes.
#[derive(Clone, Copy, Debug)]
pub struct BinaryReader<'a> {
    buffer: &'a [u8],
    original_offset: u64,
    position: usize,
    ghost within: { position ≤ length buffer.now },
    ghost addressed: { original_offset + length buffer.now < 2 ^ 64 },
}

impl<'a> BinaryReader<'a> {
    ghost use Rattle.wasm_readers_bytes.specs.Reader.{input, SameInput, position_in, original, rest, RefusedFrom, place_of_next, number_fault, before_wrong, integer_fault, integer_refusal, index_refusal, sized_fault, name_fault, sized_place, name_place, IsAfterSize, IsAfterName};
    ghost use Rattle.wasm_readers_errors.specs.Refusals.{plain};

    /// A reader of these bytes, the first of which is at this offset of the whole input.
    pub fn new(buffer: &'a [u8], original_offset: u64) -> Self
        requires { original_offset + length buffer.now < 2 ^ 64 }
        ensures input { input result ≡ buffer.now }
        ensures rest { rest result ≡ buffer.now }
        ensures position { original result ≡ original_offset }
    {
        BinaryReader {
            buffer,
            position: 0,
            original_offset,
        }
    }

    /// The offset in the whole input of the next byte.
    pub fn original_position(&self) -> u64
        ensures { result ≡ original self.now + position_in self.now }
    {
        self.original_offset + self.position as u64
    }

    /// The offsets in the whole input of its first byte, read or not, and of the byte after its
    /// last.
    pub fn range(&self) -> Range<u64>
        ensures start { result.start ≡ original self.now }
        ensures end { result.end ≡ original self.now + length (input self.now) }
    {
        self.original_offset..self.original_offset + self.buffer.len() as u64
    }

    /// Whether nothing is left to read.
    pub fn is_empty(&self) -> bool
        ensures { result ≡ (length (rest self.now) == 0) }
    {
        self.position >= self.buffer.len()
    }

    /// Whether nothing is left to read, by the name that this has in the Rust crate.
    pub fn eof(&self) -> bool
        ensures { result ≡ (length (rest self.now) == 0) }
    {
        self.is_empty()
    }

    /// How many bytes are left to read.
    pub fn bytes_remaining(&self) -> usize
        ensures { result ≡ length (rest self.now) }
    {
        self.buffer.len() - self.position
    }

    /// The bytes that are left.
    pub fn remaining(&self) -> &'a [u8]
        ensures { result.now ≡ rest self.now }
    {
        &self.buffer[self.position..]
    }

    /// Goes on from where this other reader of the same bytes is.
    #[inline(always)]
    pub fn go_on_from(&mut self, ahead: &BinaryReader)
        requires { SameInput self.old ahead.now }
        ensures same { SameInput self.old self.new }
        ensures position { position_in self.new ≡ position_in ahead.now }
        ensures rest { rest self.new ≡ rest ahead.now }
    {
        self.position = ahead.position;
    }

    /// A refusal at the next byte.
    fn refusal(&self, malformed: Malformed) -> Refusal
        ensures { result ≡ record {
          fault = Fault.Malformed malformed;
          offset = original self.now +
              position_in self.now;
          missing = None;
        } }
    {
        Refusal::new(Fault::Malformed(malformed), self.original_position())
    }

    /// The refusal of what is next, which encodes no number of at most `bits` bits: at the byte that
    /// is wrong, as `large` where it has bits beyond the width, and as `long` where it is one too
    /// many.
    #[inline(never)]
    fn number_refusal(&self, bits: u8, large: Malformed, long: Malformed) -> Refusal
        ensures told { result ≡ plain
            (Fault.Malformed (number_fault large long bits (rest self.now)))
            (place_of_next self.now + before_wrong bits (rest self.now)) }
        ensures within { result.offset ≤ original self.now + length (input self.now) }
    {
        let (malformed, before) = wrong_number(self.remaining(), bits, large, long);
        Refusal::new(
            Fault::Malformed(malformed),
            self.original_position() + before as u64,
        )
    }

    /// The same of this number.
    fn integer_refusal(&self, integer: Integer, bits: u8) -> Refusal
        ensures told { result ≡ integer_refusal integer bits self.now }
        ensures within { result.offset ≤ original self.now + length (input self.now) }
    {
        self.number_refusal(
            bits,
            Malformed::IntegerTooLarge(integer),
            Malformed::IntegerTooLong(integer),
        )
    }

    /// The next byte, if there is one.
    #[inline(always)]
    pub fn next_u8(&mut self) -> Option<u8>
        ensures same { SameInput self.old self.new }
        ensures some { IfSome result (λ byte. rest self.old ≡ byte ∷ rest self.new) }
        ensures further { OnSome result (position_in self.new ≡ position_in self.old + 1) }
        ensures none { IfNone result (rest self.old ≡ []) }
        ensures unread { IfNone result (self.new ≡ self.old) }
    {
        if self.position < self.buffer.len() {
            let byte = self.buffer[self.position];
            self.position += 1;
            Some(byte)
        } else {
            None
        }
    }

    /// The next byte where it is below 128, as the last byte of a number is.
    #[inline(always)]
    fn next_last_byte(&mut self) -> Option<u8>
        ensures same { SameInput self.old self.new }
        ensures some { IfSome result (λ byte. rest self.old ≡ byte ∷ rest self.new) }
        ensures last { IfSome result (λ byte. byte < 2 ^ 7) }
        ensures further { OnSome result (position_in self.new ≡ position_in self.old + 1) }
        ensures none { IfNone result (self.new ≡ self.old) }
    {
        if self.position < self.buffer.len() && self.buffer[self.position] < 128 {
            self.next_u8()
        } else {
            None
        }
    }

    /// The next byte.
    ///
    /// # Errors
    ///
    /// Refused as cut off where there is none, at the offset of the end. The reader stays where it
    /// was.
    #[inline]
    pub fn read_u8(&mut self) -> Result<u8, Refusal>
        ensures same { SameInput self.old self.new }
        ensures onward { position_in self.old ≤ position_in self.new }
        ensures refusal { IfErr result (RefusedFrom self.old) }
        ensures ok { IfOk result (λ byte. rest self.old ≡ byte ∷ rest self.new) }
        ensures further { OnOk result (position_in self.new ≡ position_in self.old + 1) }
        ensures err { OnErr result (rest self.old ≡ []) }
        ensures told { IfErr result (λ r. r ≡ plain (Fault.Malformed Malformed.UnexpectedEnd)
            (place_of_next self.old)) }
    {
        match self.next_u8() {
            Some(byte) => Ok(byte),
            None => Err(self.refusal(Malformed::UnexpectedEnd)),
        }
    }

    /// An unsigned number of at most 32 bits, in at most five bytes (Core Specification 3.0, Binary
    /// Format, Values, Integers).
    ///
    /// # Errors
    ///
    /// Refused where the bytes encode none: the end comes first, the last byte that is allowed has
    /// bits beyond the width, or a byte follows it. The offset is that of the end or of that last
    /// byte. The reader stays where it was.
    pub fn read_var_u32(&mut self) -> Result<u32, Refusal>
        ensures same { SameInput self.old self.new }
        ensures onward { position_in self.old ≤ position_in self.new }
        ensures refusal { IfErr result (RefusedFrom self.old) }
        ensures ok { IfOk result (λ n. u32_at (rest self.old) ≡ Some (n, rest self.new)) }
        ensures further { OnOk result (position_in self.old < position_in self.new) }
        ensures err { OnErr result (u32_at (rest self.old) ≡ None) }
        ensures unread { OnErr result (self.new ≡ self.old) }
        ensures told { IfErr result (λ r. r ≡ integer_refusal Integer.U32 32 self.old) }
    {
        match self.next_var_u32() {
            Some(number) => Ok(number),
            None => Err(self.integer_refusal(Integer::U32, 32)),
        }
    }

    /// The same, if it is there, and without a refusal where it isn't.
    #[inline(always)]
    pub fn next_var_u32(&mut self) -> Option<u32>
        ensures same { SameInput self.old self.new }
        ensures onward { position_in self.old ≤ position_in self.new }
        ensures some { IfSome result (λ n. u32_at (rest self.old) ≡ Some (n, rest self.new)) }
        ensures further { OnSome result (position_in self.old < position_in self.new) }
        ensures none { IfNone result (u32_at (rest self.old) ≡ None) }
        ensures unread { IfNone result (self.new ≡ self.old) }
    {
        match self.next_last_byte() {
            Some(byte) => Some(u32::from(byte)),
            None => {
                // The reader itself is not lent, so that it can be kept in registers.
                let mut behind = *self;
                let number = behind.next_long_u32()?;
                self.go_on_from(&behind);
                Some(number)
            }
        }
    }

    /// The same, of more than one byte or none. Where it isn't there, the reader is after what was
    /// read.
    #[inline(never)]
    fn next_long_u32(&mut self) -> Option<u32>
        ensures same { SameInput self.old self.new }
        ensures onward { position_in self.old ≤ position_in self.new }
        ensures some { IfSome result (λ n. u32_at (rest self.old) ≡ Some (n, rest self.new)) }
        ensures further { OnSome result (position_in self.old < position_in self.new) }
        ensures none { IfNone result (u32_at (rest self.old) ≡ None) }
    {
        match u32_in_five(self.remaining()) {
            Some((number, used)) => {
                self.position += used;
                Some(number)
            }
            None => self.next_u32_by_bytes(),
        }
    }

    /// The same, byte by byte.
    #[inline(always)]
    fn next_u32_by_bytes(&mut self) -> Option<u32>
        ensures same { SameInput self.old self.new }
        ensures onward { position_in self.old ≤ position_in self.new }
        ensures some { IfSome result (λ n. u32_at (rest self.old) ≡ Some (n, rest self.new)) }
        ensures further { OnSome result (position_in self.old < position_in self.new) }
        ensures none { IfNone result (u32_at (rest self.old) ≡ None) }
    {
        let first = self.next_u8()?;
        if first < 128 {
            return Some(u32::from(first));
        }
        let second = self.next_u8()?;
        if second < 128 {
            return Some(u32::from(first - 128) + (u32::from(second) << 7));
        }
        let third = self.next_u8()?;
        let low = u32::from(first - 128) + (u32::from(second - 128) << 7);
        if third < 128 {
            return Some(low + (u32::from(third) << 14));
        }
        let fourth = self.next_u8()?;
        let low = low + (u32::from(third - 128) << 14);
        if fourth < 128 {
            return Some(low + (u32::from(fourth) << 21));
        }
        let fifth = self.next_u8()?;
        let low = low + (u32::from(fourth - 128) << 21);
        if fifth < 16 {
            Some(low + (u32::from(fifth) << 28))
        } else {
            None
        }
    }

    /// An unsigned number of at most 64 bits, in at most ten bytes (Core Specification 3.0, Binary
    /// Format, Values, Integers).
    ///
    /// # Errors
    ///
    /// Refused where the bytes encode none: the end comes first, the last byte that is allowed has
    /// bits beyond the width, or a byte follows it. The offset is that of the end or of that last
    /// byte. The reader stays where it was.
    pub fn read_var_u64(&mut self) -> Result<u64, Refusal>
        ensures same { SameInput self.old self.new }
        ensures onward { position_in self.old ≤ position_in self.new }
        ensures refusal { IfErr result (RefusedFrom self.old) }
        ensures ok { IfOk result (λ n. u64_at (rest self.old) ≡ Some (n, rest self.new)) }
        ensures further { OnOk result (position_in self.old < position_in self.new) }
        ensures err { OnErr result (u64_at (rest self.old) ≡ None) }
        ensures unread { OnErr result (self.new ≡ self.old) }
        ensures told { IfErr result (λ r. r ≡ integer_refusal Integer.U64 64 self.old) }
    {
        match self.next_var_u64() {
            Some(number) => Ok(number),
            None => Err(self.integer_refusal(Integer::U64, 64)),
        }
    }

    /// The same, if it is there, and without a refusal where it isn't.
    #[inline(always)]
    pub fn next_var_u64(&mut self) -> Option<u64>
        ensures same { SameInput self.old self.new }
        ensures onward { position_in self.old ≤ position_in self.new }
        ensures some { IfSome result (λ n. u64_at (rest self.old) ≡ Some (n, rest self.new)) }
        ensures further { OnSome result (position_in self.old < position_in self.new) }
        ensures none { IfNone result (u64_at (rest self.old) ≡ None) }
        ensures unread { IfNone result (self.new ≡ self.old) }
    {
        match self.next_last_byte() {
            Some(byte) => Some(u64::from(byte)),
            None => {
                // The reader itself is not lent, so that it can be kept in registers.
                let mut behind = *self;
                let number = behind.next_long_u64()?;
                self.go_on_from(&behind);
                Some(number)
            }
        }
    }

    /// The same, of more than one byte or none. Where it isn't there, the reader is after what was
    /// read.
    #[inline(never)]
    fn next_long_u64(&mut self) -> Option<u64>
        ensures same { SameInput self.old self.new }
        ensures onward { position_in self.old ≤ position_in self.new }
        ensures some { IfSome result (λ n. u64_at (rest self.old) ≡ Some (n, rest self.new)) }
        ensures further { OnSome result (position_in self.old < position_in self.new) }
        ensures none { IfNone result (u64_at (rest self.old) ≡ None) }
    {
        let first = self.next_u8()?;
        if first < 128 {
            return Some(u64::from(first));
        }
        let second = self.next_u8()?;
        let low = u64::from(first - 128);
        if second < 128 {
            return Some(low + (u64::from(second) << 7));
        }
        let third = self.next_u8()?;
        let low = low + (u64::from(second - 128) << 7);
        if third < 128 {
            return Some(low + (u64::from(third) << 14));
        }
        let fourth = self.next_u8()?;
        let low = low + (u64::from(third - 128) << 14);
        if fourth < 128 {
            return Some(low + (u64::from(fourth) << 21));
        }
        let low = low + (u64::from(fourth - 128) << 21);
        Some(low + (self.next_upper_bits()? << 28))
    }

    /// The bits of such a number after its first 28, if they are there.
    fn next_upper_bits(&mut self) -> Option<u64>
        ensures same { SameInput self.old self.new }
        ensures onward { position_in self.old ≤ position_in self.new }
        ensures some { IfSome result (λ n. unsigned_at 36 (rest self.old)
            ≡ Some (n, rest self.new)) }
        ensures fits { IfSome result (λ n. n < 2 ^ 36) }
        ensures further { OnSome result (position_in self.old < position_in self.new) }
        ensures none { IfNone result (unsigned_at 36 (rest self.old) ≡ None) }
    {
        let first = self.next_u8()?;
        if first < 128 {
            return Some(u64::from(first));
        }
        let second = self.next_u8()?;
        let low = u64::from(first - 128);
        if second < 128 {
            return Some(low + (u64::from(second) << 7));
        }
        let third = self.next_u8()?;
        let low = low + (u64::from(second - 128) << 7);
        if third < 128 {
            return Some(low + (u64::from(third) << 14));
        }
        let fourth = self.next_u8()?;
        let low = low + (u64::from(third - 128) << 14);
        if fourth < 128 {
            return Some(low + (u64::from(fourth) << 21));
        }
        let fifth = self.next_u8()?;
        let low = low + (u64::from(fourth - 128) << 21);
        if fifth < 128 {
            return Some(low + (u64::from(fifth) << 28));
        }
        let sixth = self.next_u8()?;
        let low = low + (u64::from(fifth - 128) << 28);
        if sixth < 2 {
            Some(low + (u64::from(sixth) << 35))
        } else {
            None
        }
    }

    /// A type index where a heap type may stand: a signed number of 33 bits that is not negative
    /// (Core Specification 3.0, Binary Format, Types, Heap Types).
    ///
    /// # Errors
    ///
    /// Refused where the number is negative, as no heap type, at the offset of its first byte; and
    /// where the bytes encode none: as cut off at the offset of the end, and else as too long at the
    /// offset of the last byte that is allowed. The reader stays where it was.
    pub fn read_var_s33_index(&mut self) -> Result<u32, Refusal>
        ensures same { SameInput self.old self.new }
        ensures onward { position_in self.old ≤ position_in self.new }
        ensures refusal { IfErr result (RefusedFrom self.old) }
        ensures ok { IfOk result (λ n. s33_index_at (rest self.old) ≡ Some (n, rest self.new)) }
        ensures further { OnOk result (position_in self.old < position_in self.new) }
        ensures err { OnErr result ((s33_index_at (rest self.old) ≡ None) × (self.new ≡ self.old)) }
        ensures told { IfErr result (λ r. r
            ≡ index_refusal self.old (integer_at 33 (rest self.old))) }
    {
        match signed_at(self.remaining(), 33) {
            Some((value, used)) => {
                if value < 0 {
                    return Err(self.refusal(Malformed::HeapType));
                }
                self.position += used;
                Ok(value as u32)
            }
            None => {
                let long = Malformed::IntegerTooLong(Integer::S33);
                Err(self.number_refusal(33, long, long))
            }
        }
    }

    /// A signed number of at most `bits` bits, of more than one byte or none.
    #[inline(always)]
    fn next_long_signed(&mut self, bits: u8) -> Option<i64>
        requires low { 0 < bits }
        requires high { bits ≤ 64 }
        ensures same { SameInput self.old self.new }
        ensures some { IfSome result (λ n. integer_at bits (rest self.old)
            ≡ Some (n, rest self.new)) }
        ensures at_least { IfSome result (λ n. (pos 0 -ℤ pos (2 ^ (bits - 1))) ≤ℤ n) }
        ensures below { IfSome result (λ n. n <ℤ pos (2 ^ (bits - 1))) }
        ensures further { OnSome result (position_in self.old < position_in self.new) }
        ensures none { IfNone result ((integer_at bits (rest self.old) ≡ None)
            × (self.new ≡ self.old)) }
    {
        let (value, used) = long_signed_at(self.remaining(), bits)?;
        self.position += used;
        Some(value)
    }

    /// A signed number of at most 32 bits, in at most five bytes (Core Specification 3.0, Binary
    /// Format, Values, Integers).
    ///
    /// # Errors
    ///
    /// Refused where the bytes encode none: the end comes first, the last byte that is allowed has
    /// bits beyond the width, or a byte follows it. The offset is that of the end or of that last
    /// byte. The reader stays where it was.
    pub fn read_var_i32(&mut self) -> Result<i32, Refusal>
        ensures same { SameInput self.old self.new }
        ensures onward { position_in self.old ≤ position_in self.new }
        ensures refusal { IfErr result (RefusedFrom self.old) }
        ensures ok { IfOk result (λ n. integer_at 32 (rest self.old) ≡ Some (n, rest self.new)) }
        ensures further { OnOk result (position_in self.old < position_in self.new) }
        ensures err { OnErr result (integer_at 32 (rest self.old) ≡ None) }
        ensures unread { OnErr result (self.new ≡ self.old) }
        ensures told { IfErr result (λ r. r ≡ integer_refusal Integer.I32 32 self.old) }
    {
        match self.next_var_i32() {
            Some(value) => Ok(value),
            None => Err(self.integer_refusal(Integer::I32, 32)),
        }
    }

    /// The same, if it is there, and without a refusal where it isn't.
    #[inline(always)]
    pub fn next_var_i32(&mut self) -> Option<i32>
        ensures same { SameInput self.old self.new }
        ensures onward { position_in self.old ≤ position_in self.new }
        ensures some { IfSome result (λ n. integer_at 32 (rest self.old)
            ≡ Some (n, rest self.new)) }
        ensures further { OnSome result (position_in self.old < position_in self.new) }
        ensures none { IfNone result ((integer_at 32 (rest self.old) ≡ None)
            × (self.new ≡ self.old)) }
    {
        match self.next_last_byte() {
            Some(byte) if byte < 64 => Some(i32::from(byte)),
            Some(byte) => Some(i32::from(byte) - 128),
            None => match self.next_long_signed(32) {
                Some(value) => Some(value as i32),
                None => None,
            },
        }
    }

    /// A signed number of at most 64 bits, in at most ten bytes (Core Specification 3.0, Binary
    /// Format, Values, Integers).
    ///
    /// # Errors
    ///
    /// Refused where the bytes encode none: the end comes first, the last byte that is allowed has
    /// bits beyond the width, or a byte follows it. The offset is that of the end or of that last
    /// byte. The reader stays where it was.
    pub fn read_var_i64(&mut self) -> Result<i64, Refusal>
        ensures same { SameInput self.old self.new }
        ensures onward { position_in self.old ≤ position_in self.new }
        ensures refusal { IfErr result (RefusedFrom self.old) }
        ensures ok { IfOk result (λ n. integer_at 64 (rest self.old) ≡ Some (n, rest self.new)) }
        ensures further { OnOk result (position_in self.old < position_in self.new) }
        ensures err { OnErr result (integer_at 64 (rest self.old) ≡ None) }
        ensures unread { OnErr result (self.new ≡ self.old) }
        ensures told { IfErr result (λ r. r ≡ integer_refusal Integer.I64 64 self.old) }
    {
        match self.next_var_i64() {
            Some(value) => Ok(value),
            None => Err(self.integer_refusal(Integer::I64, 64)),
        }
    }

    /// The same, if it is there, and without a refusal where it isn't.
    #[inline(always)]
    pub fn next_var_i64(&mut self) -> Option<i64>
        ensures same { SameInput self.old self.new }
        ensures onward { position_in self.old ≤ position_in self.new }
        ensures some { IfSome result (λ n. integer_at 64 (rest self.old)
            ≡ Some (n, rest self.new)) }
        ensures further { OnSome result (position_in self.old < position_in self.new) }
        ensures none { IfNone result ((integer_at 64 (rest self.old) ≡ None)
            × (self.new ≡ self.old)) }
    {
        match self.next_last_byte() {
            Some(byte) if byte < 64 => Some(i64::from(byte)),
            Some(byte) => Some(i64::from(byte) - 128),
            None => match self.next_long_signed(64) {
                Some(value) => Some(value),
                None => None,
            },
        }
    }

    /// The next bytes, so many of them, as a reader of their own.
    ///
    /// # Errors
    ///
    /// Refused as cut off, at the offset of the next byte, where fewer bytes are left. The reader
    /// stays where it was.
    pub fn read_reader(&mut self, size: usize) -> Result<BinaryReader<'a>, Refusal>
        ensures same { SameInput self.old self.new }
        ensures onward { position_in self.old ≤ position_in self.new }
        ensures refusal { IfErr result (RefusedFrom self.old) }
        ensures start { IfOk result (λ part. original part
            ≡ original self.old + position_in self.old) }
        ensures end { IfOk result (λ part. original part + length (input part)
            ≡ original self.new + position_in self.new) }
        ensures whole { IfOk result (λ part. input part ≡ rest part) }
        ensures ok { IfOk result (λ part. bytes_at size (rest self.old)
            ≡ Some (rest part, rest self.new)) }
        ensures err { OnErr result (bytes_at size (rest self.old) ≡ None) }
        ensures unread { OnErr result (self.new ≡ self.old) }
        ensures told { IfErr result (λ r. r ≡ plain (Fault.Malformed Malformed.UnexpectedEnd)
            (place_of_next self.old)) }
    {
        if size > self.buffer.len() - self.position {
            return Err(self.refusal(Malformed::UnexpectedEnd));
        }
        let original_offset = self.original_position();
        let start = self.position;
        self.position += size;
        Ok(BinaryReader {
            buffer: &self.buffer[start..start + size],
            position: 0,
            original_offset,
        })
    }

    /// A size, and that many bytes, as a reader of their own.
    ///
    /// # Errors
    ///
    /// Refused where the size is, as by [`BinaryReader::read_var_u32`], and after the size where
    /// fewer bytes are left, as by [`BinaryReader::read_reader`]. The reader then is before the size
    /// or after it.
    pub fn read_sized(&mut self) -> Result<BinaryReader<'a>, Refusal>
        ensures same { SameInput self.old self.new }
        ensures onward { position_in self.old ≤ position_in self.new }
        ensures refusal { IfErr result (RefusedFrom self.old) }
        ensures start { IfOk result (λ part. original self.old + position_in
            self.old ≤ original part) }
        ensures end { IfOk result (λ part. original part + length (input part)
            ≡ original self.new + position_in self.new) }
        ensures whole { IfOk result (λ part. input part ≡ rest part) }
        ensures ok { IfOk result (λ part. sized_at (rest self.old)
            ≡ Some (rest part, rest self.new)) }
        ensures further { OnOk result (position_in self.old < position_in self.new) }
        ensures err { OnErr result (sized_at (rest self.old) ≡ None) }
        ensures told { IfErr result (λ r. r.fault
            ≡ Fault.Malformed (sized_fault (integer_fault Integer.U32 32 (rest self.old))
            (u32_at (rest self.old)))) }
        ensures place { IfErr result (λ r. r.offset
            ≡ sized_place self.old self.new (u32_at (rest self.old))) }
        ensures left { OnErr result (IsAfterSize self.old (u32_at (rest self.old)) self.new) }
    {
        let size = self.read_var_u32()?;
        self.read_reader(size as usize)
    }

    /// A name: a size, and that many bytes of text in UTF-8 (Core Specification 3.0, Binary Format,
    /// Values, Names).
    ///
    /// # Errors
    ///
    /// Refused as by [`BinaryReader::read_sized`]; and where the bytes are no text, at the offset
    /// of the last of them, wherever the fault is. The reader is then after those bytes.
    #[tactic(auto, using(crate::proofs::Texts::name_from_text, crate::proofs::Texts::no_name_from_no_text))]
    pub fn read_string(&mut self) -> Result<&'a str, Refusal>
        ensures same { SameInput self.old self.new }
        ensures onward { position_in self.old ≤ position_in self.new }
        ensures refusal { IfErr result (RefusedFrom self.old) }
        ensures ok { IfOk result (λ name. name_at (rest self.old)
            ≡ Some (name.now, rest self.new)) }
        ensures further { OnOk result (position_in self.old < position_in self.new) }
        ensures err { OnErr result (name_at (rest self.old) ≡ None) }
        ensures told { IfErr result (λ r. r.fault
            ≡ Fault.Malformed (name_fault
            (sized_fault (integer_fault Integer.U32 32 (rest self.old)) (u32_at (rest self.old)))
            (sized_at (rest self.old)))) }
        ensures place { IfErr result (λ r. r.offset
            ≡ name_place (sized_place self.old self.new (u32_at (rest self.old))) self.new
            (sized_at (rest self.old))) }
        ensures left { OnErr result (IsAfterName self.old (u32_at (rest self.old))
            (sized_at (rest self.old)) self.new) }
    {
        let part = self.read_sized()?;
        match std::str::from_utf8(part.remaining()) {
            Ok(name) => Ok(name),
            Err(_) => {
                let last = self.original_position() - 1;
                Err(Refusal::new(Fault::Malformed(Malformed::NotUtf8), last))
            }
        }
    }
}
