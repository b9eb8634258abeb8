ghost use Rattle.std.specs.Prelude.{◌≡◌, ◌==◌, ◌&&◌, ℕ, ◌≤◌, ◌+◌, List, length, Option, Some, None, IfOk, OnErr, IfErr};
ghost use Rattle.wasm_readers_bytes.specs.WasmSpec.Values.{u32_at};
ghost use Rattle.wasm_readers_bytes.specs.Reader.{input, SameInput, position_in, original, rest, RefusedFrom, FailedFrom};
ghost use Rattle.wasm_readers_bytes.specs.WasmReadersErrors.Errors.{Reads};
ghost use Rattle.wasm_readers.specs.Sections.{NextItem};
ghost use Rattle.wasm_readers.specs.Refusals.{Telling, Tells, NumberRefused};

use crate::{Import, Imports};
use std::alloc::{Allocator, Global};
use std::marker::PhantomData;
use std::ops::Range;
use wasm_readers_bytes::BinaryReader;
use wasm_readers_bytes::readers_errors::{Error, Fault, Malformed, Refusal};

/// A type whose values are items of the binary format.
pub trait FromReader<'a, A: Allocator>: Sized + Drop {
    /// What contracts see of an item.
    ghost Value: { Type 0 };

    /// What the format encodes at the front of these bytes, and the bytes after it.
    ghost encoded: { List ℕ → Option (Value × List ℕ) };

    /// What an item means, without its place in the input.
    ghost value: { Self → Value };

    /// What a refusal of content may say, by where the reader is.
    ghost refuses: { Telling };

    /// The next item.
    ///
    /// # Errors
    ///
    /// Refused where the bytes encode none, and where memory is refused. The reader has then gone on
    /// in the same bytes, or stays where it was.
    fn from_reader(alloc: A, reader: &mut BinaryReader<'a>) -> Result<Self, Error>
        ensures same { SameInput reader.old reader.new }
        ensures onward { position_in reader.old ≤ position_in reader.new }
        ensures failure { IfErr result (FailedFrom reader.old) }
        ensures told { IfErr result (Tells refuses reader.old) }
        ensures reads { Reads value result (encoded (rest reader.old)) (rest reader.new) };
}

impl<'a, A: Allocator> FromReader<'a, A> for u32 {
    ghost use Rattle.wasm_readers_bytes.specs.WasmReadersErrors.declared.error.Integer.TheVariants.{U32};

    ghost Value = { ℕ };

    ghost encoded = { u32_at };

    ghost value = { λ n. n };

    ghost refuses = { NumberRefused U32 32 };

    fn from_reader(_alloc: A, reader: &mut BinaryReader<'a>) -> Result<u32, Error> {
        Ok(reader.read_var_u32()?)
    }
}

/// A section that is a count and that many items. Its items are read as they are asked for.
pub struct SectionLimited<'a, T, A: Allocator = Global> {
    reader: BinaryReader<'a>,
    count: u32,
    alloc: A,
    of: PhantomData<T>,
}

// By hand: so each way out takes one call for it, and not a step for each field.
impl<T: Drop, A: Allocator> Drop for SectionLimited<'_, T, A> {
    fn drop(self) {
        let SectionLimited {
            reader: _,
            count: _,
            alloc: _,
            of: _,
        } = self;
    }
}

impl<'a, T, A: Allocator + Copy> SectionLimited<'a, T, A> {
    ghost use Rattle.std.specs.Prelude.{false};
    ghost use Rattle.wasm_readers.specs.SectionsSeen.{count_of, bytes_of, section_start, section_end, first_item_at, items_left, items_rest, items_done, next_item_at, items_end};

    /// The section that these bytes are: a count, and what follows it (Core Specification 3.0,
    /// Binary Format, Modules, Sections).
    ///
    /// # Errors
    ///
    /// Refused where the count is, as by [`BinaryReader::read_var_u32`]. No item is read yet.
    pub fn new(alloc: A, reader: BinaryReader<'a>) -> Result<SectionLimited<'a, T, A>, Refusal>
        ensures ok { IfOk result (λ s. u32_at (rest reader.entry) ≡ Some (count_of s, bytes_of s)) }
        ensures start { IfOk result (λ s. section_start s ≡ original reader.entry) }
        ensures end { IfOk result (λ s. section_end s
            ≡ original reader.entry + length (input reader.entry)) }
        ensures first { IfOk result (λ s. first_item_at s + length (bytes_of s) ≡ section_end s) }
        ensures refusal { IfErr result (RefusedFrom reader.entry) }
        ensures err { OnErr result (u32_at (rest reader.entry) ≡ None) }
    {
        let mut reader = reader;
        let count = reader.read_var_u32()?;
        Ok(SectionLimited {
            reader,
            count,
            alloc,
            of: PhantomData,
        })
    }

    /// The number of items that the section says it has.
    pub fn count(&self) -> u32
        ensures { result ≡ count_of self.now }
    {
        self.count
    }

    /// Whether the section says that it has no items, and no bytes follow.
    pub fn is_empty(&self) -> bool
        ensures { result ≡ (count_of self.now == 0 && length (bytes_of self.now) == 0) }
    {
        self.count == 0 && self.reader.is_empty()
    }

    /// The offset of the first item in the whole input.
    pub fn original_position(&self) -> u64
        ensures { result ≡ first_item_at self.now }
    {
        self.reader.original_position()
    }

    /// The offsets in the whole input of the section's first byte and of the byte after it.
    pub fn range(&self) -> Range<u64>
        ensures start { result.start ≡ section_start self.now }
        ensures end { result.end ≡ section_end self.now }
    {
        self.reader.range()
    }

    /// The bytes after the count, for a caller that reads the items itself.
    pub fn reader(&self) -> BinaryReader<'a>
        ensures rest { rest result ≡ bytes_of self.now }
        ensures start { original result ≡ section_start self.now }
        ensures end { original result + length (input result) ≡ section_end self.now }
        ensures first { original result + position_in result ≡ first_item_at self.now }
    {
        self.reader
    }

    /// The items, each with its offset in the whole input.
    pub fn items(&self) -> SectionItems<'a, T, A>
        ensures left { items_left result ≡ count_of self.now }
        ensures rest { items_rest result ≡ bytes_of self.now }
        ensures going { items_done result ≡ false }
        ensures position { next_item_at result ≡ first_item_at self.now }
        ensures end { items_end result ≡ section_end self.now }
    {
        SectionItems {
            reader: self.reader,
            left: self.count,
            done: false,
            alloc: self.alloc,
            of: PhantomData,
        }
    }
}

impl<'a, A: Allocator + Copy> SectionLimited<'a, Import<'a>, A> {
    /// The entries, each of which stands for one import, or with `COMPACT_IMPORTS` for several.
    pub fn entries(&self) -> SectionLimited<'a, Imports<'a>, A>
        ensures count { result.count ≡ self.now.count }
        ensures bytes { result.reader ≡ self.now.reader }
    {
        SectionLimited {
            reader: self.reader,
            count: self.count,
            alloc: self.alloc,
            of: PhantomData,
        }
    }
}

/// The items of a section that are left to read.
pub struct SectionItems<'a, T, A: Allocator = Global> {
    reader: BinaryReader<'a>,
    left: u32,
    done: bool,
    alloc: A,
    of: PhantomData<T>,
}

// By hand: so each way out takes one call for it, and not a step for each field.
impl<T: Drop, A: Allocator> Drop for SectionItems<'_, T, A> {
    fn drop(self) {
        let SectionItems {
            reader: _,
            left: _,
            done: _,
            alloc: _,
            of: _,
        } = self;
    }
}

impl<'a, T: FromReader<'a, A>, A: Allocator + Copy> SectionItems<'a, T, A> {
    ghost use Rattle.std.specs.Prelude.{IfSome};
    ghost use Rattle.wasm_readers.specs.SectionsSeen.{items_left, items_rest, items_done, next_item_at, SameSection, ItemsFailedFrom, ItemTells};

    /// The next item with its byte offset from the start of the input, or `None` where the section
    /// ends.
    ///
    /// # Errors
    ///
    /// Refused where the bytes encode no item; after the last item, where bytes are left, at the
    /// first of them; and where memory is. A further call goes on where this one stopped; the
    /// iterator ends there.
    pub fn read_next(&mut self) -> Result<Option<(u64, T)>, Error>
        ensures going { items_done self.new ≡ items_done self.old }
        ensures reads { NextItem T.encoded T.value (items_left self.old) (items_rest self.old)
            result (items_left self.new) (items_rest self.new) }
        ensures position { IfOk result (λ o. IfSome o (λ x. x.0 ≡ next_item_at self.old)) }
        ensures same { SameSection self.old self.new }
        ensures over { IfOk result (λ o. o ≡ None → self.new ≡ self.old) }
        ensures failure { IfErr result (ItemsFailedFrom self.old) }
        ensures told { IfErr result (ItemTells T.refuses self.old) }
        ensures err { OnErr result (items_left self.new ≡ items_left self.old) }
    {
        let offset = self.reader.original_position();
        if self.left == 0 {
            if self.reader.is_empty() {
                return Ok(None);
            }
            return Err(Error::Refused(Refusal::new(
                Fault::Malformed(Malformed::SectionSize),
                offset,
            )));
        }
        let item = T::from_reader(self.alloc, &mut self.reader)?;
        self.left -= 1;
        Ok(Some((offset, item)))
    }
}

/// The items, each with its offset, up to the section's end or the first refusal.
impl<'a, T: FromReader<'a, A>, A: Allocator + Copy> Iterator for SectionItems<'a, T, A> {
    type Item = Result<(u64, T), Error>;

    ghost use Rattle.std.specs.Prelude.{IfSome, if◌then◌else◌};
    ghost use Rattle.std.specs.Iterator.{at_most};
    ghost use Rattle.wasm_readers.specs.Sections.{ItemGives, StandsAt};
    ghost use Rattle.wasm_readers.specs.SectionsSeen.{items_left, items_rest, items_done, next_item_at, SameSection, ItemsFailedFrom, ItemTells, TakesNothing};

    ghost can_next = { λ _. Unit {0} };

    ghost next_gives = { λ s r t. ItemGives T.encoded T.value (items_done s) (items_left s)
        (items_rest s) r (items_done t) (items_left t) (items_rest t) × StandsAt (next_item_at s) r
        × SameSection s t × IfSome r (λ item. IfErr item (ItemsFailedFrom s))
        × TakesNothing s r t × IfSome r (λ item. IfErr item (ItemTells T.refuses s)) };

    ghost remaining = { λ s. at_most (if items_done s then 0 else items_left s + 1) };

    fn next(&mut self) -> Option<Result<(u64, T), Error>> {
        if self.done {
            return None;
        }
        match self.read_next() {
            Ok(None) => {
                self.done = true;
                None
            }
            Ok(Some(item)) => Some(Ok(item)),
            Err(error) => {
                self.done = true;
                Some(Err(error))
            }
        }
    }
}
