//! Lists of immediates that are borrowed from the bytes.

ghost use Rattle.std.specs.Prelude.{◌≡◌, ◌≤◌, ◌<◌, ℕ, List, Option, Some, None, IfOk, IfErr, OnOk, OnErr};
ghost use Rattle.wasm_operators_plain.specs.WasmSpec.Values.{list_at, many_at, u32_at};
ghost use Rattle.wasm_operators_plain.specs.WasmSpec.BinaryTypes.{val_at};
ghost use Rattle.wasm_operators_plain.specs.WasmReaders.WrittenIndices.{written};
ghost use Rattle.wasm_operators_plain.specs.WasmReaders.WasmReadersBytes.Reader.{SameInput, position_in, rest, RefusedFrom};
ghost use Rattle.wasm_operators_proposals.specs.SeenLists.{listed, items_left, behind};

use std::marker::PhantomData;
use wasm_operators_plain::readers::BinaryReader;
use wasm_operators_plain::readers::types::read_val_type;
use wasm_operators_plain::readers_errors::Refusal;
use wasm_operators_plain::readers_types::ValType;

/// What a borrowed list may hold.
pub trait Immediate<'a>: Sized + Copy {
    /// What contracts see of an item.
    ghost Value: { Type 0 };

    /// What the format encodes at the front of these bytes, and the bytes behind it.
    ghost encoded: { List ℕ → Option (Value × List ℕ) };

    /// What an item stands for.
    ghost value: { Self → Value };

    /// The next item.
    fn read(reader: &mut BinaryReader<'a>) -> Result<Self, Refusal>
        ensures same { SameInput reader.old reader.new }
        ensures onward { position_in reader.old ≤ position_in reader.new }
        ensures refusal { IfErr result (RefusedFrom reader.old) }
        ensures ok { IfOk result (λ x. encoded (rest reader.old)
            ≡ Some (value x, rest reader.new)) }
        ensures err { OnErr result (encoded (rest reader.old) ≡ None) };
}

impl<'a> Immediate<'a> for u32 {
    ghost Value = { ℕ };

    ghost encoded = { u32_at };

    ghost value = { λ n. n };

    fn read(reader: &mut BinaryReader<'a>) -> Result<u32, Refusal> {
        reader.read_var_u32()
    }
}

impl<'a> Immediate<'a> for ValType {
    ghost use Rattle.wasm_operators_plain.specs.WasmSpec.Syntax.{Val};
    ghost use Rattle.wasm_operators_plain.specs.WasmReadersTypes.WasmReadersValues.SeenValues.{val_of};
    ghost use Rattle.wasm_operators_plain.specs.WasmReadersTypes.WasmReadersValues.declared.indices.UnpackedIndex.{UnpackedIndex};

    ghost Value = { Val UnpackedIndex };

    ghost encoded = { val_at written };

    ghost value = { val_of };

    fn read(reader: &mut BinaryReader<'a>) -> Result<ValType, Refusal> {
        read_val_type(reader)
    }
}

/// A list that was read once and stands in the bytes.
#[derive(Clone, Copy, Debug)]
pub struct Listed<'a, T> {
    reader: BinaryReader<'a>,
    count: u32,
    of: PhantomData<T>,
}

impl<'a, T: Immediate<'a>> Listed<'a, T> {
    /// The items in order.
    pub fn items(&self) -> ListedItems<'a, T>
        ensures { items_left T.encoded result ≡ listed T.encoded self.now }
    {
        ListedItems {
            reader: self.reader,
            count: self.count,
            of: PhantomData,
        }
    }
}

/// The items of a list that are left.
#[derive(Debug, Drop)]
pub struct ListedItems<'a, T> {
    reader: BinaryReader<'a>,
    count: u32,
    of: PhantomData<T>,
}

impl<'a, T: Immediate<'a>> Iterator for ListedItems<'a, T> {
    type Item = T;

    ghost use Rattle.std.specs.Option.{option_map};
    ghost use Rattle.std.specs.Iterator.{at_most};
    ghost use Rattle.wasm_operators_proposals.specs.SeenLists.{GivesFront, items_left, most_left};

    ghost can_next = { λ _. Unit {0} };

    ghost next_gives = { λ s r t. GivesFront (items_left T.encoded s) (option_map T.value r)
        (items_left T.encoded t) };

    ghost remaining = { λ s. at_most (most_left s) };

    #[tactic(auto, using(crate::proofs::ListReads::next_laws))]
    fn next(&mut self) -> Option<T> {
        if self.count == 0 {
            return None;
        }
        match T::read(&mut self.reader) {
            Ok(item) => {
                self.count -= 1;
                Some(item)
            }
            Err(_) => {
                self.count = 0;
                None
            }
        }
    }
}

/// A list: a count, and that many items.
#[tactic(auto, using(crate::proofs::ListReads::list_laws))]
pub fn read_listed<'a, T: Immediate<'a>>(
    reader: &mut BinaryReader<'a>,
) -> Result<Listed<'a, T>, Refusal>
    ensures same { SameInput reader.old reader.new }
    ensures onward { position_in reader.old ≤ position_in reader.new }
    ensures refusal { IfErr result (RefusedFrom reader.old) }
    ensures ok { IfOk result (λ l. list_at T.encoded (rest reader.old)
        ≡ Some (listed T.encoded l, rest reader.new)) }
    ensures err { OnErr result (list_at T.encoded (rest reader.old) ≡ None) }
{
    let count = reader.read_var_u32()?;
    let start = *reader;
    skip_many::<T>(count, reader)?;
    Ok(Listed {
        reader: start,
        count,
        of: PhantomData,
    })
}

/// So many items, one after another.
fn skip_many<'a, T: Immediate<'a>>(count: u32, reader: &mut BinaryReader<'a>) -> Result<(), Refusal>
    ensures same { SameInput reader.old reader.new }
    ensures onward { position_in reader.old ≤ position_in reader.new }
    ensures refusal { IfErr result (RefusedFrom reader.old) }
    ensures ok { OnOk result (behind (many_at T.encoded count (rest reader.old))
        ≡ Some (rest reader.new)) }
    ensures err { OnErr result (many_at T.encoded count (rest reader.old) ≡ None) }
{
    let mut left = count;
    'items: while left > 0 {
        T::read(reader)?;
        left -= 1;
    }
    Ok(())
}
