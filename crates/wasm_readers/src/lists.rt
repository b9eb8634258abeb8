//! Reading of lists of items.

ghost use Rattle.std.specs.Prelude.{◌≤◌, map, IfErr};
ghost use Rattle.wasm_readers_bytes.specs.WasmSpec.Values.{list_at, many_at};
ghost use Rattle.wasm_readers_bytes.specs.Reader.{SameInput, position_in, rest, FailedFrom};
ghost use Rattle.wasm_readers_bytes.specs.WasmReadersErrors.Errors.{Reads};

use crate::section_limited::FromReader;
use std::alloc::Allocator;
use wasm_readers_bytes::BinaryReader;
use wasm_readers_bytes::readers_errors::Error;

/// A list: a count, and that many items (Core Specification 3.0, Binary Format, Conventions,
/// Lists).
///
/// # Errors
///
/// Refused where the count or an item is, at a byte offset from the start of the input; and where
/// memory is.
pub fn read_list<'a, T: FromReader<'a, A>, A: Allocator + Copy>(
    alloc: A,
    reader: &mut BinaryReader<'a>,
) -> Result<Vec<T, A>, Error>
    ensures same { SameInput reader.old reader.new }
    ensures onward { position_in reader.old ≤ position_in reader.new }
    ensures failure { IfErr result (FailedFrom reader.old) }
    ensures reads { Reads (λ v. map T.value v.items) result
        (list_at T.encoded (rest reader.old)) (rest reader.new) }
{
    let count = reader.read_var_u32()?;
    read_many(alloc, count, reader)
}

/// So many items, one after another.
fn read_many<'a, T: FromReader<'a, A>, A: Allocator + Copy>(
    alloc: A,
    count: u32,
    reader: &mut BinaryReader<'a>,
) -> Result<Vec<T, A>, Error>
    ensures same { SameInput reader.old reader.new }
    ensures onward { position_in reader.old ≤ position_in reader.new }
    ensures failure { IfErr result (FailedFrom reader.old) }
    ensures reads { Reads (λ v. map T.value v.items) result
        (many_at T.encoded count (rest reader.old)) (rest reader.new) }
{
    let mut items = Vec::new(alloc);
    let mut left = count;
    'items: while left > 0 {
        let item = T::from_reader(alloc, reader)?;
        items.push(item)?;
        left -= 1;
    }
    Ok(items)
}
