//! Element segments as compilers write them: functions for the first table, from an offset that is
//! an integer.

ghost use Rattle.std.specs.Prelude.{◌≡◌, ◌≤◌, true, OnSome, IfSome};
ghost use Rattle.wasm_readers.specs.WasmReadersBytes.Reader.{SameInput, position_in, rest};
ghost use Rattle.wasm_validator_segments.specs.PlainElements.{TakesFunctions, IsPlain};

use crate::lists::MAX_ITEMS;
use crate::numbers::next_number;
use wasm_readers::BinaryReader;
use wasm_readers_types::{RefType, ValType, same};
use wasm_validator_resources::WasmModuleResources;

/// Whether the first table may hold any functions, and has addresses of 32 bits.
#[inline(always)]
fn takes_functions<T: WasmModuleResources>(resources: &T) -> bool
    ensures { result ≡ true → TakesFunctions (T.context resources.now) }
{
    match resources.table_at(0) {
        Some(table) => {
            if table.table64 {
                return false;
            }
            same(&table.element_type, &RefType::FUNCREF)
        }
        None => false,
    }
}

/// Goes past what an element segment of functions begins with that goes to the first table from an
/// offset that is an integer, and gives how many functions follow. Else the reader may stand further
/// on.
#[inline(always)]
pub(crate) fn next_plain_segment<'a, T: WasmModuleResources>(
    resources: &T,
    reader: &mut BinaryReader<'a>,
) -> Option<u32>
    ensures same { SameInput reader.old reader.new }
    ensures onward { OnSome result (position_in reader.old ≤ position_in reader.new) }
    ensures some { IfSome result (λ count. IsPlain (T.context resources.now) count
        (rest reader.old) (rest reader.new)) }
{
    if reader.next_var_u32()? != 0 {
        return None;
    }
    next_number(ValType::I32, reader)?;
    let count = reader.next_var_u32()?;
    if count > MAX_ITEMS {
        return None;
    }
    if !takes_functions(resources) {
        return None;
    }
    Some(count)
}
