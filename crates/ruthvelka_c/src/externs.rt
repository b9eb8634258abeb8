//! The imports and the exports of a module that was validated by itself, with their names.

ghost use Rattle.std.specs.Prelude.{◌≡◌, ◌<◌, IfOk, length, slice_get, Some};
ghost use Rattle.std.specs.Option.{option_map};
ghost use Rattle.wasm_validator_handles.specs.Arrays.{AreWritten};
ghost use Rattle.wasm_validator_handles.specs.Entities.{plain_of};
ghost use Rattle.ruthvelka_c.specs.Externs.{AreGathered, ExternsTell};

use crate::report::Answer;
use std::alloc::{AllocError, Global};
use wasm_validator_handles::{Extern, ExternType, Externs, gather_externs, write_bytes};

/// Those of an accepted module, and none where it is refused.
pub fn gather_answer(alloc: Global, answer: &Answer) -> Result<Externs, AllocError>
    ensures { IfOk result (λ externs. AreGathered answer.now externs) }
{
    match answer {
        Ok(types) => gather_externs(alloc, &types.as_ref()),
        Err(_) => Ok(Externs::new(alloc)),
    }
}

/// Writes as many of these as there is room for, without their types.
fn write_externs(to: &mut [Extern], given: &[ExternType])
    ensures { ExternsTell given.now to.old to.new }
{
    let most = to.len().min(given.len());
    'externs: for k in 0..most {
        to[k] = extern_at(given, k);
    }
}

fn extern_at(given: &[ExternType], k: usize) -> Extern
    requires { k < length given.now }
    ensures { option_map plain_of (slice_get given.now k) ≡ Some result }
{
    given[k].plain()
}

/// Writes all of these as far as there is room, and gives the length of all names.
pub fn write_all(
    externs: &Externs,
    imports: &mut [Extern],
    exports: &mut [Extern],
    names: &mut [u8],
) -> u64
    ensures imports { ExternsTell externs.now.imports.items imports.old imports.new }
    ensures exports { ExternsTell externs.now.exports.items exports.old exports.new }
    ensures names { AreWritten externs.now.names.items names.old names.new }
    ensures length { result ≡ length externs.now.names.items }
{
    write_externs(imports, externs.imports.as_slice());
    write_externs(exports, externs.exports.as_slice());
    write_bytes(names, externs.names.as_slice());
    externs.names.len() as u64
}
