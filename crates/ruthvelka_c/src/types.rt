//! What the types behind a handle are: those of imports and exports, and function types by their
//! ids.

ghost use Rattle.std.specs.Prelude.{◌≡◌, ◌≤◌, ◌<◌, length, slice_get, IfSome, Some};
ghost use Rattle.std.specs.declared.option.Option.TheVariants.{Some as Just};
ghost use Rattle.std.specs.Option.{option_map};
ghost use Rattle.wasm_validator_handles.specs.HandleContents.{types_of};
ghost use Rattle.wasm_validator_handles.specs.Signatures.{signature_by_ids, values_by_ids};
ghost use Rattle.wasm_validator_handles.specs.Values.{numbers_of};
ghost use Rattle.wasm_validator_handles.specs.declared.values.TheConstants.{MOST_IDS};
ghost use Rattle.ruthvelka_c.specs.Types.{TellsExterns, TellsFunction, TellsSignature, TypesTell, ValuesTell};

use crate::handles::{STATUS_DONE, STATUS_NO_MEMORY, STATUS_WRONG};
use crate::report::{Report, report_counts};
use std::alloc::Global;
use wasm_validator_handles::validator::ValType;
use wasm_validator_handles::{
    ExternType, Handle, Kept, Signature, ValueType, find_signature, gather_externs, tell_value,
    write_bytes,
};

/// How many values a function takes and gives. C reads it as part of `struct ruthvelka_signature`.
#[repr(C)]
#[derive(Clone, Copy)]
pub struct Counts {
    pub params: u64,
    pub results: u64,
}

/// Reports how many imports and exports the module has whose types stand behind the handle, and
/// writes the imports, by their pairs of names, the exports, in their order, and all their names, as
/// far as there is room.
#[unsafe(no_mangle)]
pub extern "C" fn ruthvelka_proved_types_externs(
    alloc: Global,
    types: &mut Handle,
    report: &mut Report,
    imports: &mut [ExternType],
    exports: &mut [ExternType],
    names: &mut [u8],
) -> u32
    ensures kept { types.new.value ≡ types.old.value }
    ensures told { TellsExterns (types_of types.old.value) report.old report.new imports.old
        imports.new exports.old exports.new names.old names.new result }
{
    let Some(it) = types.open(alloc) else {
        return STATUS_WRONG;
    };
    let status = tell_externs(alloc, it.as_ref(), report, imports, exports, names);
    types.close(it);
    status
}

fn tell_externs(
    alloc: Global,
    kept: &Kept,
    report: &mut Report,
    imports: &mut [ExternType],
    exports: &mut [ExternType],
    names: &mut [u8],
) -> u32
    ensures { TellsExterns (types_of (Just kept.now)) report.old report.new imports.old imports.new
        exports.old exports.new names.old names.new result }
{
    let Some(types) = kept.types() else {
        return STATUS_WRONG;
    };
    let shown = types.as_ref();
    let Ok(externs) = gather_externs(alloc, &shown) else {
        return STATUS_NO_MEMORY;
    };
    *report = report_counts(&shown, 0);
    report.names_length = externs.names.len() as u64;
    write_types(imports, externs.imports.as_slice());
    write_types(exports, externs.exports.as_slice());
    write_bytes(names, externs.names.as_slice());
    STATUS_DONE
}

/// Writes as many of these as there is room for.
fn write_types(to: &mut [ExternType], given: &[ExternType])
    ensures { TypesTell given.now to.old to.new }
{
    let most = to.len().min(given.len());
    to[..most].copy_from_slice(&given[..most]);
}

/// Tells how many values a function of the type with this id takes and gives, and writes them, as far
/// as there is room.
#[unsafe(no_mangle)]
pub extern "C" fn ruthvelka_proved_types_signature(
    alloc: Global,
    types: &mut Handle,
    id: u32,
    counts: &mut Counts,
    params: &mut [ValueType],
    results: &mut [ValueType],
) -> u32
    ensures kept { types.new.value ≡ types.old.value }
    ensures told { TellsSignature (types_of types.old.value) id counts.old counts.new params.old
        params.new results.old results.new result }
{
    let Some(it) = types.open(alloc) else {
        return STATUS_WRONG;
    };
    let status = tell_signature(it.as_ref(), id, counts, params, results);
    types.close(it);
    status
}

fn tell_signature(
    kept: &Kept,
    id: u32,
    counts: &mut Counts,
    params: &mut [ValueType],
    results: &mut [ValueType],
) -> u32
    ensures { TellsSignature (types_of (Just kept.now)) id counts.old counts.new params.old params.new
        results.old results.new result }
{
    match kept.types() {
        Some(types) => {
            let found = find_signature(types.as_ref().type_list(), id);
            tell_function(found, counts, params, results)
        }
        None => STATUS_WRONG,
    }
}

fn tell_function(
    found: Option<Signature<'_>>,
    counts: &mut Counts,
    params: &mut [ValueType],
    results: &mut [ValueType],
) -> u32
    requires { IfSome found (λ s. s.start ≤ MOST_IDS) }
    ensures { TellsFunction (option_map signature_by_ids found.entry) counts.old counts.new params.old
        params.new results.old results.new result }
{
    let Some(signature) = found else {
        return STATUS_WRONG;
    };
    counts.params = signature.params.len() as u64;
    counts.results = signature.results.len() as u64;
    write_values(params, signature.start, signature.params);
    write_values(results, signature.start, signature.results);
    STATUS_DONE
}

/// Writes as many of these as there is room for, whose references stand in a recursion group with
/// this first id.
fn write_values(to: &mut [ValueType], start: u32, given: &[ValType])
    requires { start ≤ MOST_IDS }
    ensures { ValuesTell (values_by_ids start given.now) to.old to.new }
{
    let most = to.len().min(given.len());
    'values: for k in 0..most {
        to[k] = value_at(start, given, k);
    }
}

fn value_at(start: u32, given: &[ValType], k: usize) -> ValueType
    requires start { start ≤ MOST_IDS }
    requires there { k < length given.now }
    ensures { option_map numbers_of (slice_get (values_by_ids start given.now) k) ≡ Some result }
{
    tell_value(start, given[k])
}
