//! References as items.

ghost use Rattle.std.specs.Prelude.{◌≡◌, ◌≤◌, true, false, [], IfOk};
ghost use Rattle.wasm_spec.specs.Features.{Features};
ghost use Rattle.wasm_spec.specs.Syntax.{Val};
ghost use Rattle.wasm_validator_resources.specs.WasmSpecRules.Contexts.{Context};
ghost use Rattle.wasm_validator_resources.specs.WasmSpecRules.FeatureFlags.{features_of};
ghost use Rattle.wasm_readers.specs.WasmReadersBytes.Reader.{SameInput, position_in, rest};
ghost use Rattle.wasm_validator_resources.specs.WasmReadersTypes.WasmReadersValues.SeenValues.{val_of};
ghost use Rattle.wasm_validator_resources.specs.WasmReadersTypes.WasmReadersValues.declared.indices.UnpackedIndex.{UnpackedIndex};
ghost use Rattle.wasm_validator_references.specs.Notes.{noting};
ghost use Rattle.wasm_validator_references.specs.References.{names_of_expression};
ghost use Rattle.wasm_validator_constants.specs.Items.{KnowsType, KnowsNull, IsItem};

use crate::item_bytes::{next_function, next_null};
use crate::item_types::{knows_null, knows_type};
use bitflags::Flags;
use std::alloc::AllocError;
use wasm_readers::BinaryReader;
use wasm_readers::readers_errors::WasmFeatures;
use wasm_validator_references::NotesFunctions;
use wasm_validator_resources::WasmModuleResources;
use wasm_validator_resources::readers_types::ValType;

/// What is known of the references that are items of one type: the type index of functions that are
/// of the type, and the byte of an abstract heap type whose null is. A greater number stands for none.
#[derive(Clone, Copy)]
pub struct KnownReferences {
    functions: u64,
    null: u64,
}

impl KnownReferences {
    /// Nothing is known.
    pub fn none() -> KnownReferences
        ensures functions { (C : Context UnpackedIndex) (v : Val UnpackedIndex)
            → KnowsType C v result.functions }
        ensures null { (C : Context UnpackedIndex) (F : Features) (v : Val UnpackedIndex)
            → KnowsNull C F v result.null }
    {
        KnownReferences {
            functions: u64::MAX,
            null: u64::MAX,
        }
    }
}

/// Goes past a reference to a function that is of the items' type, if it is next, notes the function,
/// and tells whether it is. Its type is compared only where it is not that of the one before.
#[inline(always)]
fn pass_function<'a, T: WasmModuleResources, N: NotesFunctions>(
    features: WasmFeatures,
    resources: &T,
    ty: &ValType,
    known: &mut u64,
    notes: &mut N,
    reader: &mut BinaryReader<'a>,
) -> Result<bool, AllocError>
    requires known { KnowsType (T.context resources.now) (val_of ty.now) known.old }
    requires served { (features_of features).reference_types ≡ true }
    ensures known { KnowsType (T.context resources.now) (val_of ty.now) known.new }
    ensures past { IfOk result (λ is. is ≡ true → IsItem (T.context resources.now)
        (features_of features) (val_of ty.now) (rest reader.old) (rest reader.new)) }
    ensures noted { IfOk result (λ is. is ≡ true → notes.new
        ≡ noting N.note (names_of_expression (rest reader.old)) notes.old) }
    ensures kept { IfOk result (λ is. is ≡ false → notes.new ≡ notes.old) }
    ensures input { SameInput reader.old reader.new }
    ensures onward { position_in reader.old ≤ position_in reader.new }
    ensures unread { IfOk result (λ is. is ≡ false → reader.new ≡ reader.old) }
{
    let mut ahead = *reader;
    let function_index = match next_function(&mut ahead) {
        Some(function_index) => function_index,
        None => return Ok(false),
    };
    let type_index = match resources.type_index_of_function(function_index) {
        Some(type_index) => type_index,
        None => return Ok(false),
    };
    if !resources.is_function_referenced(function_index) {
        return Ok(false);
    }
    if !knows_type(resources, ty, known, type_index) {
        return Ok(false);
    }
    // Exactly of its type or not, a function is of the type: it is only told that one of both is known.
    let _is_exact = resources.has_function_exact_type(function_index);
    notes.note(function_index)?;
    reader.go_on_from(&ahead);
    Ok(true)
}

/// Goes past null of an abstract heap type that is of the items' type, if it is next, and tells whether
/// it is.
#[inline(always)]
fn pass_null<'a, T: WasmModuleResources>(
    features: WasmFeatures,
    resources: &T,
    ty: &ValType,
    known: &mut u64,
    reader: &mut BinaryReader<'a>,
) -> bool
    requires known { KnowsNull (T.context resources.now) (features_of features) (val_of ty.now)
        known.old }
    requires served { (features_of features).reference_types ≡ true }
    ensures known { KnowsNull (T.context resources.now) (features_of features) (val_of ty.now)
        known.new }
    ensures past { result ≡ true → IsItem (T.context resources.now) (features_of features)
        (val_of ty.now) (rest reader.old) (rest reader.new) }
    ensures named { result ≡ true → names_of_expression (rest reader.old) ≡ [] }
    ensures input { SameInput reader.old reader.new }
    ensures onward { position_in reader.old ≤ position_in reader.new }
    ensures unread { result ≡ false → reader.new ≡ reader.old }
{
    let mut ahead = *reader;
    match next_null(&mut ahead) {
        Some(byte) => {
            if !knows_null(features, resources, ty, known, byte) {
                return false;
            }
            reader.go_on_from(&ahead);
            true
        }
        None => false,
    }
}

/// Goes past a reference that is of the items' type, if one is next: to a function, which is noted, or
/// null of an abstract heap type. It tells whether it is; where it isn't, nothing has changed but what
/// is known.
///
/// # Errors
///
/// Fails where memory is refused.
#[inline(always)]
pub fn pass_reference<'a, T: WasmModuleResources, N: NotesFunctions>(
    features: WasmFeatures,
    resources: &T,
    ty: &ValType,
    known: &mut KnownReferences,
    notes: &mut N,
    reader: &mut BinaryReader<'a>,
) -> Result<bool, AllocError>
    requires functions { KnowsType (T.context resources.now) (val_of ty.now) known.old.functions }
    requires null { KnowsNull (T.context resources.now) (features_of features) (val_of ty.now)
        known.old.null }
    ensures functions { KnowsType (T.context resources.now) (val_of ty.now) known.new.functions }
    ensures null { KnowsNull (T.context resources.now) (features_of features) (val_of ty.now)
        known.new.null }
    ensures past { IfOk result (λ is. is ≡ true → IsItem (T.context resources.now)
        (features_of features) (val_of ty.now) (rest reader.old) (rest reader.new)) }
    ensures noted { IfOk result (λ is. is ≡ true → notes.new
        ≡ noting N.note (names_of_expression (rest reader.old)) notes.old) }
    ensures kept { IfOk result (λ is. is ≡ false → notes.new ≡ notes.old) }
    ensures input { SameInput reader.old reader.new }
    ensures onward { position_in reader.old ≤ position_in reader.new }
    ensures unread { IfOk result (λ is. is ≡ false → reader.new ≡ reader.old) }
{
    if !features.contains(WasmFeatures::REFERENCE_TYPES) {
        return Ok(false);
    }
    if pass_function(features, resources, ty, &mut known.functions, notes, reader)? {
        return Ok(true);
    }
    Ok(pass_null(features, resources, ty, &mut known.null, reader))
}
