//! The items of element segments.

ghost use Rattle.std.specs.Prelude.{◌≡◌, ◌≤◌, ◌<◌, true, false, Some, IfErr, IfOk, OnOk};
ghost use Rattle.wasm_spec_rules.specs.FeatureFlags.{features_of};
ghost use Rattle.wasm_readers.specs.WasmReadersBytes.Reader.{SameInput, position_in, rest};
ghost use Rattle.wasm_readers_types.specs.WasmReadersValues.SeenValues.{val_of};
ghost use Rattle.wasm_validator_constants.specs.TypedInstructions.{IsRefusedAt, StandsIn};
ghost use Rattle.wasm_spec.specs.Values.{u32_at};
ghost use Rattle.wasm_validator_constants.specs.WasmValidatorReferences.Notes.{noting};
ghost use Rattle.wasm_validator_constants.specs.WasmValidatorReferences.References.{names_at};
ghost use Rattle.wasm_validator_segments.specs.Answers.{GoesPast, Refuses};
ghost use Rattle.wasm_validator_segments.specs.Elements.{behind_function};
ghost use Rattle.wasm_validator_segments.specs.Expressions.{behind_expression};
ghost use Rattle.wasm_validator_segments.specs.Lists.{behind_many, behind_list};
ghost use Rattle.wasm_validator_segments.specs.FunctionIndices.{AreAtMost, AreFunctions, NameThemselves};
ghost use Rattle.wasm_validator_segments.specs.NamedFunctions.{itself, names_of_functions, names_of_expressions, names_of_list};

use crate::expressions::check_expression_of_type;
use crate::memory::ExpressionMemory;
use std::alloc::{AllocError, Allocator};
use wasm_readers::BinaryReader;
use wasm_readers_errors::{Error, Fault, ItemRule, Refusal, WasmFeatures};
use wasm_readers_types::ValType;
use wasm_validator_constants::references::NotesFunctions;
use wasm_validator_constants::{KnownReferences, pass_reference};
use wasm_validator_resources::WasmModuleResources;

/// The most items of an element segment.
pub(crate) const MAX_ITEMS: u32 = 10_000_000;

/// From so many items on they are looked at together first.
const MANY_ITEMS: u32 = 16;

/// The refusal of a function's index, at this offset.
#[inline(never)]
fn unknown_function(function_index: u32, offset: u64) -> Error
    ensures { IsRefusedAt offset result }
{
    Error::Refused(Refusal::new(Fault::UnknownFunction(function_index), offset))
}

/// The refusal of a list of too many items, at this offset.
#[inline(never)]
fn too_many_items(offset: u64) -> Error
    ensures { IsRefusedAt offset result }
{
    Error::Refused(Refusal::new(Fault::Item(ItemRule::ElementCount), offset))
}

/// Reads the index of a function that is there, and notes the function.
#[tactic(auto, unfolding(crate::specs::Elements::behind_function))]
fn check_function<'a, T: WasmModuleResources, N: NotesFunctions>(
    resources: &T,
    notes: &mut N,
    reader: &mut BinaryReader<'a>,
) -> Result<(), Error>
    ensures past { GoesPast result (behind_function (T.context resources.now) (rest reader.old))
        (rest reader.new) }
    ensures noted { OnOk result (notes.new ≡ noting N.note (names_at u32_at itself (rest reader.old)) notes.old) }
    ensures input { SameInput reader.old reader.new }
    ensures onward { position_in reader.old ≤ position_in reader.new }
    ensures place { IfErr result (StandsIn reader.old) }
{
    let offset = reader.original_position();
    let function_index = reader.read_var_u32()?;
    match resources.type_index_of_function(function_index) {
        Some(_) => Ok(notes.note(function_index)?),
        None => Err(unknown_function(function_index, offset)),
    }
}

/// Reads so many indices of functions that are there, one by one, and notes the functions.
#[inline(never)]
fn check_each_function<'a, T: WasmModuleResources, N: NotesFunctions>(
    resources: &T,
    notes: &mut N,
    count: u32,
    reader: &mut BinaryReader<'a>,
) -> Result<(), Error>
    ensures past { GoesPast result (behind_many (behind_function (T.context resources.now)) count
        (rest reader.old)) (rest reader.new) }
    ensures noted { OnOk result (notes.new ≡ noting N.note (names_of_functions count (rest reader.old)) notes.old) }
    ensures input { SameInput reader.old reader.new }
    ensures onward { position_in reader.old ≤ position_in reader.new }
    ensures place { IfErr result (StandsIn reader.old) }
{
    let mut left = count;
    'items: while left > 0 {
        check_function(resources, notes, reader)?;
        left -= 1;
    }
    Ok(())
}

/// The greatest of these bytes, or 0.
fn greatest(bytes: &[u8]) -> u8
    ensures { AreAtMost result bytes.now }
{
    let mut most = 0;
    for byte in bytes {
        if *byte > most {
            most = *byte;
        }
    }
    most
}

/// Whether these bytes are known to be indices of functions that are there, one byte each.
fn are_known<T: WasmModuleResources>(resources: &T, bytes: &[u8]) -> bool
    ensures there { result ≡ true → AreFunctions (T.context resources.now) bytes.now }
    ensures named { result ≡ true → NameThemselves bytes.now }
{
    let most = greatest(bytes);
    if most >= 128 {
        return false;
    }
    resources.type_index_of_function(u32::from(most)).is_some()
}

/// Goes past so many indices of functions that are there, if these are next, one byte each, notes the
/// functions, and tells whether they are.
fn pass_bytes<'a, T: WasmModuleResources, N: NotesFunctions>(
    resources: &T,
    notes: &mut N,
    count: u32,
    reader: &mut BinaryReader<'a>,
) -> Result<bool, AllocError>
    ensures past { IfOk result (λ is. is ≡ true → behind_many
        (behind_function (T.context resources.now)) count (rest reader.old)
        ≡ Some (rest reader.new)) }
    ensures noted { IfOk result (λ is. is ≡ true → notes.new
        ≡ noting N.note (names_of_functions count (rest reader.old)) notes.old) }
    ensures kept { IfOk result (λ is. is ≡ false → notes.new ≡ notes.old) }
    ensures input { SameInput reader.old reader.new }
    ensures onward { position_in reader.old ≤ position_in reader.new }
    ensures unread { IfOk result (λ is. is ≡ false → reader.new ≡ reader.old) }
{
    let mut ahead = *reader;
    match ahead.read_reader(count as usize) {
        Ok(indices) => {
            let listed = indices.remaining();
            if !are_known(resources, listed) {
                return Ok(false);
            }
            notes.note_bytes(listed)?;
            reader.go_on_from(&ahead);
            Ok(true)
        }
        Err(_) => Ok(false),
    }
}

/// Goes past the index of a function that is there, if one is next, notes the function, and tells
/// whether it is.
#[inline(always)]
#[tactic(auto, unfolding(crate::specs::Elements::behind_function))]
fn pass_function<'a, T: WasmModuleResources, N: NotesFunctions>(
    resources: &T,
    notes: &mut N,
    reader: &mut BinaryReader<'a>,
) -> Result<bool, AllocError>
    ensures past { IfOk result (λ is. is ≡ true → behind_function (T.context resources.now)
        (rest reader.old) ≡ Some (rest reader.new)) }
    ensures noted { IfOk result (λ is. is ≡ true → notes.new
        ≡ noting N.note (names_at u32_at itself (rest reader.old)) notes.old) }
    ensures kept { IfOk result (λ is. is ≡ false → notes.new ≡ notes.old) }
    ensures input { SameInput reader.old reader.new }
    ensures onward { position_in reader.old ≤ position_in reader.new }
    ensures unread { IfOk result (λ is. is ≡ false → reader.new ≡ reader.old) }
{
    let mut ahead = *reader;
    match ahead.next_var_u32() {
        Some(function_index) => match resources.type_index_of_function(function_index) {
            Some(_) => {
                notes.note(function_index)?;
                reader.go_on_from(&ahead);
                Ok(true)
            }
            None => Ok(false),
        },
        None => Ok(false),
    }
}

/// Goes past indices of functions that are there, so many at the most, notes the functions, and gives
/// how many of these are left.
fn pass_functions<'a, T: WasmModuleResources, N: NotesFunctions>(
    resources: &T,
    notes: &mut N,
    count: u32,
    reader: &mut BinaryReader<'a>,
) -> Result<u32, AllocError>
    ensures so_far { IfOk result (λ left. behind_many
        (behind_function (T.context resources.now)) left (rest reader.new)
        ≡ behind_many (behind_function (T.context resources.now)) count (rest reader.old)) }
    ensures noted { IfOk result (λ left. noting N.note
        (names_of_functions left (rest reader.new)) notes.new
        ≡ noting N.note (names_of_functions count (rest reader.old)) notes.old) }
    ensures input { SameInput reader.old reader.new }
    ensures onward { position_in reader.old ≤ position_in reader.new }
{
    // The reader itself is not lent, so that it can be kept in registers.
    let mut ahead = *reader;
    let mut left = count;
    'items: while left > 0 {
        if !pass_function(resources, notes, &mut ahead)? {
            reader.go_on_from(&ahead);
            return Ok(left);
        }
        left -= 1;
    }
    reader.go_on_from(&ahead);
    Ok(left)
}

/// Reads so many indices of functions that are there, notes the functions, and tells of the first that
/// isn't there.
pub(crate) fn check_functions<'a, T: WasmModuleResources, N: NotesFunctions>(
    resources: &T,
    notes: &mut N,
    count: u32,
    reader: &mut BinaryReader<'a>,
) -> Result<(), Error>
    ensures past { GoesPast result (behind_many (behind_function (T.context resources.now)) count
        (rest reader.old)) (rest reader.new) }
    ensures noted { OnOk result (notes.new ≡ noting N.note (names_of_functions count (rest reader.old)) notes.old) }
    ensures input { SameInput reader.old reader.new }
    ensures onward { position_in reader.old ≤ position_in reader.new }
    ensures place { IfErr result (StandsIn reader.old) }
{
    if count >= MANY_ITEMS {
        if pass_bytes(resources, notes, count, reader)? {
            return Ok(());
        }
    }
    let left = pass_functions(resources, notes, count, reader)?;
    check_each_function(resources, notes, left, reader)
}

/// Reads a list of indices of functions, and notes the functions.
///
/// # Errors
///
/// Refused where the bytes don't begin with such a list, where it has more than 10,000,000 items,
/// and where there is no such function (Core Specification 3.0, Validation, Modules, Element
/// Segments).
pub fn check_function_list<'a, T: WasmModuleResources, N: NotesFunctions>(
    resources: &T,
    notes: &mut N,
    reader: &mut BinaryReader<'a>,
) -> Result<(), Error>
    ensures past { GoesPast result (behind_list (behind_function (T.context resources.now))
        (rest reader.old)) (rest reader.new) }
    ensures noted { OnOk result (notes.new ≡ noting N.note (names_of_list names_of_functions (rest reader.old)) notes.old) }
    ensures input { SameInput reader.old reader.new }
    ensures onward { position_in reader.old ≤ position_in reader.new }
    ensures place { IfErr result (StandsIn reader.old) }
{
    let offset = reader.original_position();
    let count = reader.read_var_u32()?;
    if count > MAX_ITEMS {
        return Err(too_many_items(offset));
    }
    check_functions(resources, notes, count, reader)
}

/// Goes past references that are of this type, so many at the most, notes the functions, and gives how
/// many items are left.
#[inline(never)]
fn pass_references<'a, T: WasmModuleResources, N: NotesFunctions>(
    features: WasmFeatures,
    resources: &T,
    imported_globals: u32,
    ty: ValType,
    notes: &mut N,
    count: u32,
    reader: &mut BinaryReader<'a>,
) -> Result<u32, AllocError>
    ensures so_far { IfOk result (λ left. behind_many (behind_expression (T.context resources.now)
        (features_of features) imported_globals (val_of ty)) left (rest reader.new)
        ≡ behind_many (behind_expression (T.context resources.now) (features_of features)
        imported_globals (val_of ty)) count (rest reader.old)) }
    ensures noted { IfOk result (λ left. noting N.note
        (names_of_expressions left (rest reader.new)) notes.new
        ≡ noting N.note (names_of_expressions count (rest reader.old)) notes.old) }
    ensures fewer { IfOk result (λ left. left ≤ count) }
    ensures input { SameInput reader.old reader.new }
    ensures onward { position_in reader.old ≤ position_in reader.new }
{
    // The reader itself is not lent, so that it can be kept in registers.
    let mut ahead = *reader;
    let mut known = KnownReferences::none();
    let mut more = count;
    'items: while more > 0 {
        if !pass_reference(features, resources, &ty, &mut known, notes, &mut ahead)? {
            reader.go_on_from(&ahead);
            return Ok(more);
        }
        more -= 1;
    }
    reader.go_on_from(&ahead);
    Ok(more)
}

/// Reads constant expressions of this type, one at least and so many at the most, notes the functions
/// that they name, and gives how many are left.
fn check_some_expressions<'a, A: Allocator + Copy, T: WasmModuleResources, N: NotesFunctions>(
    memory: &mut ExpressionMemory<A>,
    features: WasmFeatures,
    resources: &T,
    imported_globals: u32,
    ty: ValType,
    notes: &mut N,
    count: u32,
    reader: &mut BinaryReader<'a>,
) -> Result<u32, Error>
    requires { 0 < count }
    ensures so_far { IfOk result (λ left. behind_many (behind_expression (T.context resources.now)
        (features_of features) imported_globals (val_of ty)) left (rest reader.new)
        ≡ behind_many (behind_expression (T.context resources.now) (features_of features)
        imported_globals (val_of ty)) count (rest reader.old)) }
    ensures refused { IfErr result (λ e. Refuses e (behind_many
        (behind_expression (T.context resources.now) (features_of features) imported_globals
        (val_of ty)) count (rest reader.old))) }
    ensures noted { IfOk result (λ left. noting N.note
        (names_of_expressions left (rest reader.new)) notes.new
        ≡ noting N.note (names_of_expressions count (rest reader.old)) notes.old) }
    ensures fewer { IfOk result (λ left. left < count) }
    ensures input { SameInput reader.old reader.new }
    ensures onward { position_in reader.old ≤ position_in reader.new }
    ensures place { IfErr result (StandsIn reader.old) }
{
    let left = pass_references(
        features,
        resources,
        imported_globals,
        ty,
        notes,
        count,
        reader,
    )?;
    if left == 0 {
        return Ok(0);
    }
    check_expression_of_type(
        memory,
        features,
        resources,
        imported_globals,
        ty,
        notes,
        reader,
    )?;
    Ok(left - 1)
}

/// Reads so many constant expressions of this type, and notes the functions that they name.
fn check_expressions<'a, A: Allocator + Copy, T: WasmModuleResources, N: NotesFunctions>(
    memory: &mut ExpressionMemory<A>,
    features: WasmFeatures,
    resources: &T,
    imported_globals: u32,
    ty: ValType,
    notes: &mut N,
    count: u32,
    reader: &mut BinaryReader<'a>,
) -> Result<(), Error>
    ensures past { GoesPast result (behind_many (behind_expression (T.context resources.now)
        (features_of features) imported_globals (val_of ty)) count (rest reader.old))
        (rest reader.new) }
    ensures noted { OnOk result (notes.new ≡ noting N.note (names_of_expressions count (rest reader.old)) notes.old) }
    ensures input { SameInput reader.old reader.new }
    ensures onward { position_in reader.old ≤ position_in reader.new }
    ensures place { IfErr result (StandsIn reader.old) }
{
    let mut left = count;
    'items: while left > 0 {
        let still = check_some_expressions(
            memory,
            features,
            resources,
            imported_globals,
            ty,
            notes,
            left,
            reader,
        )?;
        left = still;
    }
    Ok(())
}

/// Reads a list of constant expressions of this type, which are typed in memory that is used again,
/// and notes the functions that they name. The type's references are identities. So many globals are imported, and they come first.
///
/// # Errors
///
/// Refused where the bytes don't begin with such a list, where it has more than 10,000,000 items
/// (Core Specification 3.0, Validation, Modules, Element Segments); and where memory is.
pub fn check_expression_list<'a, A: Allocator + Copy, T: WasmModuleResources, N: NotesFunctions>(
    memory: &mut ExpressionMemory<A>,
    features: WasmFeatures,
    resources: &T,
    imported_globals: u32,
    ty: ValType,
    notes: &mut N,
    reader: &mut BinaryReader<'a>,
) -> Result<(), Error>
    ensures past { GoesPast result (behind_list (behind_expression (T.context resources.now)
        (features_of features) imported_globals (val_of ty)) (rest reader.old)) (rest reader.new) }
    ensures noted { OnOk result (notes.new ≡ noting N.note (names_of_list names_of_expressions (rest reader.old)) notes.old) }
    ensures input { SameInput reader.old reader.new }
    ensures onward { position_in reader.old ≤ position_in reader.new }
    ensures place { IfErr result (StandsIn reader.old) }
{
    let offset = reader.original_position();
    let count = reader.read_var_u32()?;
    if count > MAX_ITEMS {
        return Err(too_many_items(offset));
    }
    check_expressions(
        memory,
        features,
        resources,
        imported_globals,
        ty,
        notes,
        count,
        reader,
    )
}
