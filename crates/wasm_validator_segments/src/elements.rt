//! Element segments.

ghost use Rattle.std.specs.Prelude.{◌≡◌, ◌≤◌, IfErr, IfOk, OnOk, OnErr, Some, None};
ghost use Rattle.wasm_spec_rules.specs.FeatureFlags.{features_of};
ghost use Rattle.wasm_readers.specs.WasmReadersBytes.Reader.{SameInput, position_in, rest, RefusedFrom};
ghost use Rattle.wasm_readers_errors.specs.Errors.{Reads};
ghost use Rattle.wasm_readers_types.specs.WasmReadersValues.SeenValues.{val_of};
ghost use Rattle.wasm_validator_constants.specs.TypedInstructions.{IsRefusedAt, StandsIn};
ghost use Rattle.wasm_validator_constants.specs.WasmValidatorReferences.Notes.{noting};
ghost use Rattle.wasm_validator_constants.specs.WasmValidatorReferences.References.{names_of_element};
ghost use Rattle.wasm_validator_segments.specs.Answers.{GoesPast};
ghost use Rattle.wasm_validator_segments.specs.Elements.{index_if, may_go, reference_at, items_type_at, segment_table_at, behind_items, typed_items_at, typed_element_from, typed_element_at};
ghost use Rattle.wasm_validator_segments.specs.NamedFunctions.{names_of_place, names_of_items, names_of_element_from};

use crate::data::{no_bulk_memory, unknown_flag};
use crate::globals::refused_at;
use crate::lists::{check_expression_list, check_function_list, check_functions};
use crate::memory::ExpressionMemory;
use crate::offsets::check_table_offset;
use crate::plain::next_plain_segment;
use bitflags::Flags;
use std::alloc::Allocator;
use wasm_items::{read_kind, read_written_type};
use wasm_readers::BinaryReader;
use wasm_readers_errors::{Error, Fault, ItemRule, Malformed, Refusal, WasmFeatures};
use wasm_readers_types::{RefType, ValType};
use wasm_validator_constants::references::NotesFunctions;
use wasm_validator_resources::WasmModuleResources;

/// An index where one is written, and else the first.
fn read_index_if(reader: &mut BinaryReader<'_>, there: bool) -> Result<u32, Refusal>
    ensures same { SameInput reader.old reader.new }
    ensures onward { position_in reader.old ≤ position_in reader.new }
    ensures refusal { IfErr result (RefusedFrom reader.old) }
    ensures ok { IfOk result (λ x. index_if there (rest reader.old) ≡ Some (x, rest reader.new)) }
    ensures err { OnErr result (index_if there (rest reader.old) ≡ None) }
{
    if there { reader.read_var_u32() } else { Ok(0) }
}

/// The type of expressions, with the identity in the place of its type index.
#[tactic(auto, unfolding(crate::specs::Elements::reference_at))]
fn check_written_type<'a, T: WasmModuleResources>(
    features: WasmFeatures,
    resources: &T,
    flag: u32,
    reader: &mut BinaryReader<'a>,
) -> Result<ValType, Error>
    ensures reads { Reads val_of result (reference_at (T.context resources.now)
        (features_of features) flag (rest reader.old)) (rest reader.new) }
    ensures input { SameInput reader.old reader.new }
    ensures onward { position_in reader.old ≤ position_in reader.new }
    ensures place { IfErr result (StandsIn reader.old) }
{
    let offset = reader.original_position();
    let mut ty = ValType::Ref(read_written_type(flag, reader)?);
    match resources.check_value_type(&mut ty, &features, offset) {
        Ok(()) => Ok(ty),
        Err(refusal) => Err(refused_at(refusal, offset)),
    }
}

/// The type of the items of a segment with this flag.
fn check_items_type<'a, T: WasmModuleResources>(
    features: WasmFeatures,
    resources: &T,
    flag: u32,
    reader: &mut BinaryReader<'a>,
) -> Result<ValType, Error>
    ensures reads { Reads val_of result (items_type_at (T.context resources.now)
        (features_of features) flag (rest reader.old)) (rest reader.new) }
    ensures input { SameInput reader.old reader.new }
    ensures onward { position_in reader.old ≤ position_in reader.new }
    ensures place { IfErr result (StandsIn reader.old) }
{
    if flag & 4 != 0 {
        return check_written_type(features, resources, flag, reader);
    }
    if flag != 0 {
        read_kind(reader)?;
    }
    Ok(ValType::Ref(RefType::FUNC))
}

/// The table that a segment with this flag goes to, if it goes to one, behind its offset.
#[tactic(auto, unfolding(crate::specs::Elements::segment_table_at))]
fn check_segment_table<'a, A: Allocator + Copy, T: WasmModuleResources, N: NotesFunctions>(
    memory: &mut ExpressionMemory<A>,
    features: WasmFeatures,
    resources: &T,
    imported_globals: u32,
    flag: u32,
    notes: &mut N,
    reader: &mut BinaryReader<'a>,
) -> Result<Option<u32>, Error>
    ensures reads { Reads (λ x. x) result (segment_table_at (T.context resources.now)
        (features_of features) imported_globals flag (rest reader.old)) (rest reader.new) }
    ensures noted { OnOk result (notes.new ≡ noting N.note (names_of_place flag (rest reader.old)) notes.old) }
    ensures input { SameInput reader.old reader.new }
    ensures onward { position_in reader.old ≤ position_in reader.new }
    ensures place { IfErr result (StandsIn reader.old) }
{
    if flag & 1 != 0 {
        if features.contains(WasmFeatures::BULK_MEMORY) {
            return Ok(None);
        }
        let offset = reader.original_position();
        return Err(no_bulk_memory(ItemRule::PassiveElements, offset));
    }
    let table_index = read_index_if(reader, flag & 2 != 0)?;
    check_table_offset(
        memory,
        features,
        resources,
        imported_globals,
        table_index,
        notes,
        reader,
    )?;
    Ok(Some(table_index))
}

/// Whether items of this type may go to the table, if there is one.
fn may_go<T: WasmModuleResources>(resources: &T, table: Option<u32>, ty: ValType) -> bool
    ensures { result ≡ may_go (T.context resources.now) table (val_of ty) }
{
    match table {
        None => true,
        Some(table_index) => match resources.table_at(table_index) {
            Some(table) => resources.is_subtype(ty, ValType::Ref(table.element_type)),
            None => false,
        },
    }
}

/// Reads the items of a segment with this flag, which are of this type.
fn check_items<'a, A: Allocator + Copy, T: WasmModuleResources, N: NotesFunctions>(
    memory: &mut ExpressionMemory<A>,
    features: WasmFeatures,
    resources: &T,
    imported_globals: u32,
    flag: u32,
    ty: ValType,
    notes: &mut N,
    reader: &mut BinaryReader<'a>,
) -> Result<(), Error>
    ensures past { GoesPast result (behind_items (T.context resources.now)
        (features_of features) imported_globals flag (val_of ty) (rest reader.old))
        (rest reader.new) }
    ensures noted { OnOk result (notes.new ≡ noting N.note (names_of_items flag (rest reader.old)) notes.old) }
    ensures input { SameInput reader.old reader.new }
    ensures onward { position_in reader.old ≤ position_in reader.new }
    ensures place { IfErr result (StandsIn reader.old) }
{
    if flag & 4 != 0 {
        return check_expression_list(
            memory,
            features,
            resources,
            imported_globals,
            ty,
            notes,
            reader,
        );
    }
    check_function_list(resources, notes, reader)?;
    Ok(())
}

/// The refusal of items that the segment's table may not hold, at this offset.
#[inline(never)]
fn wrong_items(offset: u64) -> Error
    ensures { IsRefusedAt offset result }
{
    Error::Refused(Refusal::new(Fault::Item(ItemRule::ElementTypes), offset))
}

/// Reads the items of a segment with this flag, which are of this type and go to this table, if
/// they go to one.
fn check_items_for<'a, A: Allocator + Copy, T: WasmModuleResources, N: NotesFunctions>(
    memory: &mut ExpressionMemory<A>,
    features: WasmFeatures,
    resources: &T,
    imported_globals: u32,
    flag: u32,
    table: Option<u32>,
    ty: ValType,
    notes: &mut N,
    reader: &mut BinaryReader<'a>,
) -> Result<ValType, Error>
    ensures reads { Reads val_of result (typed_items_at (T.context resources.now)
        (features_of features) imported_globals flag table (val_of ty) (rest reader.old))
        (rest reader.new) }
    ensures noted { OnOk result (notes.new ≡ noting N.note (names_of_items flag (rest reader.old)) notes.old) }
    ensures input { SameInput reader.old reader.new }
    ensures onward { position_in reader.old ≤ position_in reader.new }
    ensures place { IfErr result (StandsIn reader.old) }
{
    if !may_go(resources, table, ty) {
        return Err(wrong_items(reader.original_position()));
    }
    check_items(
        memory,
        features,
        resources,
        imported_globals,
        flag,
        ty,
        notes,
        reader,
    )?;
    Ok(ty)
}

/// Reads an element segment with this flag, which is at most 7.
fn check_element_from<'a, A: Allocator + Copy, T: WasmModuleResources, N: NotesFunctions>(
    memory: &mut ExpressionMemory<A>,
    features: WasmFeatures,
    resources: &T,
    imported_globals: u32,
    flag: u32,
    notes: &mut N,
    reader: &mut BinaryReader<'a>,
) -> Result<ValType, Error>
    requires { flag ≤ 7 }
    ensures reads { Reads val_of result (typed_element_from (T.context resources.now)
        (features_of features) imported_globals flag (rest reader.old)) (rest reader.new) }
    ensures noted { OnOk result (notes.new ≡ noting N.note (names_of_element_from flag (rest reader.old)) notes.old) }
    ensures input { SameInput reader.old reader.new }
    ensures onward { position_in reader.old ≤ position_in reader.new }
    ensures place { IfErr result (StandsIn reader.old) }
{
    let table = check_segment_table(
        memory,
        features,
        resources,
        imported_globals,
        flag,
        notes,
        reader,
    )?;
    let ty = check_items_type(features, resources, flag, reader)?;
    check_items_for(
        memory,
        features,
        resources,
        imported_globals,
        flag,
        table,
        ty,
        notes,
        reader,
    )
}

/// Reads any element segment, part by part.
#[inline(never)]
#[tactic(auto, unfolding(crate::specs::Elements::typed_element_at))]
fn check_any_element<'a, A: Allocator + Copy, T: WasmModuleResources, N: NotesFunctions>(
    memory: &mut ExpressionMemory<A>,
    features: WasmFeatures,
    resources: &T,
    imported_globals: u32,
    notes: &mut N,
    reader: &mut BinaryReader<'a>,
) -> Result<ValType, Error>
    ensures reads { Reads val_of result (typed_element_at (T.context resources.now)
        (features_of features) imported_globals (rest reader.old)) (rest reader.new) }
    ensures noted { OnOk result (notes.new ≡ noting N.note (names_of_element (rest reader.old)) notes.old) }
    ensures input { SameInput reader.old reader.new }
    ensures onward { position_in reader.old ≤ position_in reader.new }
    ensures place { IfErr result (StandsIn reader.old) }
{
    let flag = reader.read_var_u32()?;
    if flag > 7 {
        let last = reader.original_position() - 1;
        return Err(unknown_flag(Malformed::ElementFlags, last));
    }
    check_element_from(
        memory,
        features,
        resources,
        imported_globals,
        flag,
        notes,
        reader,
    )
}

/// Reads an element segment, whose expressions are typed in memory that is used again, and notes
/// the functions that it names: those that it lists, and those of its expressions. The answer is
/// the type of its items, whose references are identities. So many globals are imported, and they
/// come first.
///
/// # Errors
///
/// Refused where the bytes don't begin with an element segment, or with one that isn't valid: its
/// functions are there, its expressions are constant expressions of their type, it has at most
/// 10,000,000 items, an active one goes to a table that is there and may hold its items, from an
/// offset that is a constant expression of the table's address type, and any other asks for
/// `BULK_MEMORY` (Core Specification 3.0, Validation, Modules, Element Segments); and where memory
/// is.
pub fn check_element<'a, A: Allocator + Copy, T: WasmModuleResources, N: NotesFunctions>(
    memory: &mut ExpressionMemory<A>,
    features: WasmFeatures,
    resources: &T,
    imported_globals: u32,
    notes: &mut N,
    reader: &mut BinaryReader<'a>,
) -> Result<ValType, Error>
    ensures reads { Reads val_of result (typed_element_at (T.context resources.now)
        (features_of features) imported_globals (rest reader.old)) (rest reader.new) }
    ensures noted { OnOk result (notes.new ≡ noting N.note (names_of_element (rest reader.old)) notes.old) }
    ensures input { SameInput reader.old reader.new }
    ensures onward { position_in reader.old ≤ position_in reader.new }
    ensures place { IfErr result (StandsIn reader.old) }
{
    let mut ahead = *reader;
    match next_plain_segment(resources, &mut ahead) {
        Some(count) => {
            reader.go_on_from(&ahead);
            check_functions(resources, notes, count, reader)?;
            let ty = ValType::Ref(RefType::FUNC);
            Ok(ty)
        }
        None => check_any_element(memory, features, resources, imported_globals, notes, reader),
    }
}
