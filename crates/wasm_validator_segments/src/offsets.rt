//! Where active segments begin.

ghost use Rattle.std.specs.Prelude.{◌≡◌, ◌≤◌, IfErr, OnOk};
ghost use Rattle.wasm_spec_rules.specs.FeatureFlags.{features_of};
ghost use Rattle.wasm_readers.specs.WasmReadersBytes.Reader.{SameInput, position_in, rest};
ghost use Rattle.wasm_readers_types.specs.WasmReadersValues.SeenValues.{val_of};
ghost use Rattle.wasm_validator_constants.specs.TypedInstructions.{IsRefusedAt, StandsIn};
ghost use Rattle.wasm_validator_constants.specs.WasmValidatorReferences.Notes.{noting};
ghost use Rattle.wasm_validator_constants.specs.WasmValidatorReferences.References.{names_of_expression};
ghost use Rattle.wasm_validator_segments.specs.Answers.{GoesPast};
ghost use Rattle.wasm_validator_segments.specs.Offsets.{address_type, behind_table_offset, behind_memory_offset};

use crate::expressions::check_expression_of_type;
use crate::memory::ExpressionMemory;
use std::alloc::Allocator;
use wasm_readers::BinaryReader;
use wasm_readers_errors::{Error, Fault, OperatorRule, Refusal, WasmFeatures};
use wasm_readers_types::ValType;
use wasm_validator_constants::references::{NoNotes, NotesFunctions};
use wasm_validator_resources::WasmModuleResources;

/// The type of addresses, of 64 bits or of 32.
fn address_type(is_64: bool) -> ValType
    ensures { val_of result ≡ address_type is_64 }
{
    if is_64 { ValType::I64 } else { ValType::I32 }
}

/// The refusal of an index that nothing has, at this offset.
#[inline(never)]
pub(crate) fn unknown(rule: OperatorRule, index: u32, offset: u64) -> Error
    ensures { IsRefusedAt offset result }
{
    Error::Refused(Refusal::new(Fault::Operator(rule, index), offset))
}

/// Reads and types the offset of a segment that is active in the table of this index, in memory
/// that is used again, and notes the functions that it names. So many globals are imported, and they
/// come first.
///
/// # Errors
///
/// Refused where there is no such table, and where the bytes don't begin with a constant expression
/// of its address type (Core Specification 3.0, Validation, Modules, Element Segments); and where
/// memory is.
#[tactic(auto, unfolding(crate::specs::Offsets::behind_table_offset))]
pub fn check_table_offset<'a, A: Allocator + Copy, T: WasmModuleResources, N: NotesFunctions>(
    memory: &mut ExpressionMemory<A>,
    features: WasmFeatures,
    resources: &T,
    imported_globals: u32,
    table_index: u32,
    notes: &mut N,
    reader: &mut BinaryReader<'a>,
) -> Result<(), Error>
    ensures past { GoesPast result (behind_table_offset (T.context resources.now)
        (features_of features) imported_globals table_index (rest reader.old)) (rest reader.new) }
    ensures noted { OnOk result (notes.new ≡ noting N.note (names_of_expression (rest reader.old)) notes.old) }
    ensures input { SameInput reader.old reader.new }
    ensures onward { position_in reader.old ≤ position_in reader.new }
    ensures place { IfErr result (StandsIn reader.old) }
{
    let offset = reader.original_position();
    let ty = match resources.table_at(table_index) {
        Some(table) => address_type(table.table64),
        None => return Err(unknown(OperatorRule::UnknownTable, table_index, offset)),
    };
    check_expression_of_type(
        memory,
        features,
        resources,
        imported_globals,
        ty,
        notes,
        reader,
    )
}

/// Reads and types the offset of a segment that is active in the memory of this index, in memory
/// that is used again. It names no functions, since it gives a number. So many globals are imported,
/// and they come first.
///
/// # Errors
///
/// Refused where there is no such memory, and where the bytes don't begin with a constant
/// expression of its address type (Core Specification 3.0, Validation, Modules, Data Segments); and
/// where memory is.
#[tactic(auto, unfolding(crate::specs::Offsets::behind_memory_offset))]
pub fn check_memory_offset<'a, A: Allocator + Copy, T: WasmModuleResources>(
    memory: &mut ExpressionMemory<A>,
    features: WasmFeatures,
    resources: &T,
    imported_globals: u32,
    memory_index: u32,
    reader: &mut BinaryReader<'a>,
) -> Result<(), Error>
    ensures past { GoesPast result (behind_memory_offset (T.context resources.now)
        (features_of features) imported_globals memory_index (rest reader.old)) (rest reader.new) }
    ensures input { SameInput reader.old reader.new }
    ensures onward { position_in reader.old ≤ position_in reader.new }
    ensures place { IfErr result (StandsIn reader.old) }
{
    let offset = reader.original_position();
    let ty = match resources.memory_at(memory_index) {
        Some(memory) => address_type(memory.memory64),
        None => return Err(unknown(OperatorRule::UnknownMemory, memory_index, offset)),
    };
    let mut notes = NoNotes {};
    check_expression_of_type(
        memory,
        features,
        resources,
        imported_globals,
        ty,
        &mut notes,
        reader,
    )
}
