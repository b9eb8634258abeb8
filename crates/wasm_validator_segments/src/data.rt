//! Data segments.

ghost use Rattle.std.specs.Prelude.{◌≡◌, ◌≤◌, IfErr};
ghost use Rattle.wasm_spec_rules.specs.FeatureFlags.{features_of};
ghost use Rattle.wasm_readers.specs.WasmReadersBytes.Reader.{SameInput, position_in, rest};
ghost use Rattle.wasm_readers_errors.specs.Refusals.{plain};
ghost use Rattle.wasm_validator_constants.specs.TypedInstructions.{IsRefusedAt, StandsIn};
ghost use Rattle.wasm_validator_segments.specs.Answers.{GoesPast};
ghost use Rattle.wasm_validator_segments.specs.Data.{behind_data_mode, behind_data};

use crate::memory::ExpressionMemory;
use crate::offsets::check_memory_offset;
use bitflags::Flags;
use std::alloc::Allocator;
use wasm_readers::BinaryReader;
use wasm_readers_errors::{Error, Fault, ItemRule, Malformed, Refusal, WasmFeatures};
use wasm_validator_resources::WasmModuleResources;

/// The refusal of a segment's flag, at this offset.
#[inline(never)]
pub(crate) fn unknown_flag(malformed: Malformed, offset: u64) -> Error
    ensures { result ≡ Error.Refused (plain (Fault.Malformed malformed) offset) }
{
    Error::Refused(Refusal::new(Fault::Malformed(malformed), offset))
}

/// The refusal of a segment that isn't active, at this offset.
#[inline(never)]
pub(crate) fn no_bulk_memory(rule: ItemRule, offset: u64) -> Error
    ensures { IsRefusedAt offset result }
{
    Error::Refused(Refusal::missing(Fault::Item(rule), offset, WasmFeatures::BULK_MEMORY))
}

/// Reads where a data segment with this flag, which is at most 2, goes, and types its offset.
fn check_data_mode<'a, A: Allocator + Copy, T: WasmModuleResources>(
    memory: &mut ExpressionMemory<A>,
    features: WasmFeatures,
    resources: &T,
    imported_globals: u32,
    flag: u32,
    reader: &mut BinaryReader<'a>,
) -> Result<(), Error>
    requires { flag ≤ 2 }
    ensures past { GoesPast result (behind_data_mode (T.context resources.now)
        (features_of features) imported_globals flag (rest reader.old)) (rest reader.new) }
    ensures input { SameInput reader.old reader.new }
    ensures onward { position_in reader.old ≤ position_in reader.new }
    ensures place { IfErr result (StandsIn reader.old) }
{
    match flag {
        0 => check_memory_offset(memory, features, resources, imported_globals, 0, reader),
        1 => {
            if features.contains(WasmFeatures::BULK_MEMORY) {
                return Ok(());
            }
            let offset = reader.original_position();
            Err(no_bulk_memory(ItemRule::PassiveData, offset))
        }
        _ => {
            let memory_index = reader.read_var_u32()?;
            check_memory_offset(
                memory,
                features,
                resources,
                imported_globals,
                memory_index,
                reader,
            )
        }
    }
}

/// Reads a data segment, and types its offset in memory that is used again. So many globals are
/// imported, and they come first.
///
/// # Errors
///
/// Refused where the bytes don't begin with a data segment, where it is passive without
/// `BULK_MEMORY`, and where it goes into a memory that isn't there, or from an offset that isn't a
/// constant expression of the memory's address type (Core Specification 3.0, Validation, Modules,
/// Data Segments); and where memory is.
#[tactic(auto, unfolding(crate::specs::Data::behind_data))]
pub fn check_data<'a, A: Allocator + Copy, T: WasmModuleResources>(
    memory: &mut ExpressionMemory<A>,
    features: WasmFeatures,
    resources: &T,
    imported_globals: u32,
    reader: &mut BinaryReader<'a>,
) -> Result<(), Error>
    ensures past { GoesPast result (behind_data (T.context resources.now) (features_of features)
        imported_globals (rest reader.old)) (rest reader.new) }
    ensures input { SameInput reader.old reader.new }
    ensures onward { position_in reader.old ≤ position_in reader.new }
    ensures place { IfErr result (StandsIn reader.old) }
{
    let offset = reader.original_position();
    let flag = reader.read_var_u32()?;
    if flag > 2 {
        return Err(unknown_flag(Malformed::DataFlags, offset));
    }
    check_data_mode(memory, features, resources, imported_globals, flag, reader)?;
    reader.read_sized()?;
    Ok(())
}
