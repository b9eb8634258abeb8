//! Globals with their initializers.

ghost use Rattle.std.specs.Prelude.{◌≡◌, ◌≤◌, IfErr, OnOk};
ghost use Rattle.wasm_spec_rules.specs.FeatureFlags.{features_of};
ghost use Rattle.wasm_readers.specs.WasmReadersBytes.Reader.{SameInput, position_in, rest};
ghost use Rattle.wasm_readers_errors.specs.Errors.{Reads};
ghost use Rattle.wasm_readers_types.specs.SeenExterns.{global_of};
ghost use Rattle.wasm_validator_constants.specs.TypedInstructions.{IsRefusedAt, StandsIn};
ghost use Rattle.wasm_validator_constants.specs.WasmValidatorReferences.Notes.{noting};
ghost use Rattle.wasm_validator_constants.specs.WasmValidatorReferences.References.{names_of_global};
ghost use Rattle.wasm_validator_segments.specs.Globals.{global_type_at, typed_global_at};

use crate::expressions::check_expression_of_type;
use crate::memory::ExpressionMemory;
use std::alloc::Allocator;
use wasm_readers::BinaryReader;
use wasm_readers::externs::read_global_type;
use wasm_readers_errors::{Error, Refusal, WasmFeatures};
use wasm_readers_types::GlobalType;
use wasm_validator_constants::references::NotesFunctions;
use wasm_validator_resources::WasmModuleResources;

/// The same refusal, at this offset.
pub(crate) fn refused_at(refusal: Refusal, offset: u64) -> Error
    ensures { IsRefusedAt offset result }
{
    Error::Refused(Refusal {
        fault: refusal.fault,
        offset,
        missing: refusal.missing,
    })
}

/// Reads the type of a global, and puts identities in the place of its type indices.
#[tactic(auto, unfolding(crate::specs::Globals::global_type_at))]
fn check_global_type<'a, T: WasmModuleResources>(
    features: WasmFeatures,
    resources: &T,
    reader: &mut BinaryReader<'a>,
) -> Result<GlobalType, Error>
    ensures reads { Reads global_of result (global_type_at (T.context resources.now)
        (features_of features) (rest reader.old)) (rest reader.new) }
    ensures input { SameInput reader.old reader.new }
    ensures onward { position_in reader.old ≤ position_in reader.new }
    ensures place { IfErr result (StandsIn reader.old) }
{
    let offset = reader.original_position();
    let written = read_global_type(reader)?;
    let mut content_type = written.content_type;
    match resources.check_value_type(&mut content_type, &features, offset) {
        Ok(()) => Ok(GlobalType {
            content_type,
            mutable: written.mutable,
            shared: written.shared,
        }),
        Err(refusal) => Err(refused_at(refusal, offset)),
    }
}

/// Reads a global, with its initializer, which is typed in memory that is used again, and notes the
/// functions that it names. The answer's references are identities. So many globals are imported, and they come first.
///
/// # Errors
///
/// Refused where the bytes don't begin with a global's type that the features allow and whose
/// types the module has, and then with a constant expression of what it holds (Core Specification
/// 3.0, Validation, Modules, Globals); and where memory is.
#[tactic(auto, unfolding(crate::specs::Globals::typed_global_at))]
pub fn check_global_entry<'a, A: Allocator + Copy, T: WasmModuleResources, N: NotesFunctions>(
    memory: &mut ExpressionMemory<A>,
    features: WasmFeatures,
    resources: &T,
    imported_globals: u32,
    notes: &mut N,
    reader: &mut BinaryReader<'a>,
) -> Result<GlobalType, Error>
    ensures reads { Reads global_of result (typed_global_at (T.context resources.now)
        (features_of features) imported_globals (rest reader.old)) (rest reader.new) }
    ensures noted { OnOk result (notes.new ≡ noting N.note (names_of_global (rest reader.old)) notes.old) }
    ensures input { SameInput reader.old reader.new }
    ensures onward { position_in reader.old ≤ position_in reader.new }
    ensures place { IfErr result (StandsIn reader.old) }
{
    let ty = check_global_type(features, resources, reader)?;
    let content = ty.content_type;
    check_expression_of_type(
        memory,
        features,
        resources,
        imported_globals,
        content,
        notes,
        reader,
    )?;
    Ok(ty)
}
