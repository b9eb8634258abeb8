//! Constant expressions of a type.

ghost use Rattle.std.specs.Prelude.{◌≡◌, ◌≤◌, IfErr, OnOk};
ghost use Rattle.wasm_spec_rules.specs.FeatureFlags.{features_of};
ghost use Rattle.wasm_readers.specs.WasmReadersBytes.Reader.{SameInput, position_in, rest};
ghost use Rattle.wasm_readers_types.specs.WasmReadersValues.SeenValues.{val_of};
ghost use Rattle.wasm_validator_constants.specs.TypedInstructions.{StandsIn};
ghost use Rattle.wasm_validator_constants.specs.WasmValidatorReferences.Notes.{noting};
ghost use Rattle.wasm_validator_constants.specs.WasmValidatorReferences.References.{names_of_expression};
ghost use Rattle.wasm_validator_segments.specs.Answers.{GoesPast};
ghost use Rattle.wasm_validator_segments.specs.Expressions.{behind_expression};

use crate::memory::ExpressionMemory;
use crate::numbers::next_number;
use std::alloc::Allocator;
use wasm_readers::BinaryReader;
use wasm_readers_errors::{Error, WasmFeatures};
use wasm_readers_types::ValType;
use wasm_validator_constants::references::NotesFunctions;
use wasm_validator_constants::{OperatorValidator, check_constant_expression};
use wasm_validator_resources::WasmModuleResources;

/// Reads and types the constant expression of this type that the bytes begin with, operator by
/// operator, and notes the functions that it names.
#[inline(never)]
fn check_any_expression<'a, A: Allocator + Copy, T: WasmModuleResources, N: NotesFunctions>(
    memory: &mut ExpressionMemory<A>,
    features: WasmFeatures,
    resources: &T,
    imported_globals: u32,
    ty: ValType,
    notes: &mut N,
    reader: &mut BinaryReader<'a>,
) -> Result<(), Error>
    ensures past { GoesPast result (behind_expression (T.context resources.now)
        (features_of features) imported_globals (val_of ty) (rest reader.old)) (rest reader.new) }
    ensures noted { OnOk result (notes.new ≡ noting N.note (names_of_expression (rest reader.old)) notes.old) }
    ensures input { SameInput reader.old reader.new }
    ensures onward { position_in reader.old ≤ position_in reader.new }
    ensures place { IfErr result (StandsIn reader.old) }
{
    let mut validator = OperatorValidator::new_const_expr(features, ty, memory.take())?;
    match check_constant_expression(&mut validator, resources, imported_globals, notes, reader) {
        Ok(()) => {
            memory.keep(validator.into_allocations());
            Ok(())
        }
        Err(error) => Err(error),
    }
}

/// Reads and types the constant expression of this type that the bytes begin with, in memory that
/// is used again, and notes the functions that it names. The type's references are identities. So many globals are imported, and they come
/// first.
///
/// # Errors
///
/// Refused where the bytes don't begin with a constant expression of this type (Core Specification
/// 3.0, Validation, Instructions, Constant Expressions); and where memory is.
pub fn check_expression_of_type<'a, A: Allocator + Copy, T: WasmModuleResources, N: NotesFunctions>(
    memory: &mut ExpressionMemory<A>,
    features: WasmFeatures,
    resources: &T,
    imported_globals: u32,
    ty: ValType,
    notes: &mut N,
    reader: &mut BinaryReader<'a>,
) -> Result<(), Error>
    ensures past { GoesPast result (behind_expression (T.context resources.now)
        (features_of features) imported_globals (val_of ty) (rest reader.old)) (rest reader.new) }
    ensures noted { OnOk result (notes.new ≡ noting N.note (names_of_expression (rest reader.old)) notes.old) }
    ensures input { SameInput reader.old reader.new }
    ensures onward { position_in reader.old ≤ position_in reader.new }
    ensures place { IfErr result (StandsIn reader.old) }
{
    let mut ahead = *reader;
    match next_number(ty, &mut ahead) {
        Some(()) => {
            reader.go_on_from(&ahead);
            Ok(())
        }
        None => check_any_expression(
            memory,
            features,
            resources,
            imported_globals,
            ty,
            notes,
            reader,
        ),
    }
}
