//! Constant expressions of a type in a module as far as it has been read.

ghost use Rattle.std.specs.Prelude.{◌≡◌, ◌≤◌, IfOk, OnOk, IfErr};
ghost use Rattle.std.specs.declared.option.Option.TheVariants.{Some};
ghost use Rattle.wasm_spec_rules.specs.FeatureFlags.{features_of};
ghost use Rattle.wasm_readers.specs.WasmReadersBytes.Reader.{SameInput, position_in, rest};
ghost use Rattle.wasm_readers_types.specs.WasmReadersValues.SeenValues.{val_of};
ghost use Rattle.wasm_validator_core.specs.OpenLists.{AreHeld};
ghost use Rattle.wasm_validator_core_resources.specs.IndexContexts.{id_of};
ghost use Rattle.wasm_validator_core_resources.specs.ListContexts.{list_declares};
ghost use Rattle.wasm_validator_core_resources.specs.ModuleContexts.{AreByIds};
ghost use Rattle.wasm_validator_segments.specs.WasmValidatorReferences.References.{marked, names_of_expression};
ghost use Rattle.wasm_validator_items.specs.Answers.{Refuses, StandsBehind};
ghost use Rattle.wasm_validator_items.specs.Machine.{behind_initializer};

use std::alloc::Allocator;
use wasm_readers::BinaryReader;
use wasm_readers_errors::WasmFeatures;
use wasm_readers_types::ValType;
use wasm_validator_core::{Error, Module};
use wasm_validator_core_resources::{ModuleResources, TypesByIds};
use wasm_validator_segments::references::ReferencedFunctions;
use wasm_validator_segments::{ExpressionMemory, check_expression_of_type};
use wasm_validator_types::TypeList;

/// Reads and types the constant expression of this type that the bytes begin with, in the module as
/// far as it has been read, and notes the functions that it names.
#[tactic(auto, unfolding(crate::specs::Machine::behind_initializer))]
pub(crate) fn check_initializer<'a, A: Allocator + Copy>(
    features: WasmFeatures,
    list: &TypeList<A>,
    types: &TypesByIds<A>,
    memory: &mut ExpressionMemory<A>,
    opened: &Module<A>,
    ty: ValType,
    referenced: &mut ReferencedFunctions<A>,
    reader: &mut BinaryReader<'a>,
) -> Result<(), Error<A>>
    requires held { AreHeld list.now opened.now.types }
    requires types { AreByIds list.now.groups types.now }
    ensures ok { IfOk result (λ _. behind_initializer (features_of features)
        (list_declares id_of list.now.groups) opened.now (val_of ty) (rest reader.old)
        ≡ Some (rest reader.new)) }
    ensures err { IfErr result (λ e. Refuses e (behind_initializer (features_of features)
        (list_declares id_of list.now.groups) opened.now (val_of ty) (rest reader.old))) }
    ensures noted { OnOk result (referenced.new
        ≡ marked (names_of_expression (rest reader.old)) referenced.old) }
    ensures input { SameInput reader.old reader.new }
    ensures onward { position_in reader.old ≤ position_in reader.new }
    ensures place { IfErr result (StandsBehind reader.old) }
{
    let spaces = opened.spaces();
    let imported_globals = spaces.imported_global_count();
    let resources = ModuleResources::new(spaces, list, types, &[], None);
    check_expression_of_type(
        memory,
        features,
        &resources,
        imported_globals,
        ty,
        referenced,
        reader,
    )?;
    Ok(())
}
