//! The globals of a global section, with their initializers.

ghost use Rattle.std.specs.Prelude.{◌≡◌, ◌≤◌, ℕ, List, Bool, length, ⊤, is_ok, IfOk, OnOk, IfErr};
ghost use Rattle.std.specs.declared.option.Option.TheVariants.{Some};
ghost use Rattle.wasm_spec.specs.Syntax.{map_global};
ghost use Rattle.wasm_readers.specs.WrittenIndices.{written};
ghost use Rattle.wasm_spec_rules.specs.FeatureFlags.{features_of};
ghost use Rattle.wasm_readers.specs.WasmReadersBytes.Reader.{SameInput, position_in, rest};
ghost use Rattle.wasm_readers_types.specs.SeenExterns.{global_of};
ghost use Rattle.wasm_validator_types.specs.WasmValidatorTypeList.DefTypes.{types_of_list};
ghost use Rattle.wasm_validator_core.specs.WasmValidatorCanonical.Indices.{canonical_index};
ghost use Rattle.wasm_validator_core.specs.WasmValidatorChecks.Answers.{IsRefusalAt};
ghost use Rattle.wasm_validator_core.specs.WasmValidatorChecks.Items.{is_valid_global};
ghost use Rattle.wasm_validator_core.specs.Items.{types_of_module};
ghost use Rattle.wasm_validator_core.specs.OpenLists.{AreHeld};
ghost use Rattle.wasm_validator_core_resources.specs.IndexContexts.{id_of};
ghost use Rattle.wasm_validator_core_resources.specs.ListContexts.{list_declares};
ghost use Rattle.wasm_validator_core_resources.specs.ModuleContexts.{AreByIds};
ghost use Rattle.wasm_validator_segments.specs.WasmValidatorReferences.References.{marked, names_of_global};
ghost use Rattle.wasm_validator_items.specs.Answers.{Refuses, StandsBehind};
ghost use Rattle.wasm_validator_items.specs.Machine.{global_step};
ghost use Rattle.wasm_readers_errors.specs.WasmReadersFeatures.declared.features.WasmFeatures.{WasmFeatures};
ghost use Rattle.wasm_readers_errors.specs.declared.error.Counted.TheVariants as counted;
ghost use Rattle.wasm_readers_types.specs.declared.types.SubType.{SubType};
ghost use Rattle.wasm_validator_types.specs.WasmValidatorTypeList.ListViews.{Listing};
ghost use Rattle.wasm_validator_types.specs.Spaces.{Spaces};
ghost use Rattle.wasm_validator_core.specs.declared.limits.TheConstants.{MAX_GLOBALS};
ghost use Rattle.wasm_validator_items.specs.ItemSteps.{naming_step};

use crate::initializers::check_initializer;
use crate::section_items::{ItemLimit, SectionItem};
use std::alloc::Allocator;
use wasm_readers::BinaryReader;
use wasm_readers::externs::read_global_type;
use wasm_readers_errors::{Counted, Refusal, WasmFeatures};
use wasm_readers_types::{GlobalType, TypeRef, ValType};
use wasm_validator_core::{Error, MAX_GLOBALS, Module};
use wasm_validator_core_resources::TypesByIds;
use wasm_validator_segments::ExpressionMemory;
use wasm_validator_segments::references::ReferencedFunctions;
use wasm_validator_types::{EntityType, TypeList};

/// Accepts the type of a global, and gives it as the list of types has it.
fn listed_global<A: Allocator + Copy>(
    features: WasmFeatures,
    list: &TypeList<A>,
    opened: &Module<A>,
    ty: GlobalType,
    offset: u64,
) -> Result<GlobalType, Refusal>
    requires { AreHeld list.now opened.now.types }
    ensures allowed { is_ok result ≡ is_valid_global (features_of features)
        (types_of_module (types_of_list list.now) opened.now) (global_of ty) }
    ensures listed { IfOk result (λ g. global_of g
        ≡ map_global (canonical_index opened.now.types) (global_of ty)) }
    ensures refusal { IfErr result (IsRefusalAt features offset) }
{
    match (ty.content_type, ty.shared) {
        // Such a global is allowed whatever the features are, and names no type.
        (ValType::I32 | ValType::I64, false) => return Ok(ty),
        _ => {}
    }
    match opened.check_type_ref(features, list, TypeRef::Global(ty), offset)? {
        EntityType::Global(global) => Ok(global),
        _ => unreachable!(),
    }
}

/// Reads the global that the bytes begin with, in the module as far as it has been read, adds it,
/// and notes the functions that it names. Its initializer may read the immutable globals before it,
/// without `GC` only imported ones, and is typed in memory that is used again. The reader goes
/// behind it.
///
/// The list must have the types of the module; and `types` are all that it has, with ids in the
/// place of positions in their groups.
///
/// # Errors
///
/// Refused where the bytes don't begin with a global of a type that keeps every rule, with a
/// constant expression of what it holds, where there would be too many globals (Core Specification
/// 3.0, Validation, Modules, Globals), and where memory is. The module is then only to be dropped.
#[tactic(auto, unfolding(crate::specs::Machine::global_step))]
pub fn add_next_global<'a, A: Allocator + Copy>(
    features: WasmFeatures,
    list: &TypeList<A>,
    types: &TypesByIds<A>,
    memory: &mut ExpressionMemory<A>,
    opened: &mut Module<A>,
    referenced: &mut ReferencedFunctions<A>,
    reader: &mut BinaryReader<'a>,
) -> Result<(), Error<A>>
    requires held { AreHeld list.now opened.old.types }
    requires types { AreByIds list.now.groups types.now }
    ensures ok { IfOk result (λ _. global_step (features_of features)
        (list_declares id_of list.now.groups) (types_of_list list.now) opened.old (rest reader.old)
        ≡ Some (opened.new, rest reader.new)) }
    ensures err { IfErr result (λ e. Refuses e (global_step (features_of features)
        (list_declares id_of list.now.groups) (types_of_list list.now) opened.old
        (rest reader.old))) }
    ensures types { opened.new.types ≡ opened.old.types }
    ensures noted { OnOk result (referenced.new
        ≡ marked (names_of_global (rest reader.old)) referenced.old) }
    ensures input { SameInput reader.old reader.new }
    ensures onward { position_in reader.old ≤ position_in reader.new }
    ensures place { IfErr result (StandsBehind reader.old) }
{
    let offset = reader.original_position();
    let written = read_global_type(reader)?;
    let ty = listed_global(features, list, opened, written, offset)?;
    let content = ty.content_type;
    check_initializer(
        features, list, types, memory, opened, content, referenced, reader,
    )?;
    opened.add_global(ty, offset)?;
    Ok(())
}

/// Globals, with their initializers.
#[derive(Drop)]
pub struct GlobalItems<'s, A: Allocator> {
    pub features: WasmFeatures,
    pub list: &'s TypeList<A>,
    pub types: &'s TypesByIds<A>,
    pub memory: &'s mut ExpressionMemory<A>,
    pub opened: &'s mut Module<A>,
    pub referenced: &'s mut ReferencedFunctions<A>,
}

impl<A: Allocator + Copy> SectionItem<A> for GlobalItems<'_, A> {
    ghost State = { Spaces × List Bool };

    ghost Kept = { WasmFeatures × Listing A × List (SubType A) × ℕ × ℕ × ℕ × List ℕ };

    ghost state = { λ a. (a.opened.now, a.referenced.now) };

    ghost kept = { λ a. (
      a.features,
      a.list.now,
      a.types.now,
      a.memory.ghost_name,
      a.opened.ghost_name,
      a.referenced.ghost_name,
      a.opened.now.types,
    ) };

    ghost step = { λ k p bytes. naming_step (global_step (features_of k.0) (list_declares id_of k.1.groups)
        (types_of_list k.1)) names_of_global p bytes };

    ghost accepts = { λ k s. ⊤ };

    ghost tells = { λ k stop s bytes e. ⊤ };

    ghost ready = { λ a. AreHeld a.list.now a.opened.now.types × AreByIds a.list.now.groups a.types.now };

    ghost what = { counted.Globals };

    ghost there = { λ p. length p.0.globals };

    ghost most = { λ k. MAX_GLOBALS };

    fn limit(&self) -> ItemLimit {
        ItemLimit {
            what: Counted::Globals,
            there: self.opened.spaces().global_count() as usize,
            most: MAX_GLOBALS,
        }
    }

    fn add_next<'a>(&mut self, reader: &mut BinaryReader<'a>) -> Result<(), Error<A>> {
        add_next_global(
            self.features,
            self.list,
            self.types,
            self.memory,
            self.opened,
            self.referenced,
            reader,
        )
    }
}
