//! The data segments of a data section.

ghost use Rattle.std.specs.Prelude.{◌≡◌, ◌≤◌, ℕ, List, ⊤, IfOk, IfErr};
ghost use Rattle.std.specs.declared.option.Option.TheVariants.{Some};
ghost use Rattle.wasm_spec_rules.specs.FeatureFlags.{features_of};
ghost use Rattle.wasm_readers.specs.WasmReadersBytes.Reader.{SameInput, position_in, rest};
ghost use Rattle.wasm_validator_core.specs.OpenLists.{AreHeld};
ghost use Rattle.wasm_validator_core_resources.specs.IndexContexts.{id_of};
ghost use Rattle.wasm_validator_core_resources.specs.ListContexts.{list_declares};
ghost use Rattle.wasm_validator_core_resources.specs.ModuleContexts.{AreByIds};
ghost use Rattle.wasm_validator_items.specs.Answers.{Refuses, StandsBehind};
ghost use Rattle.wasm_validator_items.specs.Machine.{data_step};
ghost use Rattle.wasm_readers_errors.specs.WasmReadersFeatures.declared.features.WasmFeatures.{WasmFeatures};
ghost use Rattle.wasm_readers_errors.specs.declared.error.Counted.TheVariants as counted;
ghost use Rattle.wasm_readers_types.specs.declared.types.SubType.{SubType};
ghost use Rattle.wasm_validator_types.specs.WasmValidatorTypeList.ListViews.{Listing};
ghost use Rattle.wasm_validator_types.specs.Spaces.{Spaces};
ghost use Rattle.wasm_validator_core.specs.declared.limits.TheConstants.{MAX_DATA_SEGMENTS};

use crate::section_items::{ItemLimit, SectionItem};
use std::alloc::Allocator;
use wasm_readers::BinaryReader;
use wasm_readers_errors::{Counted, WasmFeatures};
use wasm_validator_core::{Error, MAX_DATA_SEGMENTS};
use wasm_validator_core_resources::{ModuleResources, TypesByIds};
use wasm_validator_segments::{ExpressionMemory, check_data};
use wasm_validator_types::{IndexSpaces, TypeList};

/// Reads and types the data segment that the bytes begin with, in the module as far as it has been
/// read, which it leaves as it is. Its offset may read the immutable globals, without `GC` only
/// imported ones, and is typed in memory that is used again. The reader goes behind it.
///
/// The list must have the types of the module; and `types` are all that it has, with ids in the
/// place of positions in their groups.
///
/// # Errors
///
/// Refused where the bytes don't begin with a valid data segment (Core Specification 3.0,
/// Validation, Modules, Data Segments), and where memory is.
#[tactic(auto, unfolding(crate::specs::Machine::data_step))]
pub fn check_next_data<'a, A: Allocator + Copy>(
    features: WasmFeatures,
    list: &TypeList<A>,
    types: &TypesByIds<A>,
    memory: &mut ExpressionMemory<A>,
    spaces: &IndexSpaces<A>,
    reader: &mut BinaryReader<'a>,
) -> Result<(), Error<A>>
    requires held { AreHeld list.now spaces.now.types }
    requires types { AreByIds list.now.groups types.now }
    ensures ok { IfOk result (λ _. data_step (features_of features)
        (list_declares id_of list.now.groups) spaces.now (rest reader.old)
        ≡ Some (spaces.now, rest reader.new)) }
    ensures err { IfErr result (λ e. Refuses e (data_step (features_of features)
        (list_declares id_of list.now.groups) spaces.now (rest reader.old))) }
    ensures input { SameInput reader.old reader.new }
    ensures onward { position_in reader.old ≤ position_in reader.new }
    ensures place { IfErr result (StandsBehind reader.old) }
{
    let imported_globals = spaces.imported_global_count();
    let resources = ModuleResources::new(spaces, list, types, &[], None);
    check_data(memory, features, &resources, imported_globals, reader)?;
    Ok(())
}

/// Data segments, which add nothing to a module.
#[derive(Drop)]
pub struct DataItems<'s, A: Allocator> {
    pub features: WasmFeatures,
    pub list: &'s TypeList<A>,
    pub types: &'s TypesByIds<A>,
    pub memory: &'s mut ExpressionMemory<A>,
    pub spaces: &'s IndexSpaces<A>,
}

impl<A: Allocator + Copy> SectionItem<A> for DataItems<'_, A> {
    ghost State = { Spaces };

    ghost Kept = { WasmFeatures × Listing A × List (SubType A) × ℕ × Spaces };

    ghost state = { λ a. a.spaces.now };

    ghost kept = { λ a. (a.features, a.list.now, a.types.now, a.memory.ghost_name, a.spaces.now) };

    ghost step = { λ k s bytes. data_step (features_of k.0) (list_declares id_of k.1.groups) s bytes };

    ghost accepts = { λ k s. ⊤ };

    ghost tells = { λ k stop s bytes e. ⊤ };

    ghost ready = { λ a. AreHeld a.list.now a.spaces.now.types × AreByIds a.list.now.groups a.types.now };

    ghost what = { counted.DataSegments };

    ghost there = { λ s. 0 };

    ghost most = { λ k. MAX_DATA_SEGMENTS };

    fn limit(&self) -> ItemLimit {
        ItemLimit {
            what: Counted::DataSegments,
            there: 0,
            most: MAX_DATA_SEGMENTS,
        }
    }

    fn add_next<'a>(&mut self, reader: &mut BinaryReader<'a>) -> Result<(), Error<A>> {
        check_next_data(
            self.features,
            self.list,
            self.types,
            self.memory,
            self.spaces,
            reader,
        )
    }
}
