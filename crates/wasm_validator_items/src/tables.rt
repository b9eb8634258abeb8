//! The tables of a table section, with what their entries begin with.

ghost use Rattle.std.specs.Prelude.{◌≡◌, ◌≤◌, ℕ, List, Bool, length, ⊤, IfOk, OnOk, IfErr};
ghost use Rattle.std.specs.declared.option.Option.TheVariants.{Some};
ghost use Rattle.wasm_spec_rules.specs.FeatureFlags.{features_of};
ghost use Rattle.wasm_readers.specs.WasmReadersBytes.Reader.{SameInput, position_in, rest};
ghost use Rattle.wasm_readers_types.specs.SeenExterns.{table_of};
ghost use Rattle.wasm_validator_types.specs.WasmValidatorTypeList.DefTypes.{types_of_list};
ghost use Rattle.wasm_validator_core.specs.OpenLists.{AreHeld};
ghost use Rattle.wasm_validator_core_resources.specs.IndexContexts.{id_of};
ghost use Rattle.wasm_validator_core_resources.specs.ListContexts.{list_declares};
ghost use Rattle.wasm_validator_core_resources.specs.ModuleContexts.{AreByIds};
ghost use Rattle.wasm_validator_segments.specs.WasmValidatorReferences.References.{marked, names_of_table};
ghost use Rattle.wasm_validator_items.specs.Answers.{Refuses, StandsBehind};
ghost use Rattle.wasm_validator_items.specs.Entries.{names_of_init};
ghost use Rattle.wasm_validator_items.specs.Machine.{behind_init, table_step};
ghost use Rattle.wasm_readers_errors.specs.WasmReadersFeatures.declared.features.WasmFeatures.{WasmFeatures};
ghost use Rattle.wasm_readers_errors.specs.declared.error.Counted.TheVariants as counted;
ghost use Rattle.wasm_readers_types.specs.declared.types.SubType.{SubType};
ghost use Rattle.wasm_validator_types.specs.WasmValidatorTypeList.ListViews.{Listing};
ghost use Rattle.wasm_validator_types.specs.Spaces.{Spaces};
ghost use Rattle.wasm_spec_rules.specs.Limits.{most_tables};
ghost use Rattle.wasm_validator_items.specs.ItemSteps.{naming_step};

use crate::initializers::check_initializer;
use crate::section_items::{ItemLimit, SectionItem};
use std::alloc::Allocator;
use wasm_readers::BinaryReader;
use wasm_readers::externs::read_table_head;
use wasm_readers_errors::{Counted, WasmFeatures};
use wasm_readers_types::{TableType, ValType};
use wasm_validator_core::{Error, Module};
use wasm_validator_core_resources::TypesByIds;
use wasm_validator_segments::ExpressionMemory;
use wasm_validator_segments::references::ReferencedFunctions;
use wasm_validator_types::TypeList;

/// Reads and types what the entries of a table of this type begin with, if that is written, and notes
/// the functions that it names.
fn check_init<'a, A: Allocator + Copy>(
    features: WasmFeatures,
    list: &TypeList<A>,
    types: &TypesByIds<A>,
    memory: &mut ExpressionMemory<A>,
    opened: &Module<A>,
    ty: TableType,
    has_init: bool,
    referenced: &mut ReferencedFunctions<A>,
    reader: &mut BinaryReader<'a>,
) -> Result<(), Error<A>>
    requires held { AreHeld list.now opened.now.types }
    requires types { AreByIds list.now.groups types.now }
    ensures ok { IfOk result (λ _. behind_init (features_of features)
        (list_declares id_of list.now.groups) opened.now (table_of ty) has_init (rest reader.old)
        ≡ Some (rest reader.new)) }
    ensures err { IfErr result (λ e. Refuses e (behind_init (features_of features)
        (list_declares id_of list.now.groups) opened.now (table_of ty) has_init
        (rest reader.old))) }
    ensures noted { OnOk result (referenced.new
        ≡ marked (names_of_init has_init (rest reader.old)) referenced.old) }
    ensures input { SameInput reader.old reader.new }
    ensures onward { position_in reader.old ≤ position_in reader.new }
    ensures place { IfErr result (StandsBehind reader.old) }
{
    if !has_init {
        return Ok(());
    }
    let element = ValType::Ref(ty.element_type);
    check_initializer(
        features, list, types, memory, opened, element, referenced, reader,
    )
}

/// Reads the table that the bytes begin with, in the module as far as it has been read, adds it, and
/// notes the functions that it names. Its initializer, where it has one, may read the imported globals, and is typed in memory
/// that is used again. The reader goes behind it.
///
/// The list must have the types of the module; and `types` are all that it has, with ids in the
/// place of positions in their groups.
///
/// # Errors
///
/// Refused where the bytes don't begin with a table of a type that keeps every rule, with a
/// constant expression of its entries' type where one is written, where there would be too many
/// tables (Core Specification 3.0, Validation, Modules, Tables), and where memory is. The module is
/// then only to be dropped.
#[tactic(auto, unfolding(crate::specs::Machine::table_step))]
pub fn add_next_table<'a, A: Allocator + Copy>(
    features: WasmFeatures,
    list: &TypeList<A>,
    types: &TypesByIds<A>,
    memory: &mut ExpressionMemory<A>,
    opened: &mut Module<A>,
    referenced: &mut ReferencedFunctions<A>,
    reader: &mut BinaryReader<'a>,
) -> Result<(), Error<A>>
    requires held { AreHeld list.now opened.old.types }
    requires types { AreByIds list.now.groups types.now }
    ensures ok { IfOk result (λ _. table_step (features_of features)
        (list_declares id_of list.now.groups) (types_of_list list.now) opened.old (rest reader.old)
        ≡ Some (opened.new, rest reader.new)) }
    ensures err { IfErr result (λ e. Refuses e (table_step (features_of features)
        (list_declares id_of list.now.groups) (types_of_list list.now) opened.old
        (rest reader.old))) }
    ensures types { opened.new.types ≡ opened.old.types }
    ensures noted { OnOk result (referenced.new
        ≡ marked (names_of_table (rest reader.old)) referenced.old) }
    ensures input { SameInput reader.old reader.new }
    ensures onward { position_in reader.old ≤ position_in reader.new }
    ensures place { IfErr result (StandsBehind reader.old) }
{
    let offset = reader.original_position();
    let head = read_table_head(reader)?;
    let has_init = head.has_init;
    let ty = opened.check_table(features, list, head.ty, has_init, offset)?;
    check_init(
        features, list, types, memory, opened, ty, has_init, referenced, reader,
    )?;
    opened.add_listed_table(features, ty, offset)?;
    Ok(())
}

/// Tables, with what their entries begin with.
#[derive(Drop)]
pub struct TableItems<'s, A: Allocator> {
    pub features: WasmFeatures,
    pub list: &'s TypeList<A>,
    pub types: &'s TypesByIds<A>,
    pub memory: &'s mut ExpressionMemory<A>,
    pub opened: &'s mut Module<A>,
    pub referenced: &'s mut ReferencedFunctions<A>,
}

impl<A: Allocator + Copy> SectionItem<A> for TableItems<'_, A> {
    ghost State = { Spaces × List Bool };

    ghost Kept = { WasmFeatures × Listing A × List (SubType A) × ℕ × ℕ × ℕ × List ℕ };

    ghost state = { λ a. (a.opened.now, a.referenced.now) };

    ghost kept = { λ a. (
      a.features,
      a.list.now,
      a.types.now,
      a.memory.ghost_name,
      a.opened.ghost_name,
      a.referenced.ghost_name,
      a.opened.now.types,
    ) };

    ghost step = { λ k p bytes. naming_step (table_step (features_of k.0) (list_declares id_of k.1.groups)
        (types_of_list k.1)) names_of_table p bytes };

    ghost accepts = { λ k s. ⊤ };

    ghost tells = { λ k stop s bytes e. ⊤ };

    ghost ready = { λ a. AreHeld a.list.now a.opened.now.types × AreByIds a.list.now.groups a.types.now };

    ghost what = { counted.Tables };

    ghost there = { λ p. length p.0.tables };

    ghost most = { λ k. most_tables (features_of k.0) };

    fn limit(&self) -> ItemLimit {
        ItemLimit {
            what: Counted::Tables,
            there: self.opened.spaces().table_count() as usize,
            most: self.opened.max_tables(self.features),
        }
    }

    fn add_next<'a>(&mut self, reader: &mut BinaryReader<'a>) -> Result<(), Error<A>> {
        add_next_table(
            self.features,
            self.list,
            self.types,
            self.memory,
            self.opened,
            self.referenced,
            reader,
        )
    }
}
