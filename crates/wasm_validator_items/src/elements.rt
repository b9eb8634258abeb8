//! The element segments of an element section.

ghost use Rattle.std.specs.Prelude.{◌≡◌, ◌≤◌, ◌+◌, ◌<◌, ◌^◌, ℕ, List, Bool, length, ⊤, IfOk, OnOk, IfErr};
ghost use Rattle.std.specs.declared.option.Option.TheVariants.{Some};
ghost use Rattle.wasm_spec_rules.specs.FeatureFlags.{features_of};
ghost use Rattle.wasm_readers.specs.WasmReadersBytes.Reader.{SameInput, position_in, rest};
ghost use Rattle.wasm_readers_types.specs.WasmReadersValues.SeenValues.{val_of};
ghost use Rattle.wasm_validator_core.specs.Answers.{Adds};
ghost use Rattle.wasm_validator_core.specs.Errors.{IsMemory};
ghost use Rattle.wasm_validator_core.specs.OpenLists.{AreHeld};
ghost use Rattle.wasm_validator_core_resources.specs.IndexContexts.{id_of};
ghost use Rattle.wasm_validator_core_resources.specs.ListContexts.{list_declares};
ghost use Rattle.wasm_validator_core_resources.specs.ModuleContexts.{AreByIds};
ghost use Rattle.wasm_validator_segments.specs.Elements.{typed_element_at};
ghost use Rattle.wasm_validator_segments.specs.WasmValidatorReferences.References.{marked, names_of_element};
ghost use Rattle.wasm_validator_core.specs.declared.limits.TheConstants.{MAX_ELEMENT_SEGMENTS};
ghost use Rattle.wasm_validator_items.specs.Answers.{Refuses, StandsBehind};
ghost use Rattle.wasm_validator_items.specs.Machine.{context_of, with_items, element_step};
ghost use Rattle.wasm_readers_errors.specs.WasmReadersFeatures.declared.features.WasmFeatures.{WasmFeatures};
ghost use Rattle.wasm_readers_errors.specs.declared.error.Counted.TheVariants as counted;
ghost use Rattle.wasm_readers_types.specs.declared.types.SubType.{SubType};
ghost use Rattle.wasm_validator_types.specs.WasmValidatorTypeList.ListViews.{Listing};
ghost use Rattle.wasm_validator_types.specs.Spaces.{Spaces};
ghost use Rattle.wasm_validator_items.specs.ItemSteps.{naming_step};

use crate::section_items::{ItemLimit, SectionItem};
use std::alloc::Allocator;
use wasm_readers::BinaryReader;
use wasm_readers_errors::{Counted, WasmFeatures};
use wasm_readers_types::ValType;
use wasm_validator_core::{Error, MAX_ELEMENT_SEGMENTS, Module};
use wasm_validator_core_resources::{ModuleResources, TypesByIds};
use wasm_validator_segments::references::ReferencedFunctions;
use wasm_validator_segments::{ExpressionMemory, check_element};
use wasm_validator_types::TypeList;

/// Reads and types an element segment in the module as far as it has been read, notes the functions
/// that it names, and gives the type of its items.
fn check_segment<'a, A: Allocator + Copy>(
    features: WasmFeatures,
    list: &TypeList<A>,
    types: &TypesByIds<A>,
    memory: &mut ExpressionMemory<A>,
    opened: &Module<A>,
    referenced: &mut ReferencedFunctions<A>,
    reader: &mut BinaryReader<'a>,
) -> Result<ValType, Error<A>>
    requires held { AreHeld list.now opened.now.types }
    requires types { AreByIds list.now.groups types.now }
    ensures ok { IfOk result (λ x. typed_element_at (context_of
        (list_declares id_of list.now.groups) opened.now) (features_of features)
        opened.now.imported_globals (rest reader.old) ≡ Some (val_of x, rest reader.new)) }
    ensures err { IfErr result (λ e. Refuses e (typed_element_at (context_of
        (list_declares id_of list.now.groups) opened.now) (features_of features)
        opened.now.imported_globals (rest reader.old))) }
    ensures noted { OnOk result (referenced.new
        ≡ marked (names_of_element (rest reader.old)) referenced.old) }
    ensures input { SameInput reader.old reader.new }
    ensures onward { position_in reader.old ≤ position_in reader.new }
    ensures place { IfErr result (StandsBehind reader.old) }
{
    let spaces = opened.spaces();
    let imported_globals = spaces.imported_global_count();
    let resources = ModuleResources::new(spaces, list, types, &[], None);
    let segment = check_element(
        memory,
        features,
        &resources,
        imported_globals,
        referenced,
        reader,
    )?;
    Ok(segment)
}

/// Adds an element segment whose items are of this type, as the list of types has it.
fn add_segment<A: Allocator + Copy>(opened: &mut Module<A>, ty: ValType) -> Result<(), Error<A>>
    requires room { length opened.old.elements + 1 < 2 ^ 32 }
    ensures added { Adds result (Some (with_items opened.old (val_of ty))) opened.new }
    ensures types { opened.new.types ≡ opened.old.types }
    ensures count { OnOk result (length opened.new.elements ≤ length opened.old.elements + 1) }
    ensures memory { IfErr result IsMemory }
{
    match ty {
        ValType::Ref(reference) => opened.add_element(reference),
        _ => Ok(()),
    }
}

/// Reads the element segment that the bytes begin with, in the module as far as it has been read,
/// adds it, and notes the functions that it names. Its expressions may read the immutable globals,
/// without `GC` only imported ones, and are typed in memory that is used again. The reader goes behind it.
///
/// The list must have the types of the module; and `types` are all that it has, with ids in the
/// place of positions in their groups. The number of element segments must fit 32 bits then.
///
/// # Errors
///
/// Refused where the bytes don't begin with a valid element segment (Core Specification 3.0,
/// Validation, Modules, Element Segments), and where memory is. The module is then only to be
/// dropped.
#[tactic(auto, unfolding(crate::specs::Machine::element_step))]
pub fn add_next_element<'a, A: Allocator + Copy>(
    features: WasmFeatures,
    list: &TypeList<A>,
    types: &TypesByIds<A>,
    memory: &mut ExpressionMemory<A>,
    opened: &mut Module<A>,
    referenced: &mut ReferencedFunctions<A>,
    reader: &mut BinaryReader<'a>,
) -> Result<(), Error<A>>
    requires held { AreHeld list.now opened.old.types }
    requires types { AreByIds list.now.groups types.now }
    requires room { length opened.old.elements + 1 < 2 ^ 32 }
    ensures ok { IfOk result (λ _. element_step (features_of features)
        (list_declares id_of list.now.groups) opened.old (rest reader.old)
        ≡ Some (opened.new, rest reader.new)) }
    ensures err { IfErr result (λ e. Refuses e (element_step (features_of features)
        (list_declares id_of list.now.groups) opened.old (rest reader.old))) }
    ensures types { opened.new.types ≡ opened.old.types }
    ensures count { OnOk result (length opened.new.elements ≤ length opened.old.elements + 1) }
    ensures noted { OnOk result (referenced.new
        ≡ marked (names_of_element (rest reader.old)) referenced.old) }
    ensures input { SameInput reader.old reader.new }
    ensures onward { position_in reader.old ≤ position_in reader.new }
    ensures place { IfErr result (StandsBehind reader.old) }
{
    let ty = check_segment(features, list, types, memory, opened, referenced, reader)?;
    add_segment(opened, ty)?;
    Ok(())
}

/// Element segments.
#[derive(Drop)]
pub struct ElementItems<'s, A: Allocator> {
    pub features: WasmFeatures,
    pub list: &'s TypeList<A>,
    pub types: &'s TypesByIds<A>,
    pub memory: &'s mut ExpressionMemory<A>,
    pub opened: &'s mut Module<A>,
    pub referenced: &'s mut ReferencedFunctions<A>,
}

impl<A: Allocator + Copy> SectionItem<A> for ElementItems<'_, A> {
    ghost State = { Spaces × List Bool };

    ghost Kept = { WasmFeatures × Listing A × List (SubType A) × ℕ × ℕ × ℕ × List ℕ };

    ghost state = { λ a. (a.opened.now, a.referenced.now) };

    ghost kept = { λ a. (
      a.features,
      a.list.now,
      a.types.now,
      a.memory.ghost_name,
      a.opened.ghost_name,
      a.referenced.ghost_name,
      a.opened.now.types,
    ) };

    ghost step = { λ k p bytes. naming_step (element_step (features_of k.0) (list_declares id_of k.1.groups))
        names_of_element p bytes };

    ghost accepts = { λ k s. ⊤ };

    ghost tells = { λ k stop s bytes e. ⊤ };

    ghost ready = { λ a. AreHeld a.list.now a.opened.now.types × AreByIds a.list.now.groups a.types.now };

    ghost room = { λ a n. length a.opened.now.elements + n ≤ MAX_ELEMENT_SEGMENTS };

    ghost what = { counted.ElementSegments };

    ghost there = { λ p. length p.0.elements };

    ghost most = { λ k. MAX_ELEMENT_SEGMENTS };

    fn limit(&self) -> ItemLimit {
        ItemLimit {
            what: Counted::ElementSegments,
            there: self.opened.spaces().element_count() as usize,
            most: MAX_ELEMENT_SEGMENTS,
        }
    }

    fn add_next<'a>(&mut self, reader: &mut BinaryReader<'a>) -> Result<(), Error<A>> {
        add_next_element(
            self.features,
            self.list,
            self.types,
            self.memory,
            self.opened,
            self.referenced,
            reader,
        )
    }
}
