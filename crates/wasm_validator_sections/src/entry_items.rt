//! The entries of an import section where they may stand for several imports: each is read whole, and
//! then its imports are added.

ghost use Rattle.std.specs.Prelude.{◌≡◌, ℕ, List, length, ⊤, IfErr};
ghost use Rattle.wasm_spec.specs.BinaryModules.{entry_at};
ghost use Rattle.wasm_spec_rules.specs.FeatureFlags.{features_of};
ghost use Rattle.wasm_readers.specs.Entries.{compact_of, IsRead};
ghost use Rattle.wasm_readers.specs.Items.{import_of};
ghost use Rattle.wasm_readers.specs.WrittenIndices.{written};
ghost use Rattle.wasm_readers_bytes.specs.Reader.{place_of_next};
ghost use Rattle.wasm_readers_errors.specs.WasmReadersFeatures.declared.features.WasmFeatures.{WasmFeatures};
ghost use Rattle.wasm_readers_errors.specs.declared.error.Counted.TheVariants as counted;
ghost use Rattle.wasm_validator_type_list.specs.DefTypes.{types_of_list};
ghost use Rattle.wasm_validator_type_list.specs.ListViews.{Listing};
ghost use Rattle.wasm_validator_types.specs.Spaces.{Spaces};
ghost use Rattle.wasm_validator_items.specs.ItemSteps.{tells_read};
ghost use Rattle.wasm_validator_items.specs.Answers.{StandsBehind};
ghost use Rattle.wasm_validator_items.specs.WasmValidatorCore.Answers.{Adds};
ghost use Rattle.wasm_validator_items.specs.WasmValidatorCore.Errors.{IsAt};
ghost use Rattle.wasm_validator_items.specs.WasmValidatorCore.Items.{add_import};
ghost use Rattle.wasm_validator_items.specs.WasmValidatorCore.OpenLists.{AreHeld};
ghost use Rattle.wasm_validator_items.specs.WasmValidatorCore.AddedItemRefusals.{Tells, told_of_import};
ghost use Rattle.wasm_validator_items.specs.WasmValidatorCore.declared.limits.TheConstants.{MAX_IMPORTS};
ghost use Rattle.wasm_validator_sections.specs.Sections.{read_one};
ghost use Rattle.wasm_validator_sections.specs.Machine.{add_entry};
ghost use Rattle.wasm_validator_sections.specs.SectionFaults.{IsNone, OfContent, tells_entry};

use std::alloc::Allocator;
use wasm_readers::imports::read_imports;
use wasm_readers::{BinaryReader, CompactImports, Counted, Import, Imports, WasmFeatures};
use wasm_validator_items::validator_core::{Error, MAX_IMPORTS, Module};
use wasm_validator_items::{ItemLimit, SectionItem};
use wasm_validator_types::TypeList;

/// Entries of an import section.
#[derive(Drop)]
pub(crate) struct EntryItems<'s, A: Allocator> {
    pub features: WasmFeatures,
    pub list: &'s TypeList<A>,
    pub opened: &'s mut Module<A>,
}

impl<A: Allocator + Copy> SectionItem<A> for EntryItems<'_, A> {
    ghost State = { Spaces };

    ghost Kept = { WasmFeatures × Listing A × ℕ × List ℕ };

    ghost state = { λ a. a.opened.now };

    ghost kept = { λ a. (a.features, a.list.now, a.opened.ghost_name, a.opened.now.types) };

    ghost step = { λ k s bytes. read_one (entry_at written) (add_entry (features_of k.0)
        (types_of_list k.1)) s bytes };

    ghost accepts = { λ k s. ⊤ };

    ghost tells = { λ k stop s bytes e. tells_read (entry_at written) (add_entry
        (features_of k.0) (types_of_list k.1)) IsNone (tells_entry k.0 (types_of_list k.1)) stop s
        bytes e };

    ghost ready = { λ a. AreHeld a.list.now a.opened.now.types };

    ghost what = { counted.Imports };

    ghost there = { λ s. length s.imports };

    ghost most = { λ k. MAX_IMPORTS };

    fn limit(&self) -> ItemLimit {
        ItemLimit {
            what: Counted::Imports,
            there: self.opened.spaces().import_count(),
            most: MAX_IMPORTS,
        }
    }

    fn add_next<'a>(&mut self, reader: &mut BinaryReader<'a>) -> Result<(), Error<A>> {
        let offset = reader.original_position();
        match read_imports(reader)? {
            Imports::Single(import) => self.add_one(&import, offset),
            Imports::Compact(imports) => self.add_several(imports),
        }
    }
}

impl<A: Allocator + Copy> EntryItems<'_, A> {
    /// Adds an import that stands at this offset.
    fn add_one(&mut self, import: &Import<'_>, offset: u64) -> Result<(), Error<A>>
        requires { AreHeld self.old.list.now self.old.opened.now.types }
        ensures added { Adds result (add_import (features_of self.old.features)
            (types_of_list self.old.list.now) self.old.opened.now (import_of import.now))
            self.new.opened.now }
        ensures list { self.new.list ≡ self.old.list }
        ensures features { self.new.features ≡ self.old.features }
        ensures module { self.new.opened.ghost_name ≡ self.old.opened.ghost_name }
        ensures types { self.new.opened.now.types ≡ self.old.opened.now.types }
        ensures place { IfErr result (IsAt offset) }
        ensures told { Tells result (told_of_import self.old.features offset
            (types_of_list self.old.list.now) self.old.opened.now (import_of import.now)) }
    {
        self.opened
            .add_import(self.features, self.list, import, offset)
    }

    /// Adds the imports of an entry, which have been read before.
    fn add_several(&mut self, imports: CompactImports<'_>) -> Result<(), Error<A>>
        requires held { AreHeld self.old.list.now self.old.opened.now.types }
        requires read { IsRead imports }
        ensures added { Adds result (add_entry (features_of self.old.features)
            (types_of_list self.old.list.now) self.old.opened.now (compact_of imports.entry))
            self.new.opened.now }
        ensures list { self.new.list ≡ self.old.list }
        ensures features { self.new.features ≡ self.old.features }
        ensures module { self.new.opened.ghost_name ≡ self.old.opened.ghost_name }
        ensures types { self.new.opened.now.types ≡ self.old.opened.now.types }
        ensures place { IfErr result (StandsBehind imports.entry.reader) }
        ensures told { IfErr result (OfContent (tells_entry self.old.features
            (types_of_list self.old.list.now) (place_of_next imports.entry.reader)
            self.old.opened.now (compact_of imports.entry))) }
    {
        'imports: for import in imports {
            let (offset, import) = import?;
            self.add_one(&import, offset)?;
        }
        Ok(())
    }
}
