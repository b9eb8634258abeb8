//! The imports of a module, in the order of its import section: `TypesRef::core_imports` has those
//! with the same names together, so it tells neither the place of one nor its index.

ghost use Rattle.std.specs.Prelude.{◌≡◌};
ghost use Rattle.wasm_check_reports.specs.Counts.{imported_in, imported_with_one, one_more};

use crate::items::{Item, Kind, Space, write_item};
use crate::settings::Form;
use std::alloc::{AllocError, Global};
use wasm_validate_files::validator::{
    CompactImports, EntityType, Import, Imports, Parser, Payload, SectionLimited, TypeRef, TypesRef,
};
use wasm_validate_files::{Input, bytes_of};

/// How many imports of each index space came so far. The elements have none.
#[derive(Clone, Copy, Default)]
pub struct Imported {
    functions: u32,
    tables: u32,
    memories: u32,
    globals: u32,
    tags: u32,
}

/// Writes the imports of a module, each with its place among all imports and its index in its own index
/// space. An entry of the section may stand for several.
pub fn write_imports(
    text: &mut String,
    alloc: Global,
    file: &Input,
    shown: &TypesRef<'_, Global>,
    form: Form,
) -> Result<(), AllocError> {
    'payloads: for payload in Parser::new(alloc, 0).parse_all(bytes_of(file)) {
        match payload {
            Ok(Payload::ImportSection(section)) => {
                return write_section(text, alloc, file.name.as_str(), shown, form, &section);
            }
            Ok(_) => {}
            // they were accepted, so none is refused
            Err(_) => break,
        }
    }
    Ok(())
}

fn write_section<'a>(
    text: &mut String,
    alloc: Global,
    file: &str,
    shown: &TypesRef<'_, Global>,
    form: Form,
    section: &SectionLimited<'a, Import<'a>, Global>,
) -> Result<(), AllocError> {
    let mut list = Listed {
        text,
        alloc,
        file,
        shown,
        form,
        before: Imported::default(),
        place: 0,
    };
    'entries: for entry in section.entries().items() {
        match entry {
            Ok((_, entry)) => list.write_entry(&entry)?,
            Err(error) if error.is_out_of_memory() => return Err(AllocError),
            // they were accepted, so none is refused
            Err(_) => break,
        }
    }
    Ok(())
}

/// Imports that are written one after another.
#[derive(Drop)]
struct Listed<'t, 's> {
    text: &'t mut String,
    alloc: Global,
    file: &'t str,
    shown: &'t TypesRef<'s, Global>,
    form: Form,
    before: Imported,
    place: u32,
}

impl Listed<'_, '_> {
    /// Writes the imports that an entry stands for.
    fn write_entry(&mut self, entry: &Imports<'_>) -> Result<(), AllocError> {
        match entry {
            Imports::Single(import) => self.write(import),
            Imports::Compact(imports) => self.write_several(*imports),
        }
    }

    /// Writes imports one after another.
    fn write_several(&mut self, imports: CompactImports<'_>) -> Result<(), AllocError> {
        'imports: for import in imports {
            match import {
                Ok((_, import)) => self.write(&import)?,
                // they have been read before, so none is refused
                Err(_) => break,
            }
        }
        Ok(())
    }

    /// Writes an import, with its place among all and its index in its own index space.
    fn write(&mut self, import: &Import<'_>) -> Result<(), AllocError> {
        let space = space_of(&import.ty);
        let index = self.before.count(space);
        let ty = type_text(self.alloc, self.shown, import, index)?;
        let item = Item {
            kind: Kind::Import(space, index),
            index: self.place,
            id: None,
            module: import.module,
            name: import.name,
            ty: ty.as_str(),
        };
        write_item(self.text, self.alloc, self.file, &item, self.form)?;
        self.place = self.place.saturating_add(1);
        Ok(())
    }
}

/// The index space that an import of this kind has an index of.
fn space_of(ty: &TypeRef) -> Space {
    match ty {
        TypeRef::Func(_) | TypeRef::FuncExact(_) => Space::Functions,
        TypeRef::Table(_) => Space::Tables,
        TypeRef::Memory(_) => Space::Memories,
        TypeRef::Global(_) => Space::Globals,
        TypeRef::Tag(_) => Space::Tags,
    }
}

/// The type of an import, which has this index in its index space. The types of tables and globals are
/// taken from there, where they name types by their ids.
fn type_text(
    alloc: Global,
    shown: &TypesRef<'_, Global>,
    import: &Import<'_>,
    index: u32,
) -> Result<String, AllocError> {
    let entity = match import.ty {
        TypeRef::Table(_) if index < shown.table_count() => {
            Some(EntityType::Table(shown.table_at(index)))
        }
        TypeRef::Global(_) if index < shown.global_count() => {
            Some(EntityType::Global(shown.global_at(index)))
        }
        _ => shown.entity_type_from_import(import),
    };
    match entity {
        Some(entity) => format!(in alloc; "{entity}"),
        None => Ok(String::new(alloc)),
    }
}

impl Imported {
    /// Counts an import of this index space, and answers its index there.
    pub fn count(&mut self, space: Space) -> u32
        ensures index { result ≡ imported_in self.old space }
        ensures counted { imported_in self.new space ≡ imported_with_one self.old space }
    {
        match space {
            Space::Functions => take_next(&mut self.functions),
            Space::Tables => take_next(&mut self.tables),
            Space::Memories => take_next(&mut self.memories),
            Space::Globals => take_next(&mut self.globals),
            Space::Tags => take_next(&mut self.tags),
            // no import is of these
            Space::Types | Space::Elements => 0,
        }
    }
}

/// Counts one more, and answers how many there were.
fn take_next(count: &mut u32) -> u32
    ensures taken { result ≡ count.old }
    ensures counted { count.new ≡ one_more count.old }
{
    let index = *count;
    *count = index.saturating_add(1);
    index
}
