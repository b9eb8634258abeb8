//! The items of a module: its types with their ids, its imports and exports, and its index spaces.

ghost use Rattle.std.specs.Prelude.{◌≡◌, ◌<◌};
ghost use Rattle.wasm_validate_files.specs.WasmValidatorTypes.ShownModules.{shown_by};
ghost use Rattle.wasm_check_reports.specs.Counts.{count_in};
ghost use Rattle.wasm_check_reports.specs.ItemWords.{word_of, plural, singular};

use crate::imports::write_imports;
use crate::settings::Form;
use crate::{json, lines};
use std::alloc::{AllocError, Global};
use wasm_validate_files::Input;
use wasm_validate_files::validator::{CoreTypeId, EntityType, TypesRef};

/// An index space of a module (Core Specification 3.0, Structure, Modules, Indices).
#[derive(Clone, Copy)]
pub enum Space {
    Types,
    Functions,
    Tables,
    Memories,
    Globals,
    Tags,
    Elements,
}

/// The index spaces, in the order in which they are printed.
pub const SPACES: [Space; 7] = [
    Space::Types,
    Space::Functions,
    Space::Tables,
    Space::Memories,
    Space::Globals,
    Space::Tags,
    Space::Elements,
];

/// What an item of a module is.
#[derive(Clone, Copy)]
pub enum Kind {
    /// What has an index of this index space.
    Of(Space),
    /// What is imported, with its index space and its index there.
    Import(Space, u32),
    Export,
}

/// An item as it is printed.
#[derive(Clone, Copy)]
pub struct Item<'a> {
    /// What it is.
    pub kind: Kind,
    /// Its index in its index space, or its place among the imports or exports.
    pub index: u32,
    /// The id of its type, if that has one.
    pub id: Option<u64>,
    /// The module that an import is from.
    pub module: &'a str,
    /// The name of an import or an export.
    pub name: &'a str,
    /// Its type, as text.
    pub ty: &'a str,
}

/// What an item of this kind is called.
pub fn word_of<'a>(kind: Kind) -> &'a str
    ensures { result.now ≡ word_of kind }
{
    match kind {
        Kind::Of(space) => singular(space),
        Kind::Import(_, _) => "import",
        Kind::Export => "export",
    }
}

/// What several of an index space are called.
pub fn plural<'a>(space: Space) -> &'a str
    ensures { result.now ≡ plural space }
{
    match space {
        Space::Types => "types",
        Space::Functions => "functions",
        Space::Tables => "tables",
        Space::Memories => "memories",
        Space::Globals => "globals",
        Space::Tags => "tags",
        Space::Elements => "elements",
    }
}

/// What one of an index space is called.
pub fn singular<'a>(space: Space) -> &'a str
    ensures { result.now ≡ singular space }
{
    match space {
        Space::Types => "type",
        Space::Functions => "function",
        Space::Tables => "table",
        Space::Memories => "memory",
        Space::Globals => "global",
        Space::Tags => "tag",
        Space::Elements => "element",
    }
}

/// How many there are in an index space.
pub fn count_in(shown: &TypesRef<'_, Global>, space: Space) -> u32
    ensures { result ≡ count_in (shown_by shown.now).spaces space }
{
    match space {
        Space::Types => shown.core_type_count_in_module(),
        Space::Functions => shown.function_count(),
        Space::Tables => shown.table_count(),
        Space::Memories => shown.memory_count(),
        Space::Globals => shown.global_count(),
        Space::Tags => shown.tag_count(),
        Space::Elements => shown.element_count(),
    }
}

/// Writes the items of a module.
pub fn write_items(
    text: &mut String,
    alloc: Global,
    file: &Input,
    shown: &TypesRef<'_, Global>,
    form: Form,
) -> Result<(), AllocError> {
    let name = file.name.as_str();
    'spaces: for space in SPACES {
        write_space(text, alloc, name, shown, form, space)?;
    }
    write_imports(text, alloc, file, shown, form)?;
    write_exports(text, alloc, name, shown, form)
}

fn write_space(
    text: &mut String,
    alloc: Global,
    file: &str,
    shown: &TypesRef<'_, Global>,
    form: Form,
    space: Space,
) -> Result<(), AllocError> {
    'indices: for index in 0..count_in(shown, space) {
        let mut ty = String::new(alloc);
        let id = write_type(&mut ty, shown, space, index)?;
        let item = Item {
            kind: Kind::Of(space),
            index,
            id,
            module: "",
            name: "",
            ty: ty.as_str(),
        };
        write_item(text, alloc, file, &item, form)?;
    }
    Ok(())
}

/// Writes the type of what has this index, and gives the type's id, if it has one.
fn write_type(
    text: &mut String,
    shown: &TypesRef<'_, Global>,
    space: Space,
    index: u32,
) -> Result<Option<u64>, AllocError>
    requires { index < count_in (shown_by shown.now).spaces space }
{
    match space {
        Space::Types => write_listed(text, shown, shown.core_type_at_in_module(index)),
        Space::Functions => {
            let id = shown.core_function_at(index);
            write_by_id(text, EntityType::Func(id), id)
        }
        Space::Tables => write_plain(text, shown.table_at(index)),
        Space::Memories => write_plain(text, shown.memory_at(index)),
        Space::Globals => write_plain(text, shown.global_at(index)),
        Space::Tags => {
            let id = shown.tag_at(index);
            write_by_id(text, EntityType::Tag(id), id)
        }
        Space::Elements => write_plain(text, shown.element_at(index)),
    }
}

fn write_plain<D: std::fmt::Display + Drop>(
    text: &mut String,
    ty: D,
) -> Result<Option<u64>, AllocError> {
    write!(text, "{ty}")?;
    Ok(None)
}

fn write_listed(
    text: &mut String,
    shown: &TypesRef<'_, Global>,
    id: CoreTypeId,
) -> Result<Option<u64>, AllocError> {
    if let Some(ty) = shown.get(id) {
        write!(text, "{ty}")?;
    }
    Ok(Some(id.index() as u64))
}

/// Writes a function or a tag by the id of its type, which has a line of its own: so that what is written
/// isn't as long as all functions together have parameters.
fn write_by_id(
    text: &mut String,
    entity: EntityType,
    id: CoreTypeId,
) -> Result<Option<u64>, AllocError> {
    write!(text, "{entity}")?;
    Ok(Some(id.index() as u64))
}

fn write_exports(
    text: &mut String,
    alloc: Global,
    file: &str,
    shown: &TypesRef<'_, Global>,
    form: Form,
) -> Result<(), AllocError> {
    let Some(exports) = shown.core_exports() else {
        return Ok(());
    };
    let mut index = 0u32;
    'exports: for (name, entity) in exports {
        let ty = format!(in alloc; "{entity}")?;
        let item = Item {
            kind: Kind::Export,
            index,
            id: None,
            module: "",
            name,
            ty: ty.as_str(),
        };
        write_item(text, alloc, file, &item, form)?;
        index = index.saturating_add(1);
    }
    Ok(())
}

/// Writes an item in the form that is asked for.
pub fn write_item(
    text: &mut String,
    alloc: Global,
    file: &str,
    item: &Item<'_>,
    form: Form,
) -> Result<(), AllocError> {
    match form {
        Form::Json => json::write_item(text, alloc, file, item),
        Form::Text => lines::write_item(text, file, item),
        Form::Quiet => Ok(()),
    }
}
