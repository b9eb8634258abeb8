//! The index spaces of a module, as far as it has been read. The validator fills them; a user reads
//! them through `Types` and `TypesRef`.

ghost use Rattle.std.specs.Prelude.{◌≡◌, ◌+◌, ◌<◌, ◌^◌, ◌++◌, ◌∷◌, [], ℕ, length, false, slice_index, slice_get, map, OnOk, OnErr};
ghost use Rattle.std.specs.List.{All};
ghost use Rattle.std.specs.declared.option.Option.TheVariants.{Some};
ghost use Rattle.wasm_readers.specs.WasmReadersTypes.SeenExterns.{table_of, memory_of, global_of};
ghost use Rattle.wasm_readers.specs.WasmReadersTypes.WasmReadersValues.SeenValues.{ref_of};
ghost use Rattle.wasm_validator_types.specs.Entities.{entity_of, IsAmong};
ghost use Rattle.wasm_validator_types.specs.Spaces.{no_spaces, importing_global, with_import, is_exported, is_exact};
ghost use Rattle.indexmap.specs.IndexMap.{index_map_len, hasher_of};
ghost use Rattle.wasm_validator_types.specs.IteratorItems.{imports_left, exports_left};
ghost use Rattle.wasm_validator_types.specs.Rows.{all_imports};
ghost use Rattle.wasm_validator_types.specs.SpacesSeen.{numbers, PutsAt, AddsToPair};

use crate::imports_exports::{CoreExports, CoreImports};
use crate::name_keys::NameKey;
use indexmap::IndexMap;
use std::alloc::{AllocError, Allocator, Global};
use std::marker::Model;
use wasm_readers::readers_types::{
    CoreTypeId, EntityType, GlobalType, Items, MemoryType, RefType, TableType,
};

/// What is imported under each pair of names.
pub(crate) type ImportMap<A> = IndexMap<(String<A>, String<A>), Items<EntityType, A>, NameKey, A>;

/// What is exported under each name.
pub(crate) type ExportMap<A> = IndexMap<String<A>, EntityType, NameKey, A>;

/// Has imports found by this key, where there are none.
fn key_imports<A: Allocator + Copy>(imports: &mut ImportMap<A>, alloc: A, key: NameKey)
    ensures same { imports.new.entries ≡ imports.old.entries }
    ensures keyed { index_map_len imports.old ≡ 0 → hasher_of imports.new ≡ key }
{
    if imports.is_empty() {
        *imports = IndexMap::with_hasher(alloc, key);
    }
}

/// Has exports found by this key, where there are none.
fn key_exports<A: Allocator + Copy>(exports: &mut ExportMap<A>, alloc: A, key: NameKey)
    ensures same { exports.new.entries ≡ exports.old.entries }
    ensures keyed { index_map_len exports.old ≡ 0 → hasher_of exports.new ≡ key }
{
    if exports.is_empty() {
        *exports = IndexMap::with_hasher(alloc, key);
    }
}

/// The index spaces of a module, as far as it has been read. A contract sees them as lists.
pub struct IndexSpaces<A: Allocator = Global> {
    types: Vec<CoreTypeId, A>,
    functions: Vec<u32, A>,
    imported_functions: Vec<bool, A>,
    tables: Vec<TableType, A>,
    memories: Vec<MemoryType, A>,
    globals: Vec<GlobalType, A>,
    imported_globals: u32,
    tags: Vec<u32, A>,
    elements: Vec<RefType, A>,
    imports: ImportMap<A>,
    exports: ExportMap<A>,
    size: u32,
    alloc: A,
}

impl<A: Allocator> Drop for IndexSpaces<A> {
    fn drop(self) {
        let IndexSpaces {
            types: _,
            functions: _,
            imported_functions: _,
            tables: _,
            memories: _,
            globals: _,
            imported_globals: _,
            tags: _,
            elements: _,
            imports: _,
            exports: _,
            size: _,
            alloc: _,
        } = self;
    }
}

impl<A: Allocator> Model for IndexSpaces<A> {
    ghost use Rattle.wasm_validator_types.specs.Spaces.{Spaces};

    ghost Value = { Spaces };

    ghost use Rattle.wasm_validator_types.specs.SpacesSeen.{shown_spaces, IsSound};

    ghost view = { shown_spaces };

    ghost invariant = { IsSound };
}

impl<A: Allocator + Copy> IndexSpaces<A> {
    /// The index spaces of a module of which nothing has been read. They take no memory yet.
    pub fn new(alloc: A) -> IndexSpaces<A>
        ensures { result ≡ no_spaces }
    {
        IndexSpaces {
            types: Vec::new(alloc),
            functions: Vec::new(alloc),
            imported_functions: Vec::new(alloc),
            tables: Vec::new(alloc),
            memories: Vec::new(alloc),
            globals: Vec::new(alloc),
            imported_globals: 0,
            tags: Vec::new(alloc),
            elements: Vec::new(alloc),
            imports: IndexMap::with_hasher(alloc, NameKey::of(&[])),
            exports: IndexMap::with_hasher(alloc, NameKey::of(&[])),
            size: 1,
            alloc,
        }
    }

    /// Has names found by a key that is made of these bytes, where there are none yet. The bytes are
    /// those of a section, so that whoever chooses its names can't choose the key by itself.
    pub fn key_names(&mut self, bytes: &[u8])
        ensures { self.new ≡ self.old }
    {
        let key = NameKey::of(bytes);
        key_imports(&mut self.imports, self.alloc, key);
        key_exports(&mut self.exports, self.alloc, key);
    }

    /// The number of types.
    pub fn type_count(&self) -> u32
        ensures { result ≡ length self.now.types }
    {
        self.types.len() as u32
    }

    /// The id of the type with this index, which is below [`IndexSpaces::type_count`].
    pub fn type_at(&self, index: u32) -> CoreTypeId
        requires { index < length self.now.types }
        ensures value { result.index ≡ slice_index self.now.types index }
        ensures below { (ids : ℕ) → All (λ id. id < ids) self.now.types → result.index < ids }
    {
        self.types[index as usize]
    }

    /// The ids of the types, in order.
    pub fn type_ids(&self) -> &[CoreTypeId]
        ensures { numbers result.now ≡ self.now.types }
    {
        self.types.as_slice()
    }

    /// Gives the type with this id the next index. That index must fit 32 bits, and so must the
    /// number of types then.
    ///
    /// # Errors
    ///
    /// Fails where memory is refused, and nothing changes then.
    pub fn push_type(&mut self, id: CoreTypeId) -> Result<(), AllocError>
        requires room { length self.old.types + 1 < 2 ^ 32 }
        ensures ok { OnOk result (self.new ≡ record self.old
            { types = self.old.types ++ id.index ∷ [] }) }
        ensures err { OnErr result (self.new ≡ self.old) }
    {
        self.types.push(id)?;
        Ok(())
    }

    /// The number of functions.
    pub fn function_count(&self) -> u32
        ensures { result ≡ length self.now.functions }
    {
        self.functions.len() as u32
    }

    /// The type index of the function with this index, which is below
    /// [`IndexSpaces::function_count`].
    pub fn function_type_index(&self, index: u32) -> u32
        requires { index < length self.now.functions }
        ensures value { result ≡ slice_index self.now.functions index }
        ensures within { result < length self.now.types }
    {
        self.functions[index as usize]
    }

    /// The id of the type of the function with this index, which is below
    /// [`IndexSpaces::function_count`].
    pub fn function_type_id(&self, index: u32) -> CoreTypeId
        requires { index < length self.now.functions }
        ensures value { result.index ≡ slice_index self.now.types
            (slice_index self.now.functions index) }
        ensures below { (ids : ℕ) → All (λ id. id < ids) self.now.types → result.index < ids }
    {
        self.type_at(self.function_type_index(index))
    }

    /// Gives a function of the type with this index, which is below [`IndexSpaces::type_count`],
    /// the next function index. The number of functions must fit 32 bits then.
    ///
    /// # Errors
    ///
    /// Fails where memory is refused, and nothing changes then.
    pub fn push_function(&mut self, type_index: u32) -> Result<(), AllocError>
        requires room { length self.old.functions + 1 < 2 ^ 32 }
        requires within { type_index < length self.old.types }
        ensures ok { OnOk result (self.new ≡ record self.old
            { functions = self.old.functions ++ type_index ∷ [] }) }
        ensures err { OnErr result (self.new ≡ self.old) }
    {
        self.functions.push(type_index)?;
        Ok(())
    }

    /// Notes that one more function is imported: exactly of its type, or of a subtype. The imported
    /// functions are the first ones.
    ///
    /// # Errors
    ///
    /// Fails where memory is refused, and nothing changes then.
    pub fn note_imported_function(&mut self, is_exact: bool) -> Result<(), AllocError>
        ensures ok { OnOk result (self.new ≡ record self.old
            { imported_functions = self.old.imported_functions ++ is_exact ∷ [] }) }
        ensures err { OnErr result (self.new ≡ self.old) }
    {
        self.imported_functions.push(is_exact)?;
        Ok(())
    }

    /// The number of functions that are imported.
    pub fn imported_function_count(&self) -> usize
        ensures { result ≡ length self.now.imported_functions }
    {
        self.imported_functions.len()
    }

    /// Whether the function with this index has exactly its type: it is imported so, or it isn't
    /// among the imported ones.
    pub fn is_exact_function(&self, index: u32) -> bool
        ensures { result ≡ is_exact self.now index }
    {
        match self.imported_functions.get(index as usize) {
            Some(is_exact) => *is_exact,
            None => true,
        }
    }

    /// The number of tables.
    pub fn table_count(&self) -> u32
        ensures { result ≡ length self.now.tables }
    {
        self.tables.len() as u32
    }

    /// The type of the table with this index, which is below [`IndexSpaces::table_count`].
    pub fn table_at(&self, index: u32) -> TableType
        requires { index < length self.now.tables }
        ensures { slice_get self.now.tables index ≡ Some (table_of result) }
    {
        self.tables[index as usize]
    }

    /// Gives a table of this type the next table index. The number of tables must fit 32 bits then.
    ///
    /// # Errors
    ///
    /// Fails where memory is refused, and nothing changes then.
    pub fn push_table(&mut self, ty: TableType) -> Result<(), AllocError>
        requires room { length self.old.tables + 1 < 2 ^ 32 }
        ensures ok { OnOk result (self.new ≡ record self.old
            { tables = self.old.tables ++ table_of ty ∷ [] }) }
        ensures err { OnErr result (self.new ≡ self.old) }
    {
        self.tables.push(ty)?;
        Ok(())
    }

    /// The number of memories.
    pub fn memory_count(&self) -> u32
        ensures { result ≡ length self.now.memories }
    {
        self.memories.len() as u32
    }

    /// The type of the memory with this index, which is below [`IndexSpaces::memory_count`].
    pub fn memory_at(&self, index: u32) -> MemoryType
        requires { index < length self.now.memories }
        ensures { slice_get self.now.memories index ≡ Some (memory_of result) }
    {
        self.memories[index as usize]
    }

    /// Gives a memory of this type the next memory index. The number of memories must fit 32 bits
    /// then.
    ///
    /// # Errors
    ///
    /// Fails where memory is refused, and nothing changes then.
    pub fn push_memory(&mut self, ty: MemoryType) -> Result<(), AllocError>
        requires room { length self.old.memories + 1 < 2 ^ 32 }
        ensures ok { OnOk result (self.new ≡ record self.old
            { memories = self.old.memories ++ memory_of ty ∷ [] }) }
        ensures err { OnErr result (self.new ≡ self.old) }
    {
        self.memories.push(ty)?;
        Ok(())
    }

    /// The number of globals.
    pub fn global_count(&self) -> u32
        ensures { result ≡ length self.now.globals }
    {
        self.globals.len() as u32
    }

    /// The type of the global with this index, which is below [`IndexSpaces::global_count`].
    pub fn global_at(&self, index: u32) -> GlobalType
        requires { index < length self.now.globals }
        ensures { slice_get self.now.globals index ≡ Some (global_of result) }
    {
        self.globals[index as usize]
    }

    /// Gives a global of this type the next global index. The number of globals must fit 32 bits
    /// then.
    ///
    /// # Errors
    ///
    /// Fails where memory is refused, and nothing changes then.
    pub fn push_global(&mut self, ty: GlobalType) -> Result<(), AllocError>
        requires room { length self.old.globals + 1 < 2 ^ 32 }
        ensures ok { OnOk result (self.new ≡ record self.old
            { globals = self.old.globals ++ global_of ty ∷ [] }) }
        ensures err { OnErr result (self.new ≡ self.old) }
    {
        self.globals.push(ty)?;
        Ok(())
    }

    /// Gives an imported global of this type the next global index. The imported globals are the
    /// first ones. The number of globals must fit 32 bits then.
    ///
    /// # Errors
    ///
    /// Fails where memory is refused, and nothing changes then.
    pub fn push_imported_global(&mut self, ty: GlobalType) -> Result<(), AllocError>
        requires room { length self.old.globals + 1 < 2 ^ 32 }
        ensures ok { OnOk result (self.new ≡ importing_global self.old (global_of ty)) }
        ensures err { OnErr result (self.new ≡ self.old) }
    {
        self.globals.push(ty)?;
        self.imported_globals += 1;
        Ok(())
    }

    /// The number of globals that are imported.
    pub fn imported_global_count(&self) -> u32
        ensures { result ≡ self.now.imported_globals }
    {
        self.imported_globals
    }

    /// The number of tags.
    pub fn tag_count(&self) -> u32
        ensures { result ≡ length self.now.tags }
    {
        self.tags.len() as u32
    }

    /// The type index of the tag with this index, which is below [`IndexSpaces::tag_count`].
    pub fn tag_type_index(&self, index: u32) -> u32
        requires { index < length self.now.tags }
        ensures value { result ≡ slice_index self.now.tags index }
        ensures within { result < length self.now.types }
    {
        self.tags[index as usize]
    }

    /// The id of the type of the tag with this index, which is below [`IndexSpaces::tag_count`].
    pub fn tag_type_id(&self, index: u32) -> CoreTypeId
        requires { index < length self.now.tags }
        ensures value { result.index ≡ slice_index self.now.types
            (slice_index self.now.tags index) }
        ensures below { (ids : ℕ) → All (λ id. id < ids) self.now.types → result.index < ids }
    {
        self.type_at(self.tag_type_index(index))
    }

    /// Gives a tag of the type with this index, which is below [`IndexSpaces::type_count`], the
    /// next tag index. The number of tags must fit 32 bits then.
    ///
    /// # Errors
    ///
    /// Fails where memory is refused, and nothing changes then.
    pub fn push_tag(&mut self, type_index: u32) -> Result<(), AllocError>
        requires room { length self.old.tags + 1 < 2 ^ 32 }
        requires within { type_index < length self.old.types }
        ensures ok { OnOk result (self.new ≡ record self.old
            { tags = self.old.tags ++ type_index ∷ [] }) }
        ensures err { OnErr result (self.new ≡ self.old) }
    {
        self.tags.push(type_index)?;
        Ok(())
    }

    /// The number of element segments.
    pub fn element_count(&self) -> u32
        ensures { result ≡ length self.now.elements }
    {
        self.elements.len() as u32
    }

    /// The type of the items of the element segment with this index, which is below
    /// [`IndexSpaces::element_count`].
    pub fn element_at(&self, index: u32) -> RefType
        requires { index < length self.now.elements }
        ensures { slice_get self.now.elements index ≡ Some (ref_of result) }
    {
        self.elements[index as usize]
    }

    /// The types of the items of the element segments, in order.
    pub fn elements(&self) -> &[RefType]
        ensures { map ref_of result.now ≡ self.now.elements }
    {
        self.elements.as_slice()
    }

    /// Gives an element segment whose items are of this type the next index. The number of element
    /// segments must fit 32 bits then.
    ///
    /// # Errors
    ///
    /// Fails where memory is refused, and nothing changes then.
    pub fn push_element(&mut self, ty: RefType) -> Result<(), AllocError>
        requires room { length self.old.elements + 1 < 2 ^ 32 }
        ensures ok { OnOk result (self.new ≡ record self.old
            { elements = self.old.elements ++ ref_of ty ∷ [] }) }
        ensures err { OnErr result (self.new ≡ self.old) }
    {
        self.elements.push(ty)?;
        Ok(())
    }

    /// The effective size: one, and that of all imports and exports.
    pub fn effective_size(&self) -> u32
        ensures { result ≡ self.now.size }
    {
        self.size
    }

    /// Notes the effective size with one more import or export.
    pub fn set_effective_size(&mut self, size: u32)
        ensures { self.new ≡ record self.old { size = size } }
    {
        self.size = size;
    }

    /// The number of different pairs of names that are imported from.
    pub fn import_count(&self) -> usize
        ensures { result ≡ length self.now.imports }
    {
        self.imports.len()
    }

    /// The imports, each with its two names: pairs of names in the order in which they first came.
    pub fn imports(&self) -> CoreImports<'_, A>
        ensures all { imports_left result ≡ all_imports self.now.imports }
        ensures typed { All (λ i. IsAmong self.now.types i.2) (imports_left result) }
    {
        CoreImports::new(&self.imports)
    }

    /// The exports in order, each with its name.
    pub fn exports(&self) -> CoreExports<'_, A>
        ensures all { exports_left result ≡ self.now.exports }
        ensures typed { All (λ e. IsAmong self.now.types e.1) (exports_left result) }
    {
        CoreExports::new(&self.exports)
    }

    /// The number of exports.
    pub fn export_count(&self) -> usize
        ensures { result ≡ length self.now.exports }
    {
        self.exports.len()
    }

    /// Whether there is an export with this name.
    pub fn has_export(&self, name: &str) -> bool
        ensures { result ≡ is_exported self.now.exports name.now }
    {
        self.exports.contains_key(name)
    }

    /// Puts an export at the end. No other may have its name ([`IndexSpaces::has_export`]), and the
    /// type of a function or tag must be one of the module's.
    ///
    /// # Errors
    ///
    /// Fails where memory is refused, and nothing changes then.
    pub fn add_export(&mut self, name: &str, entity: EntityType) -> Result<(), AllocError>
        requires new { is_exported self.old.exports name.now ≡ false }
        requires typed { IsAmong self.old.types (entity_of entity) }
        ensures ok { OnOk result (self.new ≡ record self.old
            { exports = self.old.exports ++ (name.now, entity_of entity) ∷ [] }) }
        ensures err { OnErr result (self.new ≡ self.old) }
    {
        let key = String::from_str(self.alloc, name)?;
        self.exports.insert(key, entity)?;
        Ok(())
    }

    /// Puts an import after the others of its pair of names, or as a new pair at the end. The type
    /// of a function or tag must be one of the module's.
    ///
    /// # Errors
    ///
    /// Fails where memory is refused, and nothing changes then.
    pub fn add_import(
        &mut self,
        source: &str,
        name: &str,
        entity: EntityType,
    ) -> Result<(), AllocError>
        requires { IsAmong self.old.types (entity_of entity) }
        ensures ok { OnOk result (self.new ≡ record self.old
            { imports = with_import self.old.imports source.now name.now (entity_of entity) }) }
        ensures err { OnErr result (self.new ≡ self.old) }
    {
        let source = String::from_str(self.alloc, source)?;
        let name = String::from_str(self.alloc, name)?;
        add_to_pair(&mut self.imports, self.alloc, (source, name), entity)
    }
}

/// Puts `entity` after the others of this pair, or with the pair at the end.
fn add_to_pair<A: Allocator + Copy>(
    imports: &mut ImportMap<A>,
    alloc: A,
    pair: (String<A>, String<A>),
    entity: EntityType,
) -> Result<(), AllocError>
    ensures ok { OnOk result (AddsToPair imports.old.entries pair entity imports.new.entries) }
    ensures err { OnErr result (imports.new.entries ≡ imports.old.entries) }
{
    match imports.get_index_of(&pair) {
        Some(index) => add_at(imports, index, entity),
        None => {
            let mut entities = Items::new(alloc);
            entities.push(entity)?;
            imports.insert(pair, entities)?;
            Ok(())
        }
    }
}

/// Puts `entity` after the others of the pair at `index`.
fn add_at<A: Allocator + Copy>(
    imports: &mut ImportMap<A>,
    index: usize,
    entity: EntityType,
) -> Result<(), AllocError>
    requires { index < index_map_len imports.old }
    ensures ok { OnOk result (PutsAt imports.old.entries index entity imports.new.entries) }
    ensures err { OnErr result (imports.new.entries ≡ imports.old.entries) }
{
    let entities = &mut imports[index];
    entities.push(entity)?;
    Ok(())
}
