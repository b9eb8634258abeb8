//! Reading of the types of tables, memories, globals and tags, and of imports and exports.

ghost use Rattle.std.specs.Prelude.{◌≡◌, ◌≤◌, ◌<◌, OnErr, IfOk, Some, None, IfErr};
ghost use Rattle.wasm_readers_bytes.specs.WasmSpec.BinaryTypes.{flags_at, limits_at, number_if, page_size_if, table_at, memory_at, global_at, tag_at};
ghost use Rattle.wasm_readers_bytes.specs.WasmSpec.BinaryModules.{import_at, export_at, extern_at};
ghost use Rattle.wasm_readers_bytes.specs.Reader.{SameInput, position_in, rest, RefusedFrom, place_of_next, byte_fault};
ghost use Rattle.wasm_readers_bytes.specs.WasmReadersErrors.Refusals.{plain};
ghost use Rattle.wasm_readers.specs.WrittenIndices.{written};
ghost use Rattle.wasm_readers.specs.Limits.{limits_of};
ghost use Rattle.wasm_readers.specs.Tables.{head_of, table_head_at};
ghost use Rattle.wasm_readers_types.specs.SeenExterns.{table_of, memory_of, global_of, extern_of, kind_of};

use crate::items::{Export, Import, TableHead};
use crate::section_limited::FromReader;
use crate::types::{read_ref_type, read_val_type};
use std::alloc::Allocator;
use wasm_readers_bytes::BinaryReader;
use wasm_readers_bytes::readers_errors::{Error, Fault, Malformed, Refusal};
use wasm_readers_types::{
    ExternalKind, GlobalType, MemoryType, TableType, TagKind, TagType, TypeRef,
};

/// Flags, a minimum and a maximum.
#[derive(Clone, Copy)]
pub struct Limits {
    flags: u8,
    minimum: u64,
    maximum: Option<u64>,
}

/// Flags: a byte that is at most this one.
#[tactic(auto, unfolding(crate::proofs::Cited::flags_at))]
fn read_flags(reader: &mut BinaryReader<'_>, most: u8, malformed: Malformed) -> Result<u8, Refusal>
    ensures same { SameInput reader.old reader.new }
    ensures onward { position_in reader.old ≤ position_in reader.new }
    ensures refusal { IfErr result (RefusedFrom reader.old) }
    ensures ok { IfOk result (λ x. flags_at most (rest reader.old) ≡ Some (x, rest reader.new)) }
    ensures err { OnErr result (flags_at most (rest reader.old) ≡ None) }
    ensures told { IfErr result (λ r. r ≡ plain
        (Fault.Malformed (byte_fault malformed (rest reader.old))) (place_of_next reader.old)) }
{
    let offset = reader.original_position();
    let flags = reader.read_u8()?;
    if flags > most {
        return Err(Refusal::new(Fault::Malformed(malformed), offset));
    }
    Ok(flags)
}

/// A number of 64 bits, where there is one.
fn read_number_if(reader: &mut BinaryReader<'_>, there: bool) -> Result<Option<u64>, Refusal>
    ensures same { SameInput reader.old reader.new }
    ensures onward { position_in reader.old ≤ position_in reader.new }
    ensures refusal { IfErr result (RefusedFrom reader.old) }
    ensures ok { IfOk result (λ x. number_if there (rest reader.old) ≡ Some (x, rest reader.new)) }
    ensures err { OnErr result (number_if there (rest reader.old) ≡ None) }
{
    if there {
        Ok(Some(reader.read_var_u64()?))
    } else {
        Ok(None)
    }
}

/// The logarithm of a page size, where there is one.
fn read_page_size_if(reader: &mut BinaryReader<'_>, there: bool) -> Result<Option<u32>, Refusal>
    ensures same { SameInput reader.old reader.new }
    ensures onward { position_in reader.old ≤ position_in reader.new }
    ensures refusal { IfErr result (RefusedFrom reader.old) }
    ensures ok { IfOk result (λ x. page_size_if there (rest reader.old)
        ≡ Some (x, rest reader.new)) }
    ensures err { OnErr result (page_size_if there (rest reader.old) ≡ None) }
{
    if there {
        Ok(Some(reader.read_var_u32()?))
    } else {
        Ok(None)
    }
}

/// Flags that are at most these, with a minimum, and a maximum where the flags have one.
#[tactic(auto, unfolding(crate::proofs::Cited::limits_at))]
fn read_limits(reader: &mut BinaryReader<'_>, most: u8) -> Result<Limits, Refusal>
    ensures same { SameInput reader.old reader.new }
    ensures onward { position_in reader.old ≤ position_in reader.new }
    ensures refusal { IfErr result (RefusedFrom reader.old) }
    ensures ok { IfOk result (λ x. limits_at most (rest reader.old)
        ≡ Some (limits_of x, rest reader.new)) }
    ensures err { OnErr result (limits_at most (rest reader.old) ≡ None) }
{
    let flags = read_flags(reader, most, Malformed::LimitsFlags)?;
    let minimum = reader.read_var_u64()?;
    let maximum = read_number_if(reader, flags & 1 != 0)?;
    Ok(Limits {
        flags,
        minimum,
        maximum,
    })
}

/// A table type (Core Specification 3.0, Binary Format, Types, Table Types). What its limits count
/// are entries.
///
/// # Errors
///
/// Refused where the bytes encode none, at a byte offset from the start of the input.
#[tactic(auto, unfolding(crate::proofs::Cited::table_at))]
pub fn read_table_type(reader: &mut BinaryReader<'_>) -> Result<TableType, Refusal>
    ensures same { SameInput reader.old reader.new }
    ensures onward { position_in reader.old ≤ position_in reader.new }
    ensures refusal { IfErr result (RefusedFrom reader.old) }
    ensures ok { IfOk result (λ x. table_at written (rest reader.old)
        ≡ Some (table_of x, rest reader.new)) }
    ensures err { OnErr result (table_at written (rest reader.old) ≡ None) }
{
    let element_type = read_ref_type(reader)?;
    let limits = read_limits(reader, 7)?;
    Ok(TableType {
        element_type,
        table64: limits.flags & 4 != 0,
        initial: limits.minimum,
        maximum: limits.maximum,
        shared: limits.flags & 2 != 0,
    })
}

/// The part of a table of the table section before its initializer: its type, and whether an
/// initializer follows (Core Specification 3.0, Binary Format, Modules, Table Section).
///
/// # Errors
///
/// Refused where the bytes encode none, at a byte offset from the start of the input.
#[tactic(auto, unfolding(crate::specs::Tables::table_head_at))]
pub fn read_table_head(reader: &mut BinaryReader<'_>) -> Result<TableHead, Refusal>
    ensures same { SameInput reader.old reader.new }
    ensures onward { position_in reader.old ≤ position_in reader.new }
    ensures refusal { IfErr result (RefusedFrom reader.old) }
    ensures ok { IfOk result (λ h. table_head_at (rest reader.old)
        ≡ Some (head_of h, rest reader.new)) }
    ensures err { OnErr result (table_head_at (rest reader.old) ≡ None) }
{
    let start = *reader;
    let has_init = reader.read_u8()? == 0x40;
    if has_init {
        read_flags(reader, 0, Malformed::TableEncoding)?;
    } else {
        *reader = start;
    }
    let ty = read_table_type(reader)?;
    Ok(TableHead { ty, has_init })
}

/// A memory type (Core Specification 3.0, Binary Format, Types, Memory Types). What its limits
/// count are pages.
///
/// # Errors
///
/// Refused where the bytes encode none, at a byte offset from the start of the input.
#[tactic(auto, unfolding(crate::proofs::Cited::memory_at))]
pub fn read_memory_type(reader: &mut BinaryReader<'_>) -> Result<MemoryType, Refusal>
    ensures same { SameInput reader.old reader.new }
    ensures onward { position_in reader.old ≤ position_in reader.new }
    ensures refusal { IfErr result (RefusedFrom reader.old) }
    ensures ok { IfOk result (λ x. memory_at (rest reader.old)
        ≡ Some (memory_of x, rest reader.new)) }
    ensures err { OnErr result (memory_at (rest reader.old) ≡ None) }
{
    let limits = read_limits(reader, 15)?;
    let page_size_log2 = read_page_size_if(reader, limits.flags & 8 != 0)?;
    Ok(MemoryType {
        memory64: limits.flags & 4 != 0,
        shared: limits.flags & 2 != 0,
        initial: limits.minimum,
        maximum: limits.maximum,
        page_size_log2,
    })
}

/// A global type (Core Specification 3.0, Binary Format, Types, Global Types).
///
/// # Errors
///
/// Refused where the bytes encode none, at a byte offset from the start of the input.
#[tactic(auto, unfolding(crate::proofs::Cited::global_at))]
pub fn read_global_type(reader: &mut BinaryReader<'_>) -> Result<GlobalType, Refusal>
    ensures same { SameInput reader.old reader.new }
    ensures onward { position_in reader.old ≤ position_in reader.new }
    ensures refusal { IfErr result (RefusedFrom reader.old) }
    ensures ok { IfOk result (λ x. global_at written (rest reader.old)
        ≡ Some (global_of x, rest reader.new)) }
    ensures err { OnErr result (global_at written (rest reader.old) ≡ None) }
{
    let content_type = read_val_type(reader)?;
    let flags = read_flags(reader, 3, Malformed::GlobalFlags)?;
    Ok(GlobalType {
        content_type,
        mutable: flags & 1 != 0,
        shared: flags & 2 != 0,
    })
}

/// A tag type (Core Specification 3.0, Binary Format, Types, Tag Types).
///
/// # Errors
///
/// Refused where the bytes encode none, at a byte offset from the start of the input.
#[tactic(auto, unfolding(crate::proofs::Cited::tag_at))]
pub fn read_tag_type(reader: &mut BinaryReader<'_>) -> Result<TagType, Refusal>
    ensures same { SameInput reader.old reader.new }
    ensures onward { position_in reader.old ≤ position_in reader.new }
    ensures refusal { IfErr result (RefusedFrom reader.old) }
    ensures ok { IfOk result (λ x. tag_at (rest reader.old)
        ≡ Some (x.func_type_idx, rest reader.new)) }
    ensures err { OnErr result (tag_at (rest reader.old) ≡ None) }
{
    read_flags(reader, 0, Malformed::TagAttribute)?;
    let func_type_idx = reader.read_var_u32()?;
    Ok(TagType {
        kind: TagKind::Exception,
        func_type_idx,
    })
}

/// What an import is: its kind, and its type or type index (Core Specification 3.0, Binary Format,
/// Types, External Types).
///
/// # Errors
///
/// Refused where the bytes encode none, at a byte offset from the start of the input.
#[tactic(auto, unfolding(crate::proofs::Cited::extern_at))]
pub fn read_type_ref(reader: &mut BinaryReader<'_>) -> Result<TypeRef, Refusal>
    ensures same { SameInput reader.old reader.new }
    ensures onward { position_in reader.old ≤ position_in reader.new }
    ensures refusal { IfErr result (RefusedFrom reader.old) }
    ensures ok { IfOk result (λ x. extern_at written (rest reader.old)
        ≡ Some (extern_of x, rest reader.new)) }
    ensures err { OnErr result (extern_at written (rest reader.old) ≡ None) }
{
    let offset = reader.original_position();
    match reader.read_u8()? {
        0 => Ok(TypeRef::Func(reader.read_var_u32()?)),
        1 => Ok(TypeRef::Table(read_table_type(reader)?)),
        2 => Ok(TypeRef::Memory(read_memory_type(reader)?)),
        3 => Ok(TypeRef::Global(read_global_type(reader)?)),
        4 => Ok(TypeRef::Tag(read_tag_type(reader)?)),
        0x20 => Ok(TypeRef::FuncExact(reader.read_var_u32()?)),
        _ => Err(Refusal::new(Fault::Malformed(Malformed::ImportKind), offset)),
    }
}

/// The kind of an export (Core Specification 3.0, Binary Format, Modules, Export Section).
///
/// # Errors
///
/// Refused where the next byte stands for none, or there is no byte: at its byte offset from the
/// start of the input.
#[tactic(auto, unfolding(crate::proofs::Cited::flags_at))]
pub fn read_external_kind(reader: &mut BinaryReader<'_>) -> Result<ExternalKind, Refusal>
    ensures same { SameInput reader.old reader.new }
    ensures onward { position_in reader.old ≤ position_in reader.new }
    ensures refusal { IfErr result (RefusedFrom reader.old) }
    ensures ok { IfOk result (λ x. flags_at 4 (rest reader.old)
        ≡ Some (kind_of x, rest reader.new)) }
    ensures err { OnErr result (flags_at 4 (rest reader.old) ≡ None) }
    ensures told { IfErr result (λ r. r ≡ plain
        (Fault.Malformed (byte_fault Malformed.ExportKind (rest reader.old)))
        (place_of_next reader.old)) }
{
    let offset = reader.original_position();
    match reader.read_u8()? {
        0 => Ok(ExternalKind::Func),
        1 => Ok(ExternalKind::Table),
        2 => Ok(ExternalKind::Memory),
        3 => Ok(ExternalKind::Global),
        4 => Ok(ExternalKind::Tag),
        _ => Err(Refusal::new(Fault::Malformed(Malformed::ExportKind), offset)),
    }
}

impl<'a, A: Allocator> FromReader<'a, A> for TableHead {
    ghost use Rattle.wasm_readers.specs.Tables.{Head};

    ghost Value = { Head };

    ghost encoded = { table_head_at };

    ghost value = { head_of };

    ghost refuses = { RefusedFrom };

    fn from_reader(_alloc: A, reader: &mut BinaryReader<'a>) -> Result<TableHead, Error> {
        Ok(read_table_head(reader)?)
    }
}

impl<'a, A: Allocator> FromReader<'a, A> for MemoryType {
    ghost use Rattle.wasm_readers_bytes.specs.WasmSpec.Syntax.{Memory};

    ghost Value = { Memory };

    ghost encoded = { memory_at };

    ghost value = { memory_of };

    ghost refuses = { RefusedFrom };

    fn from_reader(_alloc: A, reader: &mut BinaryReader<'a>) -> Result<MemoryType, Error> {
        Ok(read_memory_type(reader)?)
    }
}

impl<'a, A: Allocator> FromReader<'a, A> for TagType {
    ghost use Rattle.std.specs.Prelude.{ℕ};

    ghost Value = { ℕ };

    ghost encoded = { tag_at };

    ghost value = { λ x. x.func_type_idx };

    ghost refuses = { RefusedFrom };

    fn from_reader(_alloc: A, reader: &mut BinaryReader<'a>) -> Result<TagType, Error> {
        Ok(read_tag_type(reader)?)
    }
}

impl<'a, A: Allocator> FromReader<'a, A> for Import<'a> {
    ghost use Rattle.wasm_readers_bytes.specs.WasmSpec.BinaryModules.{Import};
    ghost use Rattle.wasm_readers.specs.Items.{import_of};
    ghost use Rattle.wasm_readers_types.specs.WasmReadersValues.declared.indices.UnpackedIndex.{UnpackedIndex};

    ghost Value = { Import UnpackedIndex };

    ghost encoded = { import_at written };

    ghost value = { import_of };

    ghost refuses = { RefusedFrom };

    #[tactic(auto, unfolding(crate::proofs::Cited::import_at))]
    fn from_reader(_alloc: A, reader: &mut BinaryReader<'a>) -> Result<Import<'a>, Error> {
        let module = reader.read_string()?;
        let name = reader.read_string()?;
        let ty = read_type_ref(reader)?;
        Ok(Import { module, name, ty })
    }
}

impl<'a, A: Allocator> FromReader<'a, A> for Export<'a> {
    ghost use Rattle.wasm_readers_bytes.specs.WasmSpec.BinaryModules.{Export};
    ghost use Rattle.wasm_readers.specs.Items.{export_of};

    ghost Value = { Export };

    ghost encoded = { export_at };

    ghost value = { export_of };

    ghost refuses = { RefusedFrom };

    #[tactic(auto, unfolding(crate::proofs::Cited::export_at))]
    fn from_reader(_alloc: A, reader: &mut BinaryReader<'a>) -> Result<Export<'a>, Error> {
        let name = reader.read_string()?;
        let kind = read_external_kind(reader)?;
        let index = reader.read_var_u32()?;
        Ok(Export { name, kind, index })
    }
}
