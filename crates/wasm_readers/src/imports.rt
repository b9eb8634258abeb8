//! Entries of the import section: each is an import, or by a proposal several of one module.

ghost use Rattle.std.specs.Prelude.{◌≡◌, ◌≤◌, IfOk, OnErr, IfErr, Some, None};
ghost use Rattle.wasm_readers_bytes.specs.WasmSpec.BinaryModules.{entry_at};
ghost use Rattle.wasm_readers_bytes.specs.WasmSpec.Values.{list_at};
ghost use Rattle.wasm_readers_bytes.specs.Reader.{SameInput, position_in, rest, RefusedFrom};
ghost use Rattle.wasm_readers.specs.Entries.{entry_of, compact_of, given, one_at, AreRead, IsRead, IsOnward, LieFrom};
ghost use Rattle.wasm_readers.specs.Items.{import_of};
ghost use Rattle.wasm_readers.specs.WrittenIndices.{written};

use crate::externs::read_type_ref;
use crate::{FromReader, Import};
use std::alloc::Allocator;
use wasm_readers_bytes::BinaryReader;
use wasm_readers_bytes::readers_errors::{Error, Refusal};
use wasm_readers_types::TypeRef;

/// The imports that an entry of the import section stands for.
#[derive(Clone, Copy, Debug)]
pub enum Imports<'a> {
    /// One import (Core Specification 3.0, Binary Format, Import Section).
    Single(Import<'a>),
    /// As many imports of one module as the entry says, by the proposal on compact imports.
    Compact(CompactImports<'a>),
}

/// Imports from one module that stand in one entry. They are read again as they are asked for.
#[derive(Clone, Copy, Debug)]
pub struct CompactImports<'a> {
    module: &'a str,
    ty: Option<TypeRef>,
    reader: BinaryReader<'a>,
    left: u32,
}

/// An import from this module: a name, and a type unless it is given.
fn read_one<'a>(
    reader: &mut BinaryReader<'a>,
    module: &'a str,
    ty: Option<TypeRef>,
) -> Result<Import<'a>, Refusal>
    ensures same { SameInput reader.old reader.new }
    ensures onward { position_in reader.old ≤ position_in reader.new }
    ensures refusal { IfErr result (RefusedFrom reader.old) }
    ensures ok { IfOk result (λ i. one_at «module».now (given ty) (rest reader.old)
        ≡ Some (import_of i, rest reader.new)) }
    ensures err { OnErr result (one_at «module».now (given ty) (rest reader.old) ≡ None) }
{
    let name = reader.read_string()?;
    let ty = match ty {
        Some(ty) => ty,
        None => read_type_ref(reader)?,
    };
    Ok(Import { module, name, ty })
}

/// A count, and as many imports from this module, each of which is read once.
fn read_compact<'a>(
    reader: &mut BinaryReader<'a>,
    module: &'a str,
    ty: Option<TypeRef>,
) -> Result<CompactImports<'a>, Refusal>
    ensures same { SameInput reader.old reader.new }
    ensures onward { position_in reader.old ≤ position_in reader.new }
    ensures refusal { IfErr result (RefusedFrom reader.old) }
    ensures ok { IfOk result (λ c. list_at (one_at «module».now (given ty)) (rest reader.old)
        ≡ Some (compact_of c, rest reader.new)) }
    ensures err { OnErr result (list_at (one_at «module».now (given ty)) (rest reader.old) ≡ None) }
    ensures read { IfOk result IsRead }
    ensures lie { IfOk result (λ c. IsOnward reader.old c.reader) }
{
    let count = reader.read_var_u32()?;
    let first = *reader;
    let mut left = count;
    'imports: while left > 0 {
        let _import = read_one(reader, module, ty)?;
        left -= 1;
    }
    Ok(CompactImports {
        module,
        ty,
        reader: first,
        left: count,
    })
}

/// An entry of an import section, where it may be several imports (the proposal on compact imports).
///
/// # Errors
///
/// Refused where the bytes encode none, at a byte offset from the start of the input.
#[tactic(auto, unfolding(crate::proofs::Cited::entry_at))]
pub fn read_imports<'a>(reader: &mut BinaryReader<'a>) -> Result<Imports<'a>, Refusal>
    ensures same { SameInput reader.old reader.new }
    ensures onward { position_in reader.old ≤ position_in reader.new }
    ensures refusal { IfErr result (RefusedFrom reader.old) }
    ensures ok { IfOk result (λ x. entry_at written (rest reader.old)
        ≡ Some (entry_of x, rest reader.new)) }
    ensures err { OnErr result (entry_at written (rest reader.old) ≡ None) }
    ensures read { IfOk result AreRead }
    ensures lie { IfOk result (LieFrom reader.old) }
{
    let module = reader.read_string()?;
    let behind_module = *reader;
    let is_unnamed = reader.read_string()?.is_empty();
    let kind = reader.read_u8()?;
    if is_unnamed && kind == 0x7f {
        return Ok(Imports::Compact(read_compact(reader, module, None)?));
    }
    if is_unnamed && kind == 0x7e {
        let ty = read_type_ref(reader)?;
        return Ok(Imports::Compact(read_compact(reader, module, Some(ty))?));
    }
    *reader = behind_module;
    Ok(Imports::Single(read_one(reader, module, None)?))
}

/// The imports, each with its byte offset from the start of the input. All have been read before.
impl<'a> Iterator for CompactImports<'a> {
    type Item = Result<(u64, Import<'a>), Refusal>;

    ghost use Rattle.std.specs.Iterator.{at_most};
    ghost use Rattle.wasm_readers.specs.Entries.{NextImport};

    ghost can_next = { λ _. Unit {0} };

    ghost next_gives = { λ s r t. NextImport s r t };

    ghost remaining = { λ s. at_most s.left };

    fn next(&mut self) -> Option<Result<(u64, Import<'a>), Refusal>> {
        if self.left == 0 {
            return None;
        }
        let offset = self.reader.original_position();
        self.left -= 1;
        match read_one(&mut self.reader, self.module, self.ty) {
            Ok(import) => Some(Ok((offset, import))),
            Err(refusal) => Some(Err(refusal)),
        }
    }
}

impl<'a, A: Allocator> FromReader<'a, A> for Imports<'a> {
    ghost use Rattle.std.specs.Prelude.{List};
    ghost use Rattle.wasm_readers_bytes.specs.WasmSpec.BinaryModules.{Import};
    ghost use Rattle.wasm_readers_types.specs.WasmReadersValues.declared.indices.UnpackedIndex.{UnpackedIndex};

    ghost Value = { List (Import UnpackedIndex) };

    ghost encoded = { entry_at written };

    ghost value = { entry_of };

    ghost refuses = { RefusedFrom };

    fn from_reader(_alloc: A, reader: &mut BinaryReader<'a>) -> Result<Imports<'a>, Error> {
        Ok(read_imports(reader)?)
    }
}
