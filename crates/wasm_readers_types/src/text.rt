//! Types in the text format (Core Specification 3.0, Text Format, Types), with indices that say what
//! they are: `(module 3)`, `(recgroup 3)` or `(id 3)`.

ghost use Rattle.std.specs.Prelude.{map};
ghost use Rattle.std.specs.Fmt.{WritesOnOk};
ghost use Rattle.wasm_readers_values.specs.SeenValues.{val_of};
ghost use Rattle.wasm_readers_types.specs.Texts.{signature_text, spaced, values_text};

use crate::externs::{EntityType, GlobalType, MemoryType, TableType};
use crate::types::{
    ArrayType, CompositeInnerType, CompositeType, ContType, FuncType, StructType, SubType,
};
use std::alloc::Allocator;
use std::fmt::{self, Display};
use wasm_readers_values::{PackedIndex, ValType};

/// `i64 shared 1 10 funcref`: whether addresses have 64 bits, whether it is shared, the sizes in
/// elements, and what each place holds.
impl fmt::Display for TableType {
    fn fmt<W: fmt::Write>(&self, f: &mut fmt::Formatter<W>) -> fmt::Result {
        write_head(f, self.table64, self.shared)?;
        write_limits(f, self.initial, self.maximum)?;
        f.write_str(" ")?;
        self.element_type.fmt(f)
    }
}

/// `i64 shared 1 10 (pagesize 1)`: whether addresses have 64 bits, whether it is shared, the sizes
/// in pages, and the bytes of a page where they are written.
impl fmt::Display for MemoryType {
    fn fmt<W: fmt::Write>(&self, f: &mut fmt::Formatter<W>) -> fmt::Result {
        write_head(f, self.memory64, self.shared)?;
        write_limits(f, self.initial, self.maximum)?;
        match self.page_size_log2 {
            Some(0) => f.write_str(" (pagesize 1)"),
            Some(16) => f.write_str(" (pagesize 65536)"),
            Some(log2) => write!(f, " (pagesize 2^{log2})"),
            None => Ok(()),
        }
    }
}

/// A word and what follows it, with a brace behind.
fn write_braced<T: fmt::Display, W: fmt::Write>(
    f: &mut fmt::Formatter<W>,
    word: &str,
    value: &T,
) -> fmt::Result {
    f.write_str(word)?;
    value.fmt(f)?;
    f.write_str(")")
}

fn write_head<W: fmt::Write>(f: &mut fmt::Formatter<W>, is_64: bool, shared: bool) -> fmt::Result {
    match (is_64, shared) {
        (false, false) => Ok(()),
        (true, false) => f.write_str("i64 "),
        (false, true) => f.write_str("shared "),
        (true, true) => f.write_str("i64 shared "),
    }
}

fn write_limits<W: fmt::Write>(
    f: &mut fmt::Formatter<W>,
    initial: u64,
    maximum: Option<u64>,
) -> fmt::Result {
    write!(f, "{initial}")?;
    match maximum {
        Some(maximum) => write!(f, " {maximum}"),
        None => Ok(()),
    }
}

/// `i32`, `(mut i32)`, `(shared i32)` or `(shared mut i32)`.
impl fmt::Display for GlobalType {
    fn fmt<W: fmt::Write>(&self, f: &mut fmt::Formatter<W>) -> fmt::Result {
        let content = &self.content_type;
        match (self.shared, self.mutable) {
            (false, false) => content.fmt(f),
            (false, true) => write_braced(f, "(mut ", content),
            (true, false) => write_braced(f, "(shared ", content),
            (true, true) => write_braced(f, "(shared mut ", content),
        }
    }
}

/// `(func (id 3))`, `(func (exact (id 3)))`, `(table 1 funcref)`, `(memory 1)`,
/// `(global (mut i32))` or `(tag (id 3))`.
impl fmt::Display for EntityType {
    fn fmt<W: fmt::Write>(&self, f: &mut fmt::Formatter<W>) -> fmt::Result {
        match self {
            EntityType::Func(id) => write_braced(f, "(func ", id),
            EntityType::FuncExact(id) => {
                write_braced(f, "(func (exact ", id)?;
                f.write_str(")")
            }
            EntityType::Table(ty) => write_braced(f, "(table ", ty),
            EntityType::Memory(ty) => write_braced(f, "(memory ", ty),
            EntityType::Global(ty) => write_braced(f, "(global ", ty),
            EntityType::Tag(id) => write_braced(f, "(tag ", id),
        }
    }
}

/// `(func (param i32 i64) (result f32))`, without what is empty.
impl<A: Allocator> fmt::Display for FuncType<A> {
    ghost use Rattle.std.specs.Prelude.{Some, map};
    ghost use Rattle.wasm_readers_values.specs.SeenValues.{val_of};
    ghost use Rattle.wasm_readers_types.specs.Texts.{function_text};

    ghost output = { λ x. Some (function_text (map val_of x.params) (map val_of x.results)) };

    fn fmt<W: fmt::Write>(&self, f: &mut fmt::Formatter<W>) -> fmt::Result {
        f.write_str("(func")?;
        write_signature(f, self)?;
        f.write_str(")")
    }
}

/// Writes what a function type takes and gives, ` (param i32 i64) (result f32)`, each with a space
/// before it, and without what is empty.
pub fn write_signature<A: Allocator, W: fmt::Write>(
    f: &mut fmt::Formatter<W>,
    ty: &FuncType<A>,
) -> fmt::Result
    ensures { WritesOnOk W.write_str_gives f.old result
        (signature_text (map val_of ty.now.params) (map val_of ty.now.results)) f.new }
{
    write_values(f, " (param", ty.params())?;
    write_values(f, " (result", ty.results())
}

/// The value types behind this word, in braces, if there are any.
#[tactic(auto, using(crate::proofs::Texts::texts))]
fn write_values<W: fmt::Write>(
    f: &mut fmt::Formatter<W>,
    word: &str,
    types: &[ValType],
) -> fmt::Result
    ensures { WritesOnOk W.write_str_gives f.old result
        (values_text word.now (map val_of types.now)) f.new }
{
    if types.is_empty() {
        return Ok(());
    }
    f.write_str(word)?;
    write_each(f, types)?;
    f.write_str(")")
}

/// The value types, each with a space before it.
fn write_each<W: fmt::Write>(f: &mut fmt::Formatter<W>, types: &[ValType]) -> fmt::Result
    ensures { WritesOnOk W.write_str_gives f.old result (spaced (map val_of types.now)) f.new }
{
    'types: for ty in types {
        f.write_str(" ")?;
        ty.fmt(f)?;
    }
    Ok(())
}

/// `(array (mut i8))`.
impl fmt::Display for ArrayType {
    fn fmt<W: fmt::Write>(&self, f: &mut fmt::Formatter<W>) -> fmt::Result {
        write_braced(f, "(array ", &self.0)
    }
}

/// `(struct (field i32) (field (mut i8)))`.
impl<A: Allocator> fmt::Display for StructType<A> {
    fn fmt<W: fmt::Write>(&self, f: &mut fmt::Formatter<W>) -> fmt::Result {
        f.write_str("(struct")?;
        for field in self.fields.as_slice() {
            write_braced(f, " (field ", field)?;
        }
        f.write_str(")")
    }
}

/// `(cont (module 3))`.
impl fmt::Display for ContType {
    fn fmt<W: fmt::Write>(&self, f: &mut fmt::Formatter<W>) -> fmt::Result {
        write_braced(f, "(cont ", &self.0)
    }
}

impl<A: Allocator> fmt::Display for CompositeInnerType<A> {
    fn fmt<W: fmt::Write>(&self, f: &mut fmt::Formatter<W>) -> fmt::Result {
        match self {
            CompositeInnerType::Func(signature) => signature.fmt(f),
            CompositeInnerType::Array(array) => array.fmt(f),
            CompositeInnerType::Struct(structure) => structure.fmt(f),
            CompositeInnerType::Cont(continuation) => continuation.fmt(f),
        }
    }
}

/// The type, in `(shared ..)` where it is shared, behind `(describes (module 3))` and
/// `(descriptor (module 4))` where it has these clauses.
impl<A: Allocator> fmt::Display for CompositeType<A> {
    fn fmt<W: fmt::Write>(&self, f: &mut fmt::Formatter<W>) -> fmt::Result {
        write_clause(f, "(describes ", self.describes_idx)?;
        write_clause(f, "(descriptor ", self.descriptor_idx)?;
        if !self.shared {
            return self.inner.fmt(f);
        }
        f.write_str("(shared ")?;
        self.inner.fmt(f)?;
        f.write_str(")")
    }
}

/// A clause of this index, with a space behind, if there is one.
fn write_clause<W: fmt::Write>(
    f: &mut fmt::Formatter<W>,
    word: &str,
    index: Option<PackedIndex>,
) -> fmt::Result {
    match index {
        Some(index) => write_spaced(f, word, &index),
        None => Ok(()),
    }
}

/// The same, where there is one.
fn write_spaced<W: fmt::Write>(
    f: &mut fmt::Formatter<W>,
    word: &str,
    index: &PackedIndex,
) -> fmt::Result {
    write_braced(f, word, index)?;
    f.write_str(" ")
}

/// `(sub final (module 3) (func))`, and the composite type alone where it is final and extends
/// nothing.
impl<A: Allocator> fmt::Display for SubType<A> {
    fn fmt<W: fmt::Write>(&self, f: &mut fmt::Formatter<W>) -> fmt::Result {
        if self.is_final && self.supertype_idxs.is_empty() {
            self.composite_type.fmt(f)
        } else if self.is_final {
            write_sub(f, "(sub final ", self)
        } else {
            write_sub(f, "(sub ", self)
        }
    }
}

/// This word, and the sub type's supertypes and composite type.
fn write_sub<W: fmt::Write, A: Allocator>(
    f: &mut fmt::Formatter<W>,
    word: &str,
    ty: &SubType<A>,
) -> fmt::Result {
    f.write_str(word)?;
    write_supertypes(f, ty.supertype_idxs.as_slice())?;
    ty.composite_type.fmt(f)?;
    f.write_str(")")
}

/// The indices, each with a space behind.
fn write_supertypes<W: fmt::Write>(
    f: &mut fmt::Formatter<W>,
    indices: &[PackedIndex],
) -> fmt::Result {
    for index in indices {
        index.fmt(f)?;
        f.write_str(" ")?;
    }
    Ok(())
}
