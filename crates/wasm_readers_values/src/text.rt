//! Value types in the text format (Core Specification 3.0, Text Format, Types), with indices that say
//! what they are.

ghost use Rattle.std.specs.Prelude.{◌≡◌, option_map};
ghost use Rattle.std.specs.Fmt.{DisplaysOnOk, WritesOnOk, decimal};
ghost use Rattle.wasm_readers_values.specs.SeenValues.{abstract_heap_of};
ghost use Rattle.wasm_readers_values.specs.Texts.{braced, heap_name, reference_name};

use crate::indices::{CoreTypeId, PackedIndex, UnpackedIndex};
use crate::values::{AbstractHeapType, FieldType, HeapType, RefType, StorageType, ValType};
use std::fmt;

impl AbstractHeapType {
    /// The heap type's name.
    fn name<'a>(self) -> &'a str
        ensures { result.now ≡ heap_name (abstract_heap_of self) }
    {
        match self {
            AbstractHeapType::Func => "func",
            AbstractHeapType::Extern => "extern",
            AbstractHeapType::Any => "any",
            AbstractHeapType::None => "none",
            AbstractHeapType::NoExtern => "noextern",
            AbstractHeapType::NoFunc => "nofunc",
            AbstractHeapType::Eq => "eq",
            AbstractHeapType::Struct => "struct",
            AbstractHeapType::Array => "array",
            AbstractHeapType::I31 => "i31",
            AbstractHeapType::Exn => "exn",
            AbstractHeapType::NoExn => "noexn",
            AbstractHeapType::Cont => "cont",
            AbstractHeapType::NoCont => "nocont",
        }
    }

    /// The short name of the nullable references to this heap type.
    fn reference_name<'a>(self) -> &'a str
        ensures { result.now ≡ reference_name (abstract_heap_of self) }
    {
        match self {
            AbstractHeapType::Func => "funcref",
            AbstractHeapType::Extern => "externref",
            AbstractHeapType::Any => "anyref",
            AbstractHeapType::None => "nullref",
            AbstractHeapType::NoExtern => "nullexternref",
            AbstractHeapType::NoFunc => "nullfuncref",
            AbstractHeapType::Eq => "eqref",
            AbstractHeapType::Struct => "structref",
            AbstractHeapType::Array => "arrayref",
            AbstractHeapType::I31 => "i31ref",
            AbstractHeapType::Exn => "exnref",
            AbstractHeapType::NoExn => "nullexnref",
            AbstractHeapType::Cont => "contref",
            AbstractHeapType::NoCont => "nullcontref",
        }
    }
}

/// A word and what follows it, with a brace behind.
fn write_braced<T: fmt::Display, W: fmt::Write>(
    f: &mut fmt::Formatter<W>,
    word: &str,
    value: &T,
) -> fmt::Result
    ensures { DisplaysOnOk W.write_str_gives f.old result
        (option_map (braced word.now) (T.output value.now)) f.new }
{
    f.write_str(word)?;
    value.fmt(f)?;
    f.write_str(")")
}

/// The same of a number, which is written without the options of the formatter.
fn write_numbered<W: fmt::Write>(
    f: &mut fmt::Formatter<W>,
    word: &str,
    number: usize,
) -> fmt::Result
    ensures { WritesOnOk W.write_str_gives f.old result (braced word.now (decimal number)) f.new }
{
    write!(f, "{word}{number})")
}

/// `(id 3)`: the number is the type's place in the list of types.
impl fmt::Display for CoreTypeId {
    ghost use Rattle.std.specs.Prelude.{Some};
    ghost use Rattle.wasm_readers_values.specs.declared.indices.UnpackedIndex.TheVariants.{Id};
    ghost use Rattle.wasm_readers_values.specs.Texts.{index_text};

    ghost output = { λ x. Some (index_text (Id x)) };

    fn fmt<W: fmt::Write>(&self, f: &mut fmt::Formatter<W>) -> fmt::Result {
        write_numbered(f, "(id ", self.index())
    }
}

/// `(module 3)`, `(recgroup 3)` or `(id 3)`: a type index of a module, a place in the recursion group,
/// or the id of a type.
impl fmt::Display for UnpackedIndex {
    ghost use Rattle.std.specs.Prelude.{Some};
    ghost use Rattle.wasm_readers_values.specs.Texts.{index_text};

    ghost output = { λ x. Some (index_text x) };

    fn fmt<W: fmt::Write>(&self, f: &mut fmt::Formatter<W>) -> fmt::Result {
        match *self {
            UnpackedIndex::Module(number) => write_numbered(f, "(module ", number as usize),
            UnpackedIndex::RecGroup(number) => write_numbered(f, "(recgroup ", number as usize),
            UnpackedIndex::Id(id) => id.fmt(f),
        }
    }
}

/// As the index that it packs.
impl fmt::Display for PackedIndex {
    ghost use Rattle.std.specs.Prelude.{Some};
    ghost use Rattle.wasm_readers_values.specs.SeenValues.{index_of};
    ghost use Rattle.wasm_readers_values.specs.Texts.{index_text};

    ghost output = { λ x. Some (index_text (index_of x)) };

    fn fmt<W: fmt::Write>(&self, f: &mut fmt::Formatter<W>) -> fmt::Result {
        self.unpack().fmt(f)
    }
}

impl fmt::Display for HeapType {
    ghost use Rattle.std.specs.Prelude.{Some};
    ghost use Rattle.wasm_readers_values.specs.SeenValues.{heap_of};
    ghost use Rattle.wasm_readers_values.specs.Texts.{heap_text};

    ghost output = { λ x. Some (heap_text (heap_of x)) };

    fn fmt<W: fmt::Write>(&self, f: &mut fmt::Formatter<W>) -> fmt::Result {
        match self {
            HeapType::Abstract { shared, ty } => {
                let name = ty.name();
                if *shared {
                    f.write_str("(shared ")?;
                    f.write_str(name)?;
                    f.write_str(")")
                } else {
                    f.write_str(name)
                }
            }
            HeapType::Concrete(index) => index.fmt(f),
            HeapType::Exact(index) => write_braced(f, "(exact ", index),
        }
    }
}

impl fmt::Display for RefType {
    ghost use Rattle.std.specs.Prelude.{Some};
    ghost use Rattle.wasm_readers_values.specs.SeenValues.{ref_of};
    ghost use Rattle.wasm_readers_values.specs.Texts.{reference_text};

    ghost output = { λ x. Some (reference_text (ref_of x).nullable (ref_of x).heap) };

    fn fmt<W: fmt::Write>(&self, f: &mut fmt::Formatter<W>) -> fmt::Result {
        let heap = self.heap_type();
        if !self.is_nullable() {
            return write_braced(f, "(ref ", &heap);
        }
        match heap {
            HeapType::Abstract { shared: false, ty } => f.write_str(ty.reference_name()),
            _ => write_braced(f, "(ref null ", &heap),
        }
    }
}

impl fmt::Display for ValType {
    ghost use Rattle.std.specs.Prelude.{Some};
    ghost use Rattle.wasm_readers_values.specs.SeenValues.{val_of};
    ghost use Rattle.wasm_readers_values.specs.Texts.{val_text};

    ghost output = { λ x. Some (val_text (val_of x)) };

    fn fmt<W: fmt::Write>(&self, f: &mut fmt::Formatter<W>) -> fmt::Result {
        match self {
            ValType::I32 => f.write_str("i32"),
            ValType::I64 => f.write_str("i64"),
            ValType::F32 => f.write_str("f32"),
            ValType::F64 => f.write_str("f64"),
            ValType::V128 => f.write_str("v128"),
            ValType::Ref(ty) => ty.fmt(f),
        }
    }
}

impl fmt::Display for StorageType {
    fn fmt<W: fmt::Write>(&self, f: &mut fmt::Formatter<W>) -> fmt::Result {
        match self {
            StorageType::I8 => f.write_str("i8"),
            StorageType::I16 => f.write_str("i16"),
            StorageType::Val(ty) => ty.fmt(f),
        }
    }
}

/// `i32`, or `(mut i32)` where the field can be written.
impl fmt::Display for FieldType {
    fn fmt<W: fmt::Write>(&self, f: &mut fmt::Formatter<W>) -> fmt::Result {
        if self.mutable {
            write_braced(f, "(mut ", &self.element_type)
        } else {
            self.element_type.fmt(f)
        }
    }
}
