//! Value types (Core Specification 3.0, Structure, Types), as plain data.
//!
//! A [`ValType`] is a type of numbers, that of vectors, or a [`RefType`]: whether null is allowed,
//! and a [`HeapType`], which is abstract, a defined type with its subtypes, or exactly one defined
//! type. A `RefType` keeps its index packed, so that a value type takes eight bytes. A
//! [`StorageType`] is what a field holds, and a [`FieldType`] says too whether the field can be
//! written.
//!
//! All are `Copy`, compare by `==` as contracts compare them (`Exact`), and have their meaning in
//! the abstract syntax in `specs/SeenValues.antt`.

ghost use Rattle.std.specs.Prelude.{◌≡◌, ◌≢◌, true, false, None, IfSome, IsSome, IsTrue, ◌↔◌};
ghost use Rattle.std.specs.Option.{option_map};
ghost use Rattle.std.specs.Bool.{Decides};
ghost use Rattle.wasm_readers_values.specs.Indices.{Fits};
ghost use Rattle.wasm_readers_values.specs.SeenValues.{val_of, storage_of, heap_of, ref_of, HeapFits, index_in, concrete_ref, index_of};
ghost use Rattle.wasm_spec.specs.Defaults.{unpack, has_default, reference_in};
ghost use Rattle.std.proofs.Common.{rules};

use crate::exact::{Exact, Faithful};
use crate::indices::{PackedIndex, UnpackedIndex};

/// The abstract heap types (Core Specification 3.0, Structure, Types, Heap Types), with those of
/// stack switching.
#[derive(Clone, Copy, PartialEq, Eq, Hash, Debug)]
pub enum AbstractHeapType {
    /// `func`: every function.
    Func,
    /// `extern`: every value of the host.
    Extern,
    /// `any`: every value that a module can take apart.
    Any,
    /// `none`: nothing below `any`.
    None,
    /// `noextern`: nothing below `extern`.
    NoExtern,
    /// `nofunc`: nothing below `func`.
    NoFunc,
    /// `eq`: what can be compared for identity.
    Eq,
    /// `struct`: every structure.
    Struct,
    /// `array`: every array.
    Array,
    /// `i31`: integers of 31 bits.
    I31,
    /// `exn`: every exception.
    Exn,
    /// `noexn`: nothing below `exn`.
    NoExn,
    /// `cont`: every continuation.
    Cont,
    /// `nocont`: nothing below `cont`.
    NoCont,
}

/// What a reference points to (Core Specification 3.0, Structure, Types, Heap Types).
#[derive(Clone, Copy, PartialEq, Eq, Hash, Debug)]
pub enum HeapType {
    /// An abstract heap type.
    Abstract {
        /// Whether it is shared between threads.
        shared: bool,
        /// Which one it is.
        ty: AbstractHeapType,
    },
    /// What a defined type or a subtype of it describes.
    Concrete(UnpackedIndex),
    /// What this defined type describes, and no proper subtype of it.
    Exact(UnpackedIndex),
}

/// A heap type whose index is packed.
#[derive(Clone, Copy, PartialEq, Eq, Hash, Debug)]
enum PackedHeap {
    Abstract { shared: bool, ty: AbstractHeapType },
    Concrete(PackedIndex),
    Exact(PackedIndex),
}

/// A reference type (Core Specification 3.0, Structure, Types, Reference Types).
#[derive(Clone, Copy, PartialEq, Eq, Hash, Debug)]
pub struct RefType {
    nullable: bool,
    heap: PackedHeap,
}

/// A value type (Core Specification 3.0, Structure, Types, Value Types).
#[derive(Clone, Copy, PartialEq, Eq, Hash, Debug)]
pub enum ValType {
    /// Integers of 32 bits.
    I32,
    /// Integers of 64 bits.
    I64,
    /// Floating-point numbers of 32 bits.
    F32,
    /// Floating-point numbers of 64 bits.
    F64,
    /// Vectors of 128 bits.
    V128,
    /// References.
    Ref(RefType),
}

/// What a field holds (Core Specification 3.0, Structure, Types, Aggregate Types).
#[derive(Clone, Copy, PartialEq, Eq, Hash, Debug)]
pub enum StorageType {
    /// Integers of 8 bits.
    I8,
    /// Integers of 16 bits.
    I16,
    /// A value.
    Val(ValType),
}

/// A field of a structure, or what an array holds (Core Specification 3.0, Structure, Types,
/// Aggregate Types).
#[derive(Clone, Copy, PartialEq, Eq, Hash, Debug)]
pub struct FieldType {
    /// What the field holds.
    pub element_type: StorageType,
    /// Whether the field can be written.
    pub mutable: bool,
}

impl Exact for AbstractHeapType {
    ghost use Rattle.wasm_readers_values.specs.ValuesExact.{abstract-exact};

    ghost exact = { abstract-exact };
}

impl Exact for HeapType {
    ghost use Rattle.wasm_readers_values.specs.ValuesExact.{heap-exact};

    ghost exact = { heap-exact };
}

impl Exact for RefType {
    ghost use Rattle.wasm_readers_values.specs.ValuesExact.{ref-exact};

    ghost exact = { ref-exact };
}

impl Exact for ValType {
    ghost use Rattle.wasm_readers_values.specs.ValuesExact.{val-exact};

    ghost exact = { val-exact };
}

impl Exact for StorageType {
    ghost use Rattle.wasm_readers_values.specs.ValuesExact.{storage-exact};

    ghost exact = { storage-exact };
}

impl Exact for FieldType {
    ghost use Rattle.wasm_readers_values.specs.ValuesExact.{field-exact};

    ghost exact = { field-exact };
}

impl Faithful for AbstractHeapType {
    ghost faithful = { Prim.search rules };
}

impl Faithful for HeapType {
    ghost faithful = { Prim.search rules };
}

impl Faithful for RefType {
    ghost faithful = { Prim.search rules };
}

impl Faithful for ValType {
    ghost faithful = { Prim.search rules };
}

impl Faithful for StorageType {
    ghost faithful = { Prim.search rules };
}

impl Faithful for FieldType {
    ghost faithful = { Prim.search rules };
}

/// A reference type to an abstract heap type that isn't shared, as a constant's value.
macro_rules! abstract_ref {
    ($nullable:expr, $ty:ident) => {
        RefType {
            nullable: $nullable,
            heap: PackedHeap::Abstract {
                shared: false,
                ty: AbstractHeapType::$ty,
            },
        }
    };
}

impl RefType {
    /// `(ref null func)`, written `funcref`.
    pub const FUNCREF: RefType = abstract_ref!(true, Func);
    /// `(ref func)`.
    pub const FUNC: RefType = abstract_ref!(false, Func);
    /// `(ref null extern)`, written `externref`.
    pub const EXTERNREF: RefType = abstract_ref!(true, Extern);
    /// `(ref extern)`.
    pub const EXTERN: RefType = abstract_ref!(false, Extern);
    /// `(ref null any)`, written `anyref`.
    pub const ANYREF: RefType = abstract_ref!(true, Any);
    /// `(ref any)`.
    pub const ANY: RefType = abstract_ref!(false, Any);
    /// `(ref null none)`, written `nullref`.
    pub const NULLREF: RefType = abstract_ref!(true, None);
    /// `(ref none)`.
    pub const NONE: RefType = abstract_ref!(false, None);
    /// `(ref null noextern)`, written `nullexternref`.
    pub const NULLEXTERNREF: RefType = abstract_ref!(true, NoExtern);
    /// `(ref noextern)`.
    pub const NOEXTERN: RefType = abstract_ref!(false, NoExtern);
    /// `(ref null nofunc)`, written `nullfuncref`.
    pub const NULLFUNCREF: RefType = abstract_ref!(true, NoFunc);
    /// `(ref nofunc)`.
    pub const NOFUNC: RefType = abstract_ref!(false, NoFunc);
    /// `(ref null eq)`, written `eqref`.
    pub const EQREF: RefType = abstract_ref!(true, Eq);
    /// `(ref eq)`.
    pub const EQ: RefType = abstract_ref!(false, Eq);
    /// `(ref null struct)`, written `structref`.
    pub const STRUCTREF: RefType = abstract_ref!(true, Struct);
    /// `(ref struct)`.
    pub const STRUCT: RefType = abstract_ref!(false, Struct);
    /// `(ref null array)`, written `arrayref`.
    pub const ARRAYREF: RefType = abstract_ref!(true, Array);
    /// `(ref array)`.
    pub const ARRAY: RefType = abstract_ref!(false, Array);
    /// `(ref null i31)`, written `i31ref`.
    pub const I31REF: RefType = abstract_ref!(true, I31);
    /// `(ref i31)`.
    pub const I31: RefType = abstract_ref!(false, I31);
    /// `(ref null exn)`, written `exnref`.
    pub const EXNREF: RefType = abstract_ref!(true, Exn);
    /// `(ref exn)`.
    pub const EXN: RefType = abstract_ref!(false, Exn);
    /// `(ref null noexn)`, written `nullexnref`.
    pub const NULLEXNREF: RefType = abstract_ref!(true, NoExn);
    /// `(ref noexn)`.
    pub const NOEXN: RefType = abstract_ref!(false, NoExn);
    /// `(ref null cont)`, written `contref`.
    pub const CONTREF: RefType = abstract_ref!(true, Cont);
    /// `(ref cont)`.
    pub const CONT: RefType = abstract_ref!(false, Cont);
    /// `(ref null nocont)`, written `nullcontref`.
    pub const NULLCONTREF: RefType = abstract_ref!(true, NoCont);
    /// `(ref nocont)`.
    pub const NOCONT: RefType = abstract_ref!(false, NoCont);

    /// The reference type to this heap type: none where the index in it can't be packed.
    pub fn new(nullable: bool, heap_type: HeapType) -> Option<RefType>
        ensures value { IfSome result (λ r. ref_of r
            ≡ record { nullable = nullable; heap = heap_of heap_type }) }
        ensures fits { IsSome result ↔ HeapFits heap_type }
    {
        let heap = match heap_type {
            HeapType::Abstract { shared, ty } => PackedHeap::Abstract { shared, ty },
            HeapType::Concrete(index) => PackedHeap::Concrete(index.pack()?),
            HeapType::Exact(index) => PackedHeap::Exact(index.pack()?),
        };
        Some(RefType { nullable, heap })
    }

    /// The reference type to what a defined type or a subtype of it describes.
    pub fn concrete(nullable: bool, index: PackedIndex) -> RefType
        ensures { ref_of result ≡ concrete_ref nullable (index_of index) }
    {
        RefType {
            nullable,
            heap: PackedHeap::Concrete(index),
        }
    }

    /// Whether null is among its values.
    pub fn is_nullable(&self) -> bool
        ensures { result ≡ (ref_of self.now).nullable }
    {
        self.nullable
    }

    /// What it points to. An index in it can be packed.
    pub fn heap_type(&self) -> HeapType
        ensures value { heap_of result ≡ (ref_of self.now).heap }
        ensures fits { HeapFits result }
    {
        match self.heap {
            PackedHeap::Abstract { shared, ty } => HeapType::Abstract { shared, ty },
            PackedHeap::Concrete(index) => HeapType::Concrete(index.unpack()),
            PackedHeap::Exact(index) => HeapType::Exact(index.unpack()),
        }
    }

    /// The index of the defined type that it points to, if it points to one.
    pub fn type_index(&self) -> Option<UnpackedIndex>
        ensures value { result ≡ index_in (ref_of self.now).heap }
        ensures fits { IfSome result Fits }
    {
        match self.heap {
            PackedHeap::Abstract { .. } => None,
            PackedHeap::Concrete(index) | PackedHeap::Exact(index) => Some(index.unpack()),
        }
    }

    /// The same type without null.
    pub fn as_non_null(&self) -> RefType
        ensures { ref_of result ≡ record (ref_of self.now) { nullable = false } }
    {
        RefType {
            nullable: false,
            heap: self.heap,
        }
    }

    /// The same type with null.
    pub fn nullable(&self) -> RefType
        ensures { ref_of result ≡ record (ref_of self.now) { nullable = true } }
    {
        RefType {
            nullable: true,
            heap: self.heap,
        }
    }
}

impl ValType {
    /// `(ref null func)`, written `funcref`.
    pub const FUNCREF: ValType = ValType::Ref(RefType::FUNCREF);
    /// `(ref null extern)`, written `externref`.
    pub const EXTERNREF: ValType = ValType::Ref(RefType::EXTERNREF);
    /// `(ref null exn)`, written `exnref`.
    pub const EXNREF: ValType = ValType::Ref(RefType::EXNREF);
    /// `(ref null cont)`, written `contref`.
    pub const CONTREF: ValType = ValType::Ref(RefType::CONTREF);

    /// Whether it is a reference type.
    pub fn is_reference_type(&self) -> bool
        ensures { IsTrue result ↔ (reference_in (val_of self.now) ≢ None) }
    {
        matches!(self, ValType::Ref(_))
    }

    /// The reference type, where it is one.
    pub fn as_reference_type(&self) -> Option<RefType>
        ensures { option_map ref_of result ≡ reference_in (val_of self.now) }
    {
        match self {
            ValType::Ref(ty) => Some(*ty),
            _ => None,
        }
    }

    /// Whether it has a default: numbers, vectors and references that may be null have one, 0 and
    /// null (Core Specification 3.0, Validation, Types, Defaultable Types).
    pub fn is_defaultable(&self) -> bool
        ensures { result ≡ has_default (val_of self.now) }
    {
        match self {
            ValType::Ref(ty) => ty.is_nullable(),
            _ => true,
        }
    }
}

impl StorageType {
    /// What a field of this type holds as a value: integers of 8 and of 16 bits are read as ones of
    /// 32 (Core Specification 3.0, Structure, Types, Aggregate Types).
    pub fn unpack(&self) -> ValType
        ensures { val_of result ≡ unpack (storage_of self.now) }
    {
        match self {
            StorageType::I8 | StorageType::I16 => ValType::I32,
            StorageType::Val(ty) => *ty,
        }
    }
}

/// Whether two value types are the same, and so say the same: what `==` says.
pub fn same_val(a: &ValType, b: &ValType) -> bool
    ensures same { Decides result (a.now ≡ b.now) }
    ensures seen { Decides result (val_of a.now ≡ val_of b.now) }
{
    *a == *b
}
