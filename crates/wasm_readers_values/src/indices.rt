//! What types refer to other types by.
//!
//! A reference to a defined type is a type index (Core Specification 3.0, Structure, Types, Type
//! Use). As a type moves from a module into a list of types, the reference takes three forms:
//!
//! - `Module`: a type index of the module, as it is written there.
//! - `RecGroup`: a place in the recursion group that the reference stands in, counted from 0.
//!   So equal groups are written the same way, wherever they stand.
//! - `Id`: the id of a type in a list of types, which is its place there. It means the same
//!   type wherever it is written.
//!
//! [`UnpackedIndex`] has all of them. Types hold a [`PackedIndex`], which is five bytes: a form,
//! and a number of 32 bits in four bytes, the highest first. A place in a group or an id in it is
//! below [`MAX_IDS`]; a module's type index may be any `u32`.

ghost use Rattle.std.specs.Prelude.{◌≡◌, ◌<◌, Option, IfSome, IsSome, IsTrue, ◌↔◌};
ghost use Rattle.std.proofs.Common.{rules};
ghost use Rattle.wasm_readers_values.specs.declared.indices.TheConstants.{MAX_IDS};
ghost use Rattle.wasm_readers_values.specs.Indices.{number_of, number_in, AreBytes, indexed, Fits, IsId, module_of, place_of, id_of};

use crate::exact::{Exact, Faithful};
use std::fmt;

/// How many ids there are, and so how many types a list of types can have: 2²⁰. It is one more
/// than the largest id, and than the largest place in a recursion group, that a [`PackedIndex`]
/// holds. One module may have fewer types, 1,000,000.
pub const MAX_IDS: u32 = 1_048_576;

/// The id of a defined type in a list of types.
#[derive(Clone, Copy, PartialEq, Eq, PartialOrd, Ord, Hash, Debug)]
pub struct CoreTypeId {
    index: u32,
}

impl Exact for CoreTypeId {
    ghost use Rattle.wasm_readers_values.specs.IndicesExact.{id-exact};

    ghost exact = { id-exact };
}

impl Faithful for CoreTypeId {
    ghost faithful = { Prim.search rules };
}

impl CoreTypeId {
    /// The id with this number.
    pub fn from_index(index: u32) -> CoreTypeId
        ensures { result.index ≡ index }
    {
        CoreTypeId { index }
    }

    /// The number of the id: its place in the list of types.
    pub fn index(&self) -> usize
        ensures { result ≡ self.now.index }
    {
        self.index as usize
    }
}

/// What a type refers to another type by: a type index (Core Specification 3.0, Structure, Types, Type Use), in one of three forms.
#[derive(Clone, Copy, PartialEq, Eq, PartialOrd, Ord, Hash, Debug)]
pub enum UnpackedIndex {
    /// A type index of a module, as it is written there.
    Module(u32),
    /// A place in the recursion group that the reference stands in.
    RecGroup(u32),
    /// The id of a type in a list of types.
    Id(CoreTypeId),
}

impl Exact for UnpackedIndex {
    ghost use Rattle.wasm_readers_values.specs.IndicesExact.{unpacked-exact};

    ghost exact = { unpacked-exact };
}

impl Faithful for UnpackedIndex {
    ghost faithful = { Prim.search rules };
}

impl UnpackedIndex {
    ghost use Rattle.wasm_readers_values.specs.SeenValues.{index_of};

    /// The index packed: none where a place in a group or an id is [`MAX_IDS`] or more.
    pub fn pack(&self) -> Option<PackedIndex>
        ensures value { IfSome result (λ p. index_of p ≡ self.now) }
        ensures fits { IsSome result ↔ Fits self.now }
    {
        match *self {
            UnpackedIndex::Module(index) => Some(PackedIndex::from_module_index(index)),
            UnpackedIndex::RecGroup(index) => PackedIndex::from_rec_group_index(index),
            UnpackedIndex::Id(id) => PackedIndex::from_id(id),
        }
    }

    /// Whether it is an id, and so means the same type wherever it stands.
    pub fn is_canonical(&self) -> bool
        ensures { IsTrue result ↔ IsId self.now }
    {
        matches!(self, UnpackedIndex::Id(_))
    }

    /// The module's type index, where it is one.
    pub fn as_module_index(&self) -> Option<u32>
        ensures { result ≡ module_of self.now }
    {
        match self {
            UnpackedIndex::Module(index) => Some(*index),
            UnpackedIndex::RecGroup(_) | UnpackedIndex::Id(_) => None,
        }
    }

    /// The place in the recursion group, where it is one.
    pub fn as_rec_group_index(&self) -> Option<u32>
        ensures { result ≡ place_of self.now }
    {
        match self {
            UnpackedIndex::RecGroup(index) => Some(*index),
            UnpackedIndex::Module(_) | UnpackedIndex::Id(_) => None,
        }
    }

    /// The id, where it is one.
    pub fn as_core_type_id(&self) -> Option<CoreTypeId>
        ensures { result ≡ id_of self.now }
    {
        match self {
            UnpackedIndex::Id(id) => Some(*id),
            UnpackedIndex::Module(_) | UnpackedIndex::RecGroup(_) => None,
        }
    }
}

/// In which of its forms a packed index is.
#[derive(Clone, Copy, PartialEq, Eq, PartialOrd, Ord, Hash, Debug)]
enum IndexForm {
    Module,
    RecGroup,
    Id,
}

/// An [`UnpackedIndex`] whose place in a group or id is below [`MAX_IDS`], as types hold it: in five
/// bytes that may stand anywhere, the highest of the number first, so that a value type takes eight.
#[derive(Clone, Copy, PartialEq, Eq, PartialOrd, Ord, Hash)]
pub struct PackedIndex {
    form: IndexForm,
    highest: u8,
    high: u8,
    low: u8,
    lowest: u8,
    ghost bytes: { AreBytes highest high low lowest },
    ghost fits: { number_of (indexed form (number_in highest high low lowest)) < MAX_IDS },
}

impl Exact for PackedIndex {
    ghost use Rattle.wasm_readers_values.specs.IndicesExact.{packed-exact};

    ghost exact = { packed-exact };
}

impl Faithful for PackedIndex {
    ghost faithful = { Prim.search rules };
}

impl PackedIndex {
    ghost use Rattle.wasm_readers_values.specs.SeenValues.{index_of};

    /// The index in this form with this number.
    #[inline(always)]
    #[tactic(auto, using(crate::proofs::NumberBytes::packed_numbers))]
    fn of(form: IndexForm, number: u32) -> PackedIndex
        requires { number_of (indexed form number) < MAX_IDS }
        ensures { index_of result ≡ indexed form number }
    {
        PackedIndex {
            form,
            highest: (number / 16_777_216) as u8,
            high: (number / 65_536 % 256) as u8,
            low: (number / 256 % 256) as u8,
            lowest: (number % 256) as u8,
        }
    }

    /// The number of the index, in whichever form it is.
    #[inline(always)]
    fn number(&self) -> u32
        ensures { result ≡ number_in self.now.highest self.now.high self.now.low self.now.lowest }
    {
        self.highest as u32 * 16_777_216
            + self.high as u32 * 65_536
            + self.low as u32 * 256
            + self.lowest as u32
    }

    /// A type index of a module. Every one can be packed.
    pub fn from_module_index(index: u32) -> PackedIndex
        ensures { index_of result ≡ UnpackedIndex.Module index }
    {
        PackedIndex::of(IndexForm::Module, index)
    }

    /// A place in the recursion group that the reference stands in, where it is below [`MAX_IDS`].
    pub fn from_rec_group_index(index: u32) -> Option<PackedIndex>
        ensures value { IfSome result (λ p. index_of p ≡ UnpackedIndex.RecGroup index) }
        ensures fits { IsSome result ↔ (index < MAX_IDS) }
    {
        if index < MAX_IDS {
            Some(PackedIndex::of(IndexForm::RecGroup, index))
        } else {
            None
        }
    }

    /// An id, where it is below [`MAX_IDS`].
    pub fn from_id(id: CoreTypeId) -> Option<PackedIndex>
        ensures value { IfSome result (λ p. index_of p ≡ UnpackedIndex.Id id) }
        ensures fits { IsSome result ↔ (id.index < MAX_IDS) }
    {
        if id.index < MAX_IDS {
            Some(PackedIndex::of(IndexForm::Id, id.index))
        } else {
            None
        }
    }

    /// The index that this one packs. Its place in a group or its id is below [`MAX_IDS`].
    pub fn unpack(&self) -> UnpackedIndex
        ensures value { result ≡ index_of self.now }
        ensures fits { Fits result }
    {
        match self.form {
            IndexForm::Module => UnpackedIndex::Module(self.number()),
            IndexForm::RecGroup => UnpackedIndex::RecGroup(self.number()),
            IndexForm::Id => UnpackedIndex::Id(CoreTypeId::from_index(self.number())),
        }
    }

    /// Whether it is an id, and so means the same type wherever it stands.
    pub fn is_canonical(&self) -> bool
        ensures { IsTrue result ↔ IsId (index_of self.now) }
    {
        match self.form {
            IndexForm::Id => true,
            IndexForm::Module | IndexForm::RecGroup => false,
        }
    }

    /// The module's type index, where it is one.
    pub fn as_module_index(&self) -> Option<u32>
        ensures { result ≡ module_of (index_of self.now) }
    {
        match self.form {
            IndexForm::Module => Some(self.number()),
            IndexForm::RecGroup | IndexForm::Id => None,
        }
    }

    /// The place in the recursion group, where it is one.
    pub fn as_rec_group_index(&self) -> Option<u32>
        ensures { result ≡ place_of (index_of self.now) }
    {
        match self.form {
            IndexForm::RecGroup => Some(self.number()),
            IndexForm::Module | IndexForm::Id => None,
        }
    }

    /// The id, where it is one.
    pub fn as_core_type_id(&self) -> Option<CoreTypeId>
        ensures { result ≡ id_of (index_of self.now) }
    {
        match self.form {
            IndexForm::Id => Some(CoreTypeId::from_index(self.number())),
            IndexForm::Module | IndexForm::RecGroup => None,
        }
    }
}

impl fmt::Debug for PackedIndex {
    fn fmt<W: fmt::Write>(&self, f: &mut fmt::Formatter<W>) -> fmt::Result {
        self.unpack().fmt(f)
    }
}
