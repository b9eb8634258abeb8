//! Ids of types and of recursion groups as two traits, for code that treats both alike: what each
//! stands for in a list of types, and how large that is.

ghost use Rattle.std.specs.Prelude.{◌≡◌, ◌<◌, ◌^◌, ℕ, Bool, true, false, List};
ghost use Rattle.wasm_validator_matches.specs.Sizes.{size_of_inner};

use std::alloc::Allocator;
use std::fmt::Debug;
use std::ops::Range;
use wasm_readers_types::{CompositeInnerType, CoreTypeId, SubType};
use wasm_validator_type_list::{RecGroupId, SnapshotList, TypeList};

/// What is known of a type before it is looked at: how large it is.
#[derive(Clone, Copy, PartialEq, Eq, PartialOrd, Ord, Hash, Debug)]
pub struct TypeInfo {
    size: u32,
}

impl TypeInfo {
    /// Of this size, in parts, which must be below 2²⁴.
    pub fn of_size(size: u32) -> TypeInfo
        requires { size < 2 ^ 24 }
        ensures { result.size ≡ size }
    {
        TypeInfo { size }
    }

    /// How large the type is, in parts: a function type has one for each parameter and result and
    /// two more, an array type three, a structure type two for each field and two more, a
    /// continuation type two, and a group one for each of its types.
    pub fn size(&self) -> u32
        ensures { result ≡ self.now.size }
    {
        self.size
    }
}

/// What ids in a list of types stand for.
pub trait TypeData<A: Allocator>: Debug {
    /// The ids of this kind of data.
    type Id;

    /// Whether it is a sub type.
    const IS_CORE_SUB_TYPE: bool;

    ghost IS_CORE_SUB_TYPE: { Bool };

    ghost size: { Self → ℕ };

    /// How large it is. The size has to fit 24 bits.
    fn type_info(&self, types: &TypeList<A>) -> TypeInfo
        requires fits { size self.now < 2 ^ 24 }
        ensures { result.size ≡ size self.now };
}

/// Ids in a list of types.
pub trait TypeIdentifier<A: Allocator>: Debug + Copy + Eq + Sized {
    /// What the ids stand for.
    type Data: TypeData<A, Id = Self>;

    ghost number: { Self → ℕ };

    ghost use Rattle.wasm_validator_type_list.specs.ListViews.{Listing};

    ghost all: { Listing A → List Self.Data };

    /// The id with this number.
    fn from_index(index: u32) -> Self
        ensures { number result ≡ index };

    /// What the ids of the list stand for, in order.
    fn list(types: &TypeList<A>) -> &SnapshotList<Self::Data, A>
        ensures { result.now ≡ all types.now };

    /// The number of the id.
    fn index(&self) -> usize
        ensures { result ≡ number self.now };
}

impl<A: Allocator> TypeData<A> for SubType<A> {
    type Id = CoreTypeId;

    const IS_CORE_SUB_TYPE: bool = true;

    ghost IS_CORE_SUB_TYPE = { true };

    ghost use Rattle.wasm_validator_matches.specs.Sizes.{size_of_sub};

    ghost size = { size_of_sub };

    fn type_info(&self, _types: &TypeList<A>) -> TypeInfo {
        TypeInfo::of_size(inner_size(&self.composite_type.inner))
    }
}

/// How large a type is, its flags aside.
fn inner_size<A: Allocator>(inner: &CompositeInnerType<A>) -> u32
    requires { size_of_inner inner.now < 2 ^ 24 }
    ensures { result ≡ size_of_inner inner.now }
{
    match inner {
        CompositeInnerType::Func(signature) => {
            2 + signature.params().len() as u32 + signature.results().len() as u32
        }
        CompositeInnerType::Array(_) => 3,
        CompositeInnerType::Struct(structure) => 2 + 2 * structure.fields.len() as u32,
        CompositeInnerType::Cont(_) => 2,
    }
}

impl<A: Allocator + Copy> TypeIdentifier<A> for CoreTypeId {
    type Data = SubType<A>;

    ghost use Rattle.wasm_validator_type_list.specs.ListViews.{types_in};

    ghost number = { λ id. id.index };

    ghost all = { types_in };

    fn from_index(index: u32) -> CoreTypeId {
        CoreTypeId::from_index(index)
    }

    fn list(types: &TypeList<A>) -> &SnapshotList<SubType<A>, A> {
        types.types()
    }

    fn index(&self) -> usize {
        CoreTypeId::index(self)
    }
}

impl<A: Allocator> TypeData<A> for Range<CoreTypeId> {
    type Id = RecGroupId;

    const IS_CORE_SUB_TYPE: bool = false;

    ghost IS_CORE_SUB_TYPE = { false };

    ghost use Rattle.wasm_validator_matches.specs.Sizes.{size_of_group};

    ghost size = { size_of_group };

    fn type_info(&self, _types: &TypeList<A>) -> TypeInfo {
        TypeInfo::of_size(self.end.index().saturating_sub(self.start.index()) as u32)
    }
}

impl<A: Allocator + Copy> TypeIdentifier<A> for RecGroupId {
    type Data = Range<CoreTypeId>;

    ghost use Rattle.wasm_validator_type_list.specs.WasmValidatorTypeGroups.Spans.{spans_of};

    ghost number = { λ id. id.index };

    ghost all = { λ types. spans_of types.groups };

    fn from_index(index: u32) -> RecGroupId {
        RecGroupId::from_index(index)
    }

    fn list(types: &TypeList<A>) -> &SnapshotList<Range<CoreTypeId>, A> {
        types.rec_groups()
    }

    fn index(&self) -> usize {
        RecGroupId::index(self)
    }
}
