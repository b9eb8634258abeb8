//! The list of types of a validator, under the Rust crate's name: it is used like the list itself.

ghost use Rattle.std.specs.Prelude.{◌≡◌};
ghost use Rattle.std.specs.Borrow.{Lends, sem};
ghost use Rattle.wasm_validator_type_list.specs.contracts.type_list.TypeList.{the_row as list_row};
ghost use Rattle.wasm_validator_type_list.specs.contracts.type_alloc.TypeAlloc.{the_row};

use crate::type_list::TypeList;
use std::alloc::{Allocator, Global};
use std::ops::{Deref, DerefMut, Index, Range};
use wasm_readers_types::{CoreTypeId, SubType};
use wasm_validator_type_ancestors::validator_type_groups::RecGroupId;

/// The list of types to which a validator adds.
#[derive(Drop)]
pub struct TypeAlloc<A: Allocator = Global> {
    list: TypeList<A>,
}

impl<A: Allocator + Copy> TypeAlloc<A> {
    ghost use Rattle.wasm_validator_type_list.specs.ListViews.{no_groups};

    /// The list of no groups. It takes no memory until groups are added.
    pub fn new(alloc: A, is_canonical: bool) -> TypeAlloc<A>
        ensures { result.list ≡ no_groups is_canonical }
    {
        TypeAlloc {
            list: TypeList::new(alloc, is_canonical),
        }
    }
}

impl<A: Allocator> Deref for TypeAlloc<A> {
    type Target = TypeList<A>;

    ghost deref_gives = { λ types list. list ≡ types.list };

    fn deref(&self) -> &TypeList<A> {
        &self.list
    }
}

impl<A: Allocator> DerefMut for TypeAlloc<A> {
    ghost deref_mut_gives = { λ types list. list ≡ types.list };

    fn deref_mut(&mut self) -> &mut TypeList<A>
        ensures* writes_back { sem 𝓛 (Lends (the_row A.row A.Allocator) (list_row A.row A.Allocator)
            self.entry result (λ list. record { list = list })) }
        ensures value { result.now ≡ self.old.list }
    {
        &mut self.list
    }
}

impl<A: Allocator + Copy> Index<CoreTypeId> for TypeAlloc<A> {
    type Output = SubType<A>;

    ghost use Rattle.std.specs.Prelude.{◌≡◌, ◌<◌, length, slice_index_or};
    ghost use Rattle.wasm_validator_type_list.specs.ListViews.{types_in};

    ghost can_index = { λ types id. id.index < length (types_in types.list) };

    ghost index_gives = { λ types id ty. ty ≡ slice_index_or (types_in types.list) id.index ty };

    fn index(&self, id: CoreTypeId) -> &SubType<A> {
        &self.list[id]
    }
}

impl<A: Allocator + Copy> Index<RecGroupId> for TypeAlloc<A> {
    type Output = Range<CoreTypeId>;

    ghost use Rattle.std.specs.Prelude.{◌≡◌, ◌<◌, ◌+◌, length};
    ghost use Rattle.wasm_validator_type_list.specs.Lookups.{group_span};

    ghost can_index = { λ types group. group.index < length types.list.groups };

    ghost index_gives = { λ types group ids. ids ≡ group_span types.list.groups group.index };

    fn index(&self, group: RecGroupId) -> &Range<CoreTypeId> {
        &self.list[group]
    }
}
