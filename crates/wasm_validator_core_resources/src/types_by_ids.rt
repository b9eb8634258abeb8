//! The types of a list with ids in the place of positions in their groups.

ghost use Rattle.std.specs.Prelude.{◌≡◌, ◌<◌, [], length, take, Some, IfOk, IsTrue, OnOk};
ghost use Rattle.std.specs.Option.{option_map};
ghost use Rattle.wasm_spec.specs.Syntax.{map_sub};
ghost use Rattle.wasm_readers_types.specs.SeenTypes.{sub_of};
ghost use Rattle.wasm_validator_type_list.specs.ListViews.{types_in};
ghost use Rattle.wasm_validator_type_list.specs.DeclarationsById.{declares};
ghost use Rattle.wasm_validator_type_list.specs.GroupOrder.{ReferByIds};
ghost use Rattle.wasm_validator_core_resources.specs.IndexContexts.{id_of};
ghost use Rattle.wasm_validator_core_resources.specs.ModuleContexts.{AreByIds};
ghost use Rattle.wasm_validator_core_resources.specs.ById.{AreFirstByIds, NoneAreFirst, AllAreFirst, FirstStayFirst};

use crate::by_ids::sub_type;
use std::alloc::{AllocError, Allocator, Global};
use std::marker::Model;
use wasm_readers_types::{CoreTypeId, SubType};
use wasm_validator_type_list::{SnapshotList, TypeList};

/// Copies of the types of a list, each under its id, with ids in the place of positions in their
/// groups, as operators compare them. They follow a list that grows: `update` copies the types that
/// were added since. Where no type of the list refers to a position, types that the list has
/// committed are the list's own, which aren't copied. A contract sees the types.
pub struct TypesByIds<A: Allocator = Global> {
    types: SnapshotList<SubType<A>, A>,
    shared: usize,
    alloc: A,
}

// By hand: so each way out takes one call for it, and not a step for each field.
impl<A: Allocator> Drop for TypesByIds<A> {
    fn drop(self) {
        let TypesByIds {
            types: _,
            shared: _,
            alloc: _,
        } = self;
    }
}

impl<A: Allocator> Model for TypesByIds<A> {
    ghost use Rattle.std.specs.Prelude.{List};
    ghost use Rattle.wasm_readers_types.specs.declared.types.SubType.{SubType};

    ghost Value = { List (SubType A) };

    ghost view = { λ a. a.types };
}

impl<A: Allocator + Copy> TypesByIds<A> {
    /// Those of no type. They take no memory until there is one.
    pub fn new(alloc: A) -> TypesByIds<A>
        ensures { result ≡ [] }
    {
        TypesByIds {
            types: SnapshotList::new(alloc),
            shared: 0,
            alloc,
        }
    }

    /// Those of all types of the list.
    ///
    /// # Errors
    ///
    /// Fails where memory is refused.
    pub fn of_list(alloc: A, list: &TypeList<A>) -> Result<TypesByIds<A>, AllocError>
        ensures { IfOk result (AreByIds list.now.groups) }
    {
        let mut types = TypesByIds::new(alloc);
        types.update(list)?;
        Ok(types)
    }

    /// The types, in the order of their ids.
    pub fn types(&self) -> &SnapshotList<SubType<A>, A>
        ensures { result.now ≡ self.now }
    {
        &self.types
    }

    /// Takes the types of the list that aren't there yet: those that the list has committed are its
    /// own, where it refers by ids alone, and others are copied. What is there must be the first
    /// types of this list, as it is where `update` was called with the list before it grew, or never.
    ///
    /// # Errors
    ///
    /// Fails where memory is refused, with some more of the first types there than before, or none.
    pub fn update(&mut self, list: &TypeList<A>) -> Result<(), AllocError>
        requires { AreFirstByIds list.now.groups self.old }
        ensures all { OnOk result (AreByIds list.now.groups self.new) }
        ensures first { AreFirstByIds list.now.groups self.new }
        ensures kept { take (length self.old) self.new ≡ self.old }
    {
        if self.may_share(list) {
            self.share_first(list)?;
        }
        self.copy_rest(list)
    }

    /// Whether types of the list could be shared that aren't: it refers by ids alone, and more types
    /// are to be taken, or it is committed.
    fn may_share(&self, list: &TypeList<A>) -> bool
        ensures { IsTrue result → ReferByIds (types_in list.now) }
    {
        if self.shared >= list.len() || (list.is_open() && self.types.len() >= list.len()) {
            return false;
        }
        list.refers_by_ids()
    }

    /// Makes the types those that the list has committed, where these are no fewer.
    ///
    /// # Errors
    ///
    /// Fails where memory is refused. Nothing changes then.
    fn share_first(&mut self, list: &TypeList<A>) -> Result<(), AllocError>
        requires first { AreFirstByIds list.now.groups self.old }
        requires ids { ReferByIds (types_in list.now) }
        ensures first { AreFirstByIds list.now.groups self.new }
        ensures kept { take (length self.old) self.new ≡ self.old }
    {
        let front = list.types().share_committed()?;
        if front.len() >= self.types.len() {
            self.shared = front.len();
            self.types = front;
        }
        Ok(())
    }

    /// Copies the types of the list that aren't there yet. What is there must be the first types of
    /// this list.
    ///
    /// # Errors
    ///
    /// Fails where memory is refused, with some more of the first types there than before, or none.
    fn copy_rest(&mut self, list: &TypeList<A>) -> Result<(), AllocError>
        requires { AreFirstByIds list.now.groups self.old }
        ensures all { OnOk result (AreByIds list.now.groups self.new) }
        ensures first { AreFirstByIds list.now.groups self.new }
        ensures kept { take (length self.old) self.new ≡ self.old }
    {
        for place in self.types.len()..list.len() {
            let ty = type_by_ids(self.alloc, list, place)?;
            self.types.push(ty)?;
        }
        Ok(())
    }

    /// Types of their own that are these, which stay as they were. No type is copied: both hold the
    /// same ones.
    ///
    /// # Errors
    ///
    /// Fails where memory is refused.
    pub fn commit(&mut self) -> Result<TypesByIds<A>, AllocError>
        ensures same { self.new ≡ self.old }
        ensures copy { IfOk result (λ copy. copy ≡ self.old) }
    {
        Ok(TypesByIds {
            types: self.types.commit()?,
            shared: self.shared,
            alloc: self.alloc,
        })
    }
}

/// A copy of the type at this place of the list, with ids in the place of positions in its group.
fn type_by_ids<A: Allocator + Copy>(
    alloc: A,
    list: &TypeList<A>,
    place: usize,
) -> Result<SubType<A>, AllocError>
    requires { place < length (types_in list.now) }
    ensures { IfOk result (λ s. option_map (map_sub id_of) (declares list.now.groups place)
        ≡ Some (sub_of s)) }
{
    list.recall_promises();
    let id = CoreTypeId::from_index(place as u32);
    let group = list.rec_group_id_of(id);
    let start = list[group].start.index() as u32;
    sub_type(alloc, start, &list[id])
}

/// What `update` asks holds of no types, of all types of the list, and still where the list has
/// grown.
pub fn first_types<A>()
    ensures none { NoneAreFirst A }
    ensures all { AllAreFirst A }
    ensures grown { FirstStayFirst A }
{}
