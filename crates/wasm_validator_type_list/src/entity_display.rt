//! Entities as text, with the function types that their ids stand for.

ghost use Rattle.std.specs.Prelude.{◌≡◌};

use crate::type_list::TypeList;
use std::alloc::{Allocator, Global};
use std::fmt;
use wasm_readers_types::{CompositeInnerType, CoreTypeId, EntityType, write_signature};

/// An entity that prints with its function type: [`TypeList::display`] makes it.
#[derive(Clone, Copy)]
pub struct EntityDisplay<'a, A: Allocator = Global> {
    /// The entity.
    pub entity: EntityType,
    /// The list that its ids are of.
    pub list: &'a TypeList<A>,
}

impl<A: Allocator + Copy> TypeList<A> {
    /// An entity whose ids are of this list, to be printed: a function as
    /// `(func (param i32) (result i64))`, one of exactly its type as `(func (exact (param i32)))`,
    /// and a tag as `(tag (param i32))`. An id that the list doesn't have, or that isn't of a
    /// function type, prints as `(id 3)`, and so do the ids in a signature. Other entities print as
    /// [`EntityType`] does.
    pub fn display(&self, entity: EntityType) -> EntityDisplay<'_, A>
        ensures entity { result.entity ≡ entity }
        ensures list { result.list.now ≡ self.now }
    {
        EntityDisplay { entity, list: self }
    }
}

/// What the type with this id takes and gives, between these words.
fn write_entity<A: Allocator + Copy, W: fmt::Write>(
    f: &mut fmt::Formatter<W>,
    head: &str,
    list: &TypeList<A>,
    id: CoreTypeId,
    tail: &str,
) -> fmt::Result {
    f.write_str(head)?;
    match list.get(id).map(|ty| &ty.composite_type.inner) {
        Some(CompositeInnerType::Func(ty)) => write_signature(f, ty)?,
        _ => write!(f, " {id}")?,
    }
    f.write_str(tail)
}

impl<'a, A: Allocator + Copy> fmt::Display for EntityDisplay<'a, A> {
    fn fmt<W: fmt::Write>(&self, f: &mut fmt::Formatter<W>) -> fmt::Result {
        let list = self.list;
        match self.entity {
            EntityType::Func(id) => write_entity(f, "(func", list, id, ")"),
            EntityType::FuncExact(id) => write_entity(f, "(func (exact", list, id, "))"),
            EntityType::Tag(id) => write_entity(f, "(tag", list, id, ")"),
            EntityType::Table(_) | EntityType::Memory(_) | EntityType::Global(_) => {
                self.entity.fmt(f)
            }
        }
    }
}
