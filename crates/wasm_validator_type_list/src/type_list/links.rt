//! What may be linked to an import (Core Specification 3.0, Validation, Matching, Table Types, Global
//! Types, Tag Types and External Types).

ghost use Rattle.std.specs.Prelude.{length};
ghost use Rattle.std.specs.Bool.{Decides};
ghost use Rattle.wasm_readers_errors.specs.WasmSpec.LinkMatching.{MatchesExtern, MatchesTable, MatchesGlobal};
ghost use Rattle.wasm_readers_types.specs.Entities.{entity_of};
ghost use Rattle.wasm_validator_type_list.specs.ListViews.{types_in};
ghost use Rattle.wasm_validator_type_list.specs.DeclarationsById.{declares};
ghost use Rattle.wasm_validator_type_list.specs.Subtyping.{IsRefOver, IsValOver, IsEntityOver, table_by_ids, global_by_ids, entity_by_ids};

use crate::type_list::TypeList;
use std::alloc::Allocator;
use wasm_readers_types::{EntityType, GlobalType, TableType, limits_match};

impl<A: Allocator + Copy> TypeList<A> {
    /// Whether what has the first type may be linked to an import that asks for the second (Core
    /// Specification 3.0, Validation, Matching, External Types). A function of exactly one type may
    /// be linked where that type or one above it is asked for, and any other only where a function
    /// need not have exactly its type.
    pub fn entity_is_subtype(&self, a: EntityType, b: EntityType) -> bool
        requires sub { IsEntityOver (length (types_in self.now)) (entity_of a) }
        requires sup { IsEntityOver (length (types_in self.now)) (entity_of b) }
        ensures { Decides result (MatchesExtern (declares self.now.groups)
            (entity_by_ids a) (entity_by_ids b)) }
    {
        match (a, b) {
            (EntityType::Func(a), EntityType::Func(b))
            | (EntityType::FuncExact(a), EntityType::Func(b)) => self.id_is_subtype(a, b),
            (EntityType::FuncExact(a), EntityType::FuncExact(b)) => a.index() == b.index(),
            (EntityType::Table(a), EntityType::Table(b)) => self.table_is_subtype(a, b),
            (EntityType::Memory(a), EntityType::Memory(b)) => a.is_subtype_of(&b),
            (EntityType::Global(a), EntityType::Global(b)) => self.global_is_subtype(a, b),
            (EntityType::Tag(a), EntityType::Tag(b)) => {
                self.id_is_subtype(a, b) && self.id_is_subtype(b, a)
            }
            _ => false,
        }
    }

    /// Whether a table of the first type may be linked where one of the second is asked for.
    fn table_is_subtype(&self, a: TableType, b: TableType) -> bool
        requires sub { IsRefOver (length (types_in self.now)) a.element_type }
        requires sup { IsRefOver (length (types_in self.now)) b.element_type }
        ensures { Decides result (MatchesTable (declares self.now.groups)
            (table_by_ids a) (table_by_ids b)) }
    {
        if a.table64 != b.table64 || a.shared != b.shared {
            return false;
        }
        if !limits_match(a.initial, a.maximum, b.initial, b.maximum) {
            return false;
        }
        self.reftype_is_subtype(a.element_type, b.element_type)
            && self.reftype_is_subtype(b.element_type, a.element_type)
    }

    /// Whether a global of the first type may be linked where one of the second is asked for.
    fn global_is_subtype(&self, a: GlobalType, b: GlobalType) -> bool
        requires sub { IsValOver (length (types_in self.now)) a.content_type }
        requires sup { IsValOver (length (types_in self.now)) b.content_type }
        ensures { Decides result (MatchesGlobal (declares self.now.groups)
            (global_by_ids a) (global_by_ids b)) }
    {
        if a.mutable != b.mutable || a.shared != b.shared {
            return false;
        }
        self.valtype_is_subtype(a.content_type, b.content_type)
            && (!a.mutable || self.valtype_is_subtype(b.content_type, a.content_type))
    }
}
