//! Subtyping of any two ids, also such as the list doesn't have.

ghost use Rattle.std.specs.Prelude.{◌≡◌};
ghost use Rattle.std.specs.Bool.{Decides};
ghost use Rattle.wasm_readers_errors.specs.WasmSpec.SupertypeOrder.{IsAncestor};
ghost use Rattle.wasm_validator_type_list.specs.DeclarationsById.{declares};
ghost use Rattle.wasm_validator_type_list.specs.Worlds.{ids_world};

use crate::type_list::TypeList;
use std::alloc::Allocator;
use wasm_readers_types::CoreTypeId;

impl<A: Allocator + Copy> TypeList<A> {
    /// Whether the second id is the first or that of one of its declared ancestors (Core
    /// Specification 3.0, Validation, Matching, Defined Types), for any two ids: one that the list
    /// doesn't have is below no other, and no other is below it. It takes no memory.
    pub fn id_is_below(&self, a: CoreTypeId, b: CoreTypeId) -> bool
        ensures decides { Decides result (IsAncestor (declares self.now.groups) a.index b.index) }
        ensures world { result ≡ (ids_world self.now.groups).below a.index b.index }
    {
        let known = self.len();
        if known <= a.index() {
            return a.index() == b.index();
        }
        if known <= b.index() {
            return false;
        }
        self.id_is_subtype(a, b)
    }
}
