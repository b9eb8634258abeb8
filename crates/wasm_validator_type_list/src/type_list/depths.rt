//! How many proper ancestors types have, kept in a list.

ghost use Rattle.std.specs.Prelude.{◌≡◌, ◌<◌, length, IfSome, IsSome, IsTrue, OnOk, OnErr};
ghost use Rattle.std.specs.declared.option.Option.TheVariants.{None, Some};
ghost use Rattle.wasm_readers_errors.specs.WasmSpec.SupertypeOrder.{IsDepth};
ghost use Rattle.wasm_validator_type_list.specs.ListViews.{types_in, with_depths};
ghost use Rattle.wasm_validator_type_list.specs.DeclarationsById.{declares};
ghost use Rattle.wasm_validator_type_list.specs.Depths.{depth_of, with_depth, HasDepth};

use crate::type_list::TypeList;
use std::alloc::{AllocError, Allocator};
use wasm_readers_types::CoreTypeId;

impl<A: Allocator + Copy> TypeList<A> {
    /// Keeps the depth of a type of which none is kept: the number of its proper ancestors (Core
    /// Specification 3.0, Validation, Matching, Defined Types).
    ///
    /// # Errors
    ///
    /// Refused where memory is. The list then stays as it was.
    pub fn set_subtyping_depth(&mut self, id: CoreTypeId, depth: u8) -> Result<(), AllocError>
        requires open { IsTrue self.old.is_open }
        requires there { id.index < length (types_in self.old) }
        requires once { depth_of self.old.depths id.index ≡ None }
        requires right { IsDepth (declares self.old.groups) id.index depth }
        ensures ok { OnOk result (self.new ≡ with_depths self.old
            (with_depth self.old.depths id.index depth)) }
        ensures err { OnErr result (self.new ≡ self.old) }
    {
        self.depths.put(id.index() as u32, depth)?;
        Ok(())
    }

    /// The depth of the type with this id, if it is kept. A committed list keeps none.
    pub fn subtyping_depth(&self, id: CoreTypeId) -> Option<u8>
        ensures kept { result ≡ depth_of self.now.depths id.index }
        ensures right { IfSome result (HasDepth self.now.groups id.index) }
    {
        self.depths.get(id.index() as u32)
    }

    /// The depth of the type with this id, which is kept. A committed list keeps none.
    pub fn get_subtyping_depth(&self, id: CoreTypeId) -> u8
        requires kept { IsSome (depth_of self.now.depths id.index) }
        ensures kept { depth_of self.now.depths id.index ≡ Some result }
        ensures right { IsDepth (declares self.now.groups) id.index result }
    {
        match self.subtyping_depth(id) {
            Some(depth) => depth,
            None => unreachable!(),
        }
    }
}
