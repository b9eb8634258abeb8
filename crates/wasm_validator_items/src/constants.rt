//! What the typing of constant expressions uses from one item and one section to the next.

ghost use Rattle.std.specs.Prelude.{◌≡◌, [], IfOk, OnOk};
ghost use Rattle.wasm_spec.specs.TypeLaws.{HasNoRepetition};
ghost use Rattle.wasm_validator_types.specs.WasmValidatorTypeList.DefTypes.{types_of_list};
ghost use Rattle.wasm_validator_types.specs.WasmValidatorTypeList.GroupOrder.{AreListable};
ghost use Rattle.wasm_validator_core_resources.specs.ById.{AreFirstByIds};
ghost use Rattle.wasm_validator_core_resources.specs.ModuleContexts.{AreByIds};

use std::alloc::{AllocError, Allocator, Global};
use wasm_validator_core_resources::TypesByIds;
use wasm_validator_segments::ExpressionMemory;
use wasm_validator_types::TypeList;

/// The types of a list with ids in the place of positions in their groups, which follow the list as
/// it grows, and the memory that constant expressions are typed in.
pub struct Constants<A: Allocator = Global> {
    /// The first types of the list, or all.
    pub types: TypesByIds<A>,
    /// What constant expressions are typed in.
    pub memory: ExpressionMemory<A>,
}

// By hand: so each way out takes one call for it, and not a step for each field.
impl<A: Allocator> Drop for Constants<A> {
    fn drop(self) {
        let Constants {
            types: _,
            memory: _,
        } = self;
    }
}

impl<A: Allocator + Copy> Constants<A> {
    /// Those of no type. They take no memory yet.
    pub fn new(alloc: A) -> Constants<A>
        ensures { result.types ≡ [] }
    {
        Constants {
            types: TypesByIds::new(alloc),
            memory: ExpressionMemory::new(alloc),
        }
    }

    /// Makes the types those of the list. What is there must be the first types of this list, as it
    /// is where this was called with the list before it grew, or never.
    ///
    /// # Errors
    ///
    /// Fails where memory is refused.
    pub fn update(&mut self, list: &TypeList<A>) -> Result<(), AllocError>
        requires { AreFirstByIds list.now.groups self.old.types }
        ensures all { OnOk result (AreByIds list.now.groups self.new.types) }
        ensures first { AreFirstByIds list.now.groups self.new.types }
    {
        Ok(self.types.update(list)?)
    }

    /// The types of the list, which stay there too: none that was there before is copied. What is
    /// there must be the first types of this list.
    ///
    /// # Errors
    ///
    /// Fails where memory is refused.
    pub fn committed(&mut self, list: &TypeList<A>) -> Result<TypesByIds<A>, AllocError>
        requires { AreFirstByIds list.now.groups self.old.types }
        ensures all { IfOk result (AreByIds list.now.groups) }
        ensures first { AreFirstByIds list.now.groups self.new.types }
    {
        self.types.update(list)?;
        self.types.commit()
    }
}

/// Asks the list for what it promises: its groups may stand one behind another, and no two ids
/// stand for one type. So its ids declare what its types do.
pub fn tells_types_apart<A: Allocator + Copy>(list: &TypeList<A>)
    ensures listable { AreListable list.now.groups }
    ensures apart { HasNoRepetition (types_of_list list.now) }
{
    let _count = list.len();
}
