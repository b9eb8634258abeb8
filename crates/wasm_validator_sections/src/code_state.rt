//! What is kept of a module once its code section has started.

ghost use Rattle.std.specs.Prelude.{◌≡◌, ◌-◌, ◌+◌, ◌==◌, suc, not, length, slice_get, is_ok, is_some, IfOk, IfErr, OnOk, OnErr, IfSome, Some};
ghost use Rattle.wasm_readers_errors.specs.Refusals.{plain};
ghost use Rattle.wasm_validator_sections.specs.Bodies.{expected_bodies};

use std::alloc::{Allocator, Global};
use std::rc::Rc;
use wasm_readers::{Fault, OutOfOrder, Refusal};
use wasm_validator_items::validator_core_resources::ValidatorResources;
use wasm_validator_types::IndexSpaces;

/// The most bytes of a function's body.
pub const MAX_FUNCTION_SIZE: u32 = 7_654_321;

/// A module whose code section has started. Its lists stay as they are.
#[derive(Drop)]
pub struct CodeState<A: Allocator = Global> {
    /// Its index spaces.
    pub spaces: Rc<IndexSpaces<A>, A>,
    /// What its bodies look up.
    pub resources: ValidatorResources<A>,
    /// How many bodies were taken.
    pub taken: u32,
}

impl<A: Allocator + Copy> CodeState<A> {
    /// A module of which no body was taken.
    pub fn new(spaces: Rc<IndexSpaces<A>, A>, resources: ValidatorResources<A>) -> CodeState<A>
        ensures spaces { result.spaces ≡ spaces }
        ensures resources { result.resources ≡ resources }
        ensures taken { result.taken ≡ 0 }
    {
        CodeState {
            spaces,
            resources,
            taken: 0,
        }
    }

    /// The index of the function whose body comes next, and that of its type, where one is to come:
    /// bodies are those of the functions that are defined, in their order (Core Specification 3.0,
    /// Binary Format, Modules, Code Section).
    pub fn next_function(&self) -> Option<(u32, u32)>
        ensures some { is_some result ≡ not (expected_bodies self.now.spaces.value
            - self.now.taken == 0) }
        ensures index { IfSome result (λ f. f.0
            ≡ length self.now.spaces.value.imported_functions + self.now.taken) }
        ensures ty { IfSome result (λ f. slice_get self.now.spaces.value.functions f.0
            ≡ Some f.1) }
    {
        let spaces = self.spaces.as_ref();
        let functions = spaces.function_count() as usize;
        let imported = spaces.imported_function_count();
        let taken = self.taken as usize;
        if imported < functions && taken < functions - imported {
            let index = (imported + taken) as u32;
            Some((index, spaces.function_type_index(index)))
        } else {
            None
        }
    }

    /// The index of the function whose body comes next, and that of its type; and takes the body.
    ///
    /// # Errors
    ///
    /// Refused, at the offset, where no body is to come, which changes nothing.
    #[inline(always)]
    pub fn next_code_index_and_type(&mut self, offset: u64) -> Result<(u32, u32), Refusal>
        ensures some { is_ok result ≡ not (expected_bodies self.old.spaces.value
            - self.old.taken == 0) }
        ensures index { IfOk result (λ f. f.0
            ≡ length self.old.spaces.value.imported_functions + self.old.taken) }
        ensures ty { IfOk result (λ f. slice_get self.old.spaces.value.functions f.0
            ≡ Some f.1) }
        ensures taken { OnOk result (self.new ≡ record self.old { taken = suc self.old.taken }) }
        ensures unchanged { OnErr result (self.new ≡ self.old) }
        ensures told { IfErr result (λ r. r
            ≡ plain (Fault.OutOfOrder OutOfOrder.CodeEntryWithoutFunction) offset) }
    {
        // Asked for what it promises: functions are as many as 32 bits count.
        let _functions = self.spaces.as_ref().function_count();
        match self.next_function() {
            Some(function) => {
                self.taken += 1;
                Ok(function)
            }
            None => {
                let fault = Fault::OutOfOrder(OutOfOrder::CodeEntryWithoutFunction);
                Err(Refusal::new(fault, offset))
            }
        }
    }
}
