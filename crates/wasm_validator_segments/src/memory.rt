//! The memory that constant expressions are typed in.

use std::alloc::{Allocator, Global};
use std::mem;
use wasm_validator_constants::OperatorValidatorAllocations;

/// The memory that constant expressions are typed in, which is used again from one to the next.
pub struct ExpressionMemory<A: Allocator = Global> {
    allocations: OperatorValidatorAllocations<A>,
    alloc: A,
}

// By hand: so each way out takes one call for it, and not a step for each field.
impl<A: Allocator> Drop for ExpressionMemory<A> {
    fn drop(self) {
        let ExpressionMemory {
            allocations: _,
            alloc: _,
        } = self;
    }
}

impl<A: Allocator + Copy> ExpressionMemory<A> {
    /// No memory yet.
    pub fn new(alloc: A) -> ExpressionMemory<A> {
        ExpressionMemory {
            allocations: OperatorValidatorAllocations::new(alloc),
            alloc,
        }
    }

    /// Hands the memory out.
    pub(crate) fn take(&mut self) -> OperatorValidatorAllocations<A> {
        mem::replace(
            &mut self.allocations,
            OperatorValidatorAllocations::new(self.alloc),
        )
    }

    /// Takes the memory back.
    pub(crate) fn keep(&mut self, allocations: OperatorValidatorAllocations<A>) {
        self.allocations = allocations;
    }
}
