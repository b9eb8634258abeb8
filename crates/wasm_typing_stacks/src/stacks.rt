//! The stacks of a body.

ghost use Rattle.std.specs.Prelude.{◌≡◌, IfOk};

use crate::block_word::BlockWord;
use crate::locals::Locals;
use crate::stack::Stack;
use crate::word::Word;
use std::alloc::{AllocError, Allocator, Global};
use wasm_operators_plain::readers_errors::WasmFeatures;
use wasm_spec_steps::FrameKind;

/// A frame: what opened it, its block type, how many operands stood below and how many locals were
/// set before, and whether the rest of its code isn't reached.
#[derive(Clone, Copy)]
pub struct Frame {
    pub kind: FrameKind,
    pub unreachable: bool,
    pub block: BlockWord,
    pub height: usize,
    pub init_height: usize,
}

/// What the validation of a body or a constant expression keeps: the features, whether the function
/// is shared, the operands, the innermost frame, if one is open, those around it, and the locals.
pub struct Stacks<A: Allocator = Global> {
    pub features: WasmFeatures,
    pub is_shared: bool,
    pub operands: Stack<Word, A>,
    pub is_open: bool,
    pub frame: Frame,
    pub outer: Stack<Frame, A>,
    pub locals: Locals<A>,
}

// By hand: so each way out takes one call for it, and not a step for each field.
impl<A: Allocator> Drop for Stacks<A> {
    fn drop(self) {
        let Stacks {
            features: _,
            is_shared: _,
            operands: _,
            is_open: _,
            frame: _,
            outer: _,
            locals: _,
        } = self;
    }
}

impl<A: Allocator + Copy> Stacks<A> {
    /// The same operands, frames and locals, in memory of their own.
    pub fn clone(&self) -> Result<Stacks<A>, AllocError>
        ensures { IfOk result (λ copy. copy ≡ self.now) }
    {
        let operands = self.operands.clone()?;
        let outer = self.outer.clone()?;
        let locals = self.locals.clone()?;
        Ok(Stacks {
            features: self.features,
            is_shared: self.is_shared,
            operands,
            is_open: self.is_open,
            frame: self.frame,
            outer,
            locals,
        })
    }
}
