//! What operators do to the stacks.

ghost use Rattle.std.specs.Prelude.{◌≡◌, ◌≤◌, ◌-◌, [], true, false, Some, length, drop, ◌+◌, map, OnOk, OnErr};
ghost use Rattle.wasm_spec_steps.specs.Machine.{push_operand, pushed_onto, push_vals, push_frame, become_unreachable};
ghost use Rattle.wasm_operators_plain.specs.WasmReadersTypes.WasmReadersValues.SeenValues.{val_of};
ghost use Rattle.wasm_typing_stacks.specs.SeenOperands.{operand_of};
ghost use Rattle.wasm_typing_stacks.specs.SeenBlocks.{block_in, kind_of};
ghost use Rattle.wasm_typing_stacks.specs.BodyStacks.{state_of, below, with_frame, Kept};

use crate::TypeWord;
use crate::block_word::BlockWord;
use crate::locals::Locals;
use crate::stack::Stack;
use crate::stacks::{Frame, Stacks};
use crate::word::Word;
use std::alloc::{AllocError, Allocator};
use wasm_operators_plain::readers_errors::WasmFeatures;
use wasm_operators_plain::readers_types::ValType;
use wasm_spec_steps::FrameKind;

impl<A: Allocator + Copy> Stacks<A> {
    /// Stacks without frames. They take no memory.
    pub fn new(alloc: A, features: WasmFeatures, is_shared: bool) -> Stacks<A>
        ensures state { state_of result ≡ record { operands = []; frames = []; inits = [] } }
        ensures content { result.locals.content ≡ [] }
        ensures features { result.features ≡ features }
        ensures shared { result.is_shared ≡ is_shared }
    {
        Stacks {
            features,
            is_shared,
            operands: Stack::new(alloc),
            is_open: false,
            frame: Frame {
                kind: FrameKind::Block,
                unreachable: false,
                block: BlockWord::empty(),
                height: 0,
                init_height: 0,
            },
            outer: Stack::new(alloc),
            locals: Locals::new(alloc),
        }
    }
}

/// Puts operands of these types on top, the last one on top. Where memory is refused, some of them
/// may be there.
#[tactic(auto, using(crate::proofs::OperandPushes::pushes))]
fn push_each<A: Allocator>(
    operands: &mut Stack<Word, A>,
    types: &[ValType],
) -> Result<(), AllocError>
    ensures ok { OnOk result (map operand_of operands.new
        ≡ pushed_onto (map val_of types.now) (map operand_of operands.old)) }
    ensures err { OnErr result (drop (length operands.new - length operands.old)
        operands.new ≡ operands.old) }
{
    'pushing: for i in 0..types.len() {
        operands.push(Word::known(TypeWord::new(types[i])))?;
    }
    Ok(())
}

impl<A: Allocator> Stacks<A> {
    /// Forgets all, keeps the memory, and goes on with these features.
    #[tactic(auto, using(crate::proofs::FrameOperands::clears))]
    pub fn clear(&mut self, features: WasmFeatures, is_shared: bool)
        ensures state { state_of self.new ≡ record { operands = []; frames = []; inits = [] } }
        ensures content { self.new.locals.content ≡ [] }
        ensures features { self.new.features ≡ features }
        ensures shared { self.new.is_shared ≡ is_shared }
    {
        self.features = features;
        self.is_shared = is_shared;
        self.operands.truncate(0);
        self.is_open = false;
        self.outer.truncate(0);
        self.locals.clear();
    }

    /// Takes so many operands.
    #[inline(always)]
    #[tactic(auto, using(crate::proofs::FrameOperands::takes))]
    pub fn take(&mut self, taken: usize)
        requires { taken ≤ length (state_of self.old).operands }
        ensures state { state_of self.new ≡ below taken (state_of self.old) }
        ensures frame { self.new.frame ≡ self.old.frame }
        ensures open { self.new.is_open ≡ self.old.is_open }
        ensures same { Kept self.old self.new }
    {
        self.operands.discard(taken);
    }

    /// Gives an operand. Where memory is refused, all stays.
    #[inline(always)]
    pub fn push(&mut self, operand: Word) -> Result<(), AllocError>
        ensures ok { OnOk result (state_of self.new
            ≡ push_operand (operand_of operand) (state_of self.old)) }
        ensures err { OnErr result (state_of self.new ≡ state_of self.old) }
        ensures frame { self.new.frame ≡ self.old.frame }
        ensures open { self.new.is_open ≡ self.old.is_open }
        ensures same { Kept self.old self.new }
    {
        self.operands.push(operand)
    }

    /// Gives an operand in the place of so many. Where memory is refused, all stays.
    #[inline(always)]
    pub fn exchange(&mut self, taken: usize, operand: Word) -> Result<(), AllocError>
        requires { taken ≤ length (state_of self.old).operands }
        ensures ok { OnOk result (state_of self.new
            ≡ push_operand (operand_of operand) (below taken (state_of self.old))) }
        ensures err { OnErr result (state_of self.new ≡ state_of self.old) }
        ensures frame { self.new.frame ≡ self.old.frame }
        ensures open { self.new.is_open ≡ self.old.is_open }
        ensures same { Kept self.old self.new }
    {
        self.operands.exchange(taken, operand)
    }

    /// Gives operands of these types, the last one on top. Where memory is refused, all stays.
    pub fn push_many(&mut self, types: &[ValType]) -> Result<(), AllocError>
        ensures ok { OnOk result (state_of self.new
            ≡ push_vals (map val_of types.now) (state_of self.old)) }
        ensures err { OnErr result (state_of self.new ≡ state_of self.old) }
        ensures frame { self.new.frame ≡ self.old.frame }
        ensures open { self.new.is_open ≡ self.old.is_open }
        ensures same { Kept self.old self.new }
    {
        let count = self.operands.len();
        match push_each(&mut self.operands, types) {
            Ok(()) => Ok(()),
            Err(_) => {
                self.operands.truncate(count);
                Err(AllocError)
            }
        }
    }

    /// Gives operands of these types in the place of so many, the last one on top. Where memory is
    /// refused, all stays.
    #[tactic(auto, using(crate::proofs::OperandPushes::sinks))]
    pub fn exchange_many(&mut self, taken: usize, types: &[ValType]) -> Result<(), AllocError>
        requires { taken ≤ length (state_of self.old).operands }
        ensures ok { OnOk result (state_of self.new
            ≡ push_vals (map val_of types.now) (below taken (state_of self.old))) }
        ensures err { OnErr result (state_of self.new ≡ state_of self.old) }
        ensures frame { self.new.frame ≡ self.old.frame }
        ensures open { self.new.is_open ≡ self.old.is_open }
        ensures same { Kept self.old self.new }
    {
        self.push_many(types)?;
        if taken > 0 {
            self.operands.sink(types.len(), taken);
        }
        Ok(())
    }

    /// Opens a frame over all operands. Where memory is refused, all stays.
    #[inline(always)]
    #[tactic(auto, using(crate::proofs::FrameOperands::opens))]
    pub fn open(&mut self, kind: FrameKind, block: BlockWord) -> Result<(), AllocError>
        ensures ok { OnOk result (state_of self.new
            ≡ push_frame (kind_of kind) (block_in block) [] (state_of self.old)) }
        ensures err { OnErr result (state_of self.new ≡ state_of self.old) }
        ensures same { Kept self.old self.new }
    {
        self.open_below(kind, block, 0)
    }

    /// Opens a frame below so many operands, which stay. Where memory is refused, all stays.
    #[inline(always)]
    #[tactic(auto, using(crate::proofs::FrameOperands::opens))]
    pub fn open_below(
        &mut self,
        kind: FrameKind,
        block: BlockWord,
        taken: usize,
    ) -> Result<(), AllocError>
        requires { taken ≤ length (state_of self.old).operands }
        ensures ok { OnOk result (state_of self.new
            ≡ with_frame (kind_of kind) (block_in block) taken (state_of self.old)) }
        ensures err { OnErr result (state_of self.new ≡ state_of self.old) }
        ensures open { OnOk result (self.new.is_open ≡ true) }
        ensures inits { OnOk result (self.new.frame.init_height
            ≡ length (state_of self.old).inits) }
        ensures same { Kept self.old self.new }
    {
        if self.is_open {
            self.outer.push(self.frame)?;
        } else {
            self.outer.truncate(0);
        }
        self.is_open = true;
        self.frame = Frame {
            kind,
            unreachable: false,
            block,
            height: self.operands.len() - taken,
            init_height: self.locals.count_set(),
        };
        Ok(())
    }

    /// Leaves the innermost frame, and forgets which locals it set.
    #[inline(always)]
    #[tactic(auto, using(crate::proofs::FrameOperands::closes))]
    pub fn close(&mut self)
        requires { self.old.is_open ≡ true }
        ensures state { state_of self.new ≡ record (state_of self.old) {
          frames = drop 1 (state_of self.old).frames;
          inits = drop
              (length (state_of self.old).inits - self.old.frame.init_height)
              (state_of self.old).inits;
        } }
        ensures same { Kept self.old self.new }
    {
        self.locals.unset(self.frame.init_height);
        match self.outer.pop() {
            Some(frame) => {
                self.frame = frame;
            }
            None => {
                self.is_open = false;
            }
        }
    }

    /// The rest of the innermost frame's code isn't reached.
    #[inline(always)]
    #[tactic(auto, using(crate::proofs::FrameOperands::stops))]
    pub fn stop(&mut self)
        requires { self.old.is_open ≡ true }
        ensures state { become_unreachable (state_of self.old) ≡ Some (state_of self.new) }
        ensures same { Kept self.old self.new }
    {
        self.operands.truncate(self.frame.height);
        self.frame.unreachable = true;
    }
}
