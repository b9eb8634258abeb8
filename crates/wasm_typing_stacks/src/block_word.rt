//! Block types as words.

ghost use Rattle.std.specs.Prelude.{◌≡◌, ◌<◌, ◌^◌, ◌%◌};
ghost use Rattle.wasm_operators_plain.specs.WasmReadersTypes.WasmReadersValues.declared.indices.TheConstants.{MAX_IDS};
ghost use Rattle.wasm_typing_stacks.specs.Words.{block_at, block_number};

use crate::TypeWord;
use wasm_spec_steps::BlockType;

/// A block type as one number, its types as identities.
#[derive(Clone, Copy)]
pub struct BlockWord {
    bits: u64,
    ghost small: { bits < 2 ^ 38 },
    ghost index: { bits % 8 ≡ 7 → bits < 2 ^ 35 },
    ghost fits: { block_number (block_at bits) < MAX_IDS },
}

/// A block type: nothing, one result, or the function type of a type index.
#[derive(Clone, Copy)]
pub enum Block {
    Empty,
    Value(TypeWord),
    Func(u32),
}

impl BlockWord {
    ghost use Rattle.wasm_typing_stacks.specs.SeenTypeWords.{val_in};
    ghost use Rattle.wasm_spec_steps.specs.Control.{empty_block, value_block, func_block};
    ghost use Rattle.wasm_spec_steps.specs.SeenControl.{block_of};
    ghost use Rattle.wasm_typing_stacks.specs.SeenBlocks.{block_in, block_seen};

    /// A block without types.
    #[inline(always)]
    #[tactic(auto, unfolding(crate::specs::Words::block_at))]
    pub fn empty() -> BlockWord
        ensures { block_in result ≡ empty_block }
    {
        BlockWord { bits: 6 }
    }

    /// A block with one result.
    #[inline(always)]
    #[tactic(auto, using(crate::proofs::OperandWords::block_words))]
    pub fn value(ty: TypeWord) -> BlockWord
        ensures { block_in result ≡ value_block (val_in ty) }
    {
        BlockWord { bits: ty.bits }
    }

    /// A block of the function type of this type index.
    #[tactic(auto, using(crate::proofs::OperandWords::block_words))]
    pub fn func(type_index: u32) -> BlockWord
        ensures { block_in result ≡ func_block type_index }
    {
        BlockWord {
            bits: type_index as u64 * 8 + 7,
        }
    }

    /// What the block type is.
    #[inline]
    #[tactic(auto, using(crate::proofs::OperandWords::seen_blocks))]
    pub fn seen(self) -> Block
        ensures { block_seen result ≡ block_in self }
    {
        if self.bits == 6 {
            Block::Empty
        } else if self.bits % 8 < 5 {
            Block::Value(TypeWord { bits: self.bits })
        } else if self.bits % 8 == 7 {
            Block::Func((self.bits / 8) as u32)
        } else {
            Block::Empty
        }
    }

    /// The block type.
    pub fn block_type(self) -> BlockType
        ensures { block_of result ≡ block_in self }
    {
        match self.seen() {
            Block::Empty => BlockType::Empty,
            Block::Value(ty) => BlockType::Value(ty.ty()),
            Block::Func(type_index) => BlockType::FuncType(type_index),
        }
    }
}
