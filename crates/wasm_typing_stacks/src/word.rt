//! Operands as words.

ghost use Rattle.std.specs.Prelude.{◌<◌, ◌^◌};
ghost use Rattle.wasm_operators_plain.specs.WasmReadersTypes.WasmReadersValues.declared.indices.TheConstants.{MAX_IDS};
ghost use Rattle.wasm_typing_stacks.specs.Words.{operand_at, operand_number};

use crate::{TypeWord, abstract_code, abstract_from_code};
use wasm_operators_plain::NumberType;
use wasm_operators_plain::readers_types::{AbstractHeapType, ValType};

/// The number of an operand of any type.
const BOTTOM: u64 = 5;

/// An operand as one number: that of its type, where it is known.
#[derive(Clone, Copy)]
pub struct Word {
    /// The number.
    pub bits: u64,
    pub ghost small: { bits < 2 ^ 38 },
    pub ghost fits: { operand_number (operand_at bits) < MAX_IDS },
}

/// An operand: of a known type, and in code that isn't reached of any type, of any reference type,
/// or of an abstract heap type whose shared flag is open, not null.
#[derive(Clone, Copy)]
pub enum Operand {
    /// Of this type.
    Known(ValType),
    /// Of any type.
    Bottom,
    /// Of any reference type.
    BottomReference,
    /// A reference to this heap type that isn't null, and is shared or not as is needed.
    Open(AbstractHeapType),
}

impl Word {
    ghost use Rattle.std.specs.Prelude.{◌≡◌, true};
    ghost use Rattle.std.specs.Bool.{Decides};
    ghost use Rattle.wasm_operators_plain.specs.WasmReadersTypes.WasmReadersValues.SeenValues.{abstract_heap_of};
    ghost use Rattle.wasm_typing_stacks.specs.SeenTypeWords.{val_in, number_val};
    ghost use Rattle.wasm_spec_steps.specs.Machine.{bottom, bottom_reference, open_reference, known};
    ghost use Rattle.wasm_typing_stacks.specs.SeenOperands.{operand_of, operand_seen};

    /// An operand of this type.
    #[inline(always)]
    #[tactic(auto, using(crate::proofs::OperandWords::known_words))]
    pub fn known(ty: TypeWord) -> Word
        ensures { operand_of result ≡ known (val_in ty) }
    {
        Word { bits: ty.bits }
    }

    /// An operand of this number type.
    #[inline(always)]
    pub fn number(ty: NumberType) -> Word
        ensures { operand_of result ≡ known (number_val ty) }
    {
        Word::known(TypeWord::number(ty))
    }

    /// An operand of any type.
    #[inline(always)]
    #[tactic(auto, unfolding(crate::specs::Words::operand_at))]
    pub fn bottom() -> Word
        ensures { operand_of result ≡ bottom }
    {
        Word { bits: BOTTOM }
    }

    /// An operand of any reference type.
    #[tactic(auto, unfolding(crate::specs::Words::operand_at))]
    pub fn bottom_reference() -> Word
        ensures { operand_of result ≡ bottom_reference }
    {
        Word { bits: 13 }
    }

    /// A reference to this abstract heap type whose shared flag is open.
    #[tactic(auto, using(crate::proofs::OperandWords::open_words))]
    pub fn open(ty: AbstractHeapType) -> Word
        ensures { operand_of result ≡ open_reference (abstract_heap_of ty) }
    {
        Word {
            bits: (abstract_code(ty) + 2) * 8 + 5,
        }
    }

    /// Whether it is the same number as the type's: then its type is known to be this.
    #[inline(always)]
    #[tactic(auto, using(crate::proofs::OperandWords::same_words))]
    pub fn is(self, ty: TypeWord) -> bool
        ensures same { Decides result (self.bits ≡ ty.bits) }
        ensures known { result ≡ true → operand_of self ≡ known (val_in ty) }
    {
        self.bits == ty.bits
    }

    /// What the operand is.
    #[tactic(auto, using(crate::proofs::OperandWords::seen_words))]
    pub fn seen(self) -> Operand
        ensures { operand_seen result ≡ operand_of self }
    {
        if self.bits % 8 < 5 {
            Operand::Known(TypeWord { bits: self.bits }.ty())
        } else {
            match self.bits / 8 {
                0 => Operand::Bottom,
                1 => Operand::BottomReference,
                code => Operand::Open(abstract_from_code(code - 2)),
            }
        }
    }
}
