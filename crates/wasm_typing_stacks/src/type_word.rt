//! Value types as words.

ghost use Rattle.std.specs.Prelude.{◌<◌, ◌^◌, ◌%◌};
ghost use Rattle.wasm_operators_plain.specs.WasmReadersTypes.WasmReadersValues.declared.indices.TheConstants.{MAX_IDS};
ghost use Rattle.wasm_typing_stacks.specs.TypeWords.{val_at, val_number};

use crate::codes::{ref_code, ref_from_code};
use wasm_operators_plain::NumberType;
use wasm_operators_plain::readers_types::{RefType, ValType};

/// A value type as one number: two are the same type exactly where the numbers are equal.
#[derive(Clone, Copy)]
pub struct TypeWord {
    /// The number.
    pub bits: u64,
    pub ghost is_type: { bits % 8 < 5 },
    pub ghost small: { bits < 2 ^ 38 },
    pub ghost fits: { val_number (val_at bits) < MAX_IDS },
}

impl TypeWord {
    ghost use Rattle.std.specs.Prelude.{◌≡◌};
    ghost use Rattle.wasm_operators_plain.specs.WasmReadersTypes.WasmReadersValues.SeenValues.{ref_of, val_of};
    ghost use Rattle.wasm_operators_plain.specs.WasmSpec.Syntax.{reference};
    ghost use Rattle.wasm_typing_stacks.specs.SeenTypeWords.{val_in, number_val};

    /// A number type.
    #[inline(always)]
    #[tactic(auto, unfolding(crate::specs::TypeWords::val_at))]
    pub fn number(ty: NumberType) -> TypeWord
        ensures { val_in result ≡ number_val ty }
    {
        match ty {
            NumberType::I32 => TypeWord { bits: 0 },
            NumberType::I64 => TypeWord { bits: 8 },
            NumberType::F32 => TypeWord { bits: 16 },
            NumberType::F64 => TypeWord { bits: 24 },
        }
    }

    /// A reference type.
    #[tactic(auto, using(crate::proofs::TypeWordCodes::words))]
    pub fn reference(ty: RefType) -> TypeWord
        ensures { val_in result ≡ reference (ref_of ty) }
    {
        let (kind, code) = ref_code(ty);
        TypeWord {
            bits: code * 8 + kind + 1,
        }
    }

    /// The word of a type.
    #[inline(always)]
    #[tactic(auto, unfolding(crate::specs::TypeWords::val_at))]
    pub fn new(ty: ValType) -> TypeWord
        ensures { val_in result ≡ val_of ty }
    {
        match ty {
            ValType::I32 => TypeWord { bits: 0 },
            ValType::I64 => TypeWord { bits: 8 },
            ValType::F32 => TypeWord { bits: 16 },
            ValType::F64 => TypeWord { bits: 24 },
            ValType::V128 => TypeWord { bits: 32 },
            ValType::Ref(ty) => TypeWord::reference(ty),
        }
    }

    /// The type of the word.
    #[tactic(auto, using(crate::proofs::TypeWordCodes::types))]
    pub fn ty(self) -> ValType
        ensures { val_of result ≡ val_in self }
    {
        match self.bits % 8 {
            0 => match self.bits / 8 {
                0 => ValType::I32,
                1 => ValType::I64,
                2 => ValType::F32,
                3 => ValType::F64,
                _ => ValType::V128,
            },
            tag => ValType::Ref(ref_from_code(tag - 1, self.bits / 8)),
        }
    }
}
