//! Locals as words.

ghost use Rattle.std.specs.Prelude.{◌<◌, ◌^◌, ◌%◌};
ghost use Rattle.wasm_operators_plain.specs.WasmReadersTypes.WasmReadersValues.declared.indices.TheConstants.{MAX_IDS};
ghost use Rattle.wasm_typing_stacks.specs.TypeWords.{val_at, val_number};

use crate::TypeWord;

/// The bit of a local that isn't set when its function begins, past those of its type.
const UNSET: u64 = 274_877_906_944;

/// A local as one number: its type, and whether it is set when its function begins.
#[derive(Clone, Copy)]
pub struct LocalWord {
    bits: u64,
    ghost is_type: { (bits % 2 ^ 38) % 8 < 5 },
    ghost fits: { val_number (val_at (bits % 2 ^ 38)) < MAX_IDS },
}

impl LocalWord {
    ghost use Rattle.std.specs.Prelude.{◌≡◌};
    ghost use Rattle.wasm_typing_stacks.specs.SeenTypeWords.{val_in};
    ghost use Rattle.wasm_typing_stacks.specs.Locals.{local_of};

    /// A local of this type.
    #[inline]
    #[tactic(auto, using(crate::proofs::LocalWords::words))]
    pub fn new(ty: TypeWord, set: bool) -> LocalWord
        ensures content { (local_of result).content ≡ val_in ty }
        ensures set { (local_of result).set ≡ set }
    {
        if set {
            LocalWord { bits: ty.bits }
        } else {
            LocalWord {
                bits: ty.bits + UNSET,
            }
        }
    }

    /// The type.
    #[inline(always)]
    pub fn ty(self) -> TypeWord
        ensures { val_in result ≡ (local_of self).content }
    {
        TypeWord {
            bits: self.bits % UNSET,
        }
    }

    /// Whether it is set when its function begins.
    #[inline(always)]
    #[tactic(auto, using(crate::proofs::LocalWords::words))]
    pub fn is_set(self) -> bool
        ensures { result ≡ (local_of self).set }
    {
        self.bits < UNSET
    }
}
