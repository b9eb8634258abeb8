//! Lists of operands that are known to be of given types. Most lists are of numbers and vectors, and
//! are compared eight places at a time, without a branch on the type.

ghost use Rattle.std.specs.Prelude.{◌≡◌, ◌≤◌, ◌<◌, ◌+◌, true, length, map};
ghost use Rattle.wasm_validator_resources.specs.WasmReadersTypes.WasmReadersValues.SeenValues.{val_of};
ghost use Rattle.wasm_typing_stacks.specs.WasmSpecSteps.Machine.{known};
ghost use Rattle.wasm_typing_stacks.specs.SeenOperands.{operand_of};
ghost use Rattle.wasm_typing_checks.specs.KnownLists.{KnownTo};
ghost use Rattle.wasm_typing_stacks.specs.declared.word.Word.{Word};

use wasm_typing_stacks::{TypeWord, Word};
use wasm_validator_resources::readers_types::ValType;

/// A number that no word is.
const NO_WORD: u64 = 18_446_744_073_709_551_615;

/// The number of the words that are known to be of this type, if it is of numbers or vectors, and of
/// a reference one that no word is.
#[inline(always)]
#[tactic(auto, using(crate::proofs::KnownLists::numbers))]
fn plain_number(ty: ValType) -> u64
    ensures { (w : Word) → w.bits ≡ result → operand_of w ≡ known (val_of ty) }
{
    match ty {
        ValType::I32 => 0,
        ValType::I64 => 8,
        ValType::F32 => 16,
        ValType::F64 => 24,
        ValType::V128 => 32,
        ValType::Ref(_) => NO_WORD,
    }
}

/// Whether an operand is known to be of a type, which is of numbers or vectors.
#[inline(always)]
fn is_plain(word: Word, ty: ValType) -> bool
    ensures { result ≡ true → operand_of word ≡ known (val_of ty) }
{
    word.bits == plain_number(ty)
}

/// Whether an operand is known to be of a type, which is of references.
#[inline(always)]
fn is_reference(word: Word, ty: ValType) -> bool
    ensures { result ≡ true → operand_of word ≡ known (val_of ty) }
{
    match ty {
        ValType::Ref(reference) => word.is(TypeWord::reference(reference)),
        ValType::I32 | ValType::I64 | ValType::F32 | ValType::F64 | ValType::V128 => false,
    }
}

/// Whether one operand more, behind those in front, is known to be of its type, which is of numbers
/// or vectors.
#[inline(always)]
#[tactic(auto, using(crate::proofs::KnownLists::places))]
fn one_more(operands: &[Word], types: &[ValType], at: usize) -> bool
    requires inside { at < length operands.now }
    requires typed { at < length types.now }
    ensures { result ≡ true → KnownTo operands.now types.now at
        → KnownTo operands.now types.now (at + 1) }
{
    is_plain(operands[at], types[at])
}

/// Whether eight operands more, behind those in front, are known to be of their types, which are of
/// numbers or vectors.
#[inline(always)]
#[tactic(auto, using(crate::proofs::KnownLists::sums))]
fn eight_more(operands: &[Word], types: &[ValType], at: usize) -> bool
    requires inside { at + 8 ≤ length operands.now }
    requires typed { at + 8 ≤ length types.now }
    ensures { result ≡ true → KnownTo operands.now types.now at
        → KnownTo operands.now types.now (at + 8) }
{
    one_more(operands, types, at)
        && one_more(operands, types, at + 1)
        && one_more(operands, types, at + 2)
        && one_more(operands, types, at + 3)
        && one_more(operands, types, at + 4)
        && one_more(operands, types, at + 5)
        && one_more(operands, types, at + 6)
        && one_more(operands, types, at + 7)
}

/// Whether the operands from one place to another, behind those in front, are known to be of their
/// types.
#[inline(always)]
#[tactic(auto, using(crate::proofs::KnownLists::places))]
fn each_more(operands: &[Word], types: &[ValType], from: usize, to: usize) -> bool
    requires order { from ≤ to }
    requires inside { to ≤ length operands.now }
    requires typed { to ≤ length types.now }
    ensures { result ≡ true → KnownTo operands.now types.now from
        → KnownTo operands.now types.now to }
{
    'going: for i in from..to {
        if !is_plain(operands[i], types[i]) && !is_reference(operands[i], types[i]) {
            return false;
        }
    }
    true
}

/// Whether these operands are known to be of these types, place by place.
#[inline(never)]
#[tactic(auto, using(crate::proofs::KnownLists::lists))]
pub(crate) fn are_known(operands: &[Word], types: &[ValType]) -> bool
    requires { length operands.now ≡ length types.now }
    ensures { result ≡ true
        → map operand_of operands.now ≡ map known (map val_of types.now) }
{
    let count = types.len();
    let blocks = count / 8;
    'comparing: for block in 0..blocks {
        let at = block * 8;
        if !eight_more(operands, types, at) {
            if !each_more(operands, types, at, at + 8) {
                return false;
            }
        }
    }
    each_more(operands, types, blocks * 8, count)
}
