//! Types of a label, and operands that are given with one more on top.

ghost use Rattle.std.specs.Prelude.{◌≡◌, ◌≤◌, length, OnOk, OnErr};
ghost use Rattle.std.specs.Option.{option_map};
ghost use Rattle.wasm_typing_control.specs.WasmTypingChecks.WasmTypingStacks.SeenTypeWords.{val_in};
ghost use Rattle.wasm_typing_control.specs.WasmTypingChecks.WasmSpecRules.Attempts.{last_of, front_of};
ghost use Rattle.wasm_typing_control.specs.WasmTypingChecks.WasmSpecSteps.Machine.{push_operand, push_vals};
ghost use Rattle.wasm_typing_control.specs.WasmTypingChecks.WasmTypingStacks.SeenOperands.{operand_of};
ghost use Rattle.wasm_typing_control.specs.WasmTypingChecks.WasmTypingStacks.BodyStacks.{state_of, below, Kept};
ghost use Rattle.wasm_typing_control.specs.WasmTypingChecks.SeenTypes.{types_seen};

use std::alloc::{AllocError, Allocator};
use wasm_typing_control::typing_checks::{ValTypes, exchange_types, has_known};
use wasm_typing_control::typing_stacks::{Stacks, TypeWord, Word};

/// The last of some types, if there is one.
#[tactic(auto, using(crate::proofs::OperandsOnTop::lists))]
pub fn last_type<'a>(types: ValTypes<'a>) -> Option<TypeWord>
    ensures { option_map val_in result ≡ last_of (types_seen types.entry) }
{
    match types {
        ValTypes::None => None,
        ValTypes::One(ty) => Some(ty),
        ValTypes::Many(types) => {
            let count = types.len();
            if count == 0 {
                None
            } else {
                Some(TypeWord::new(types[count - 1]))
            }
        }
    }
}

/// Some types without the last one.
#[tactic(auto, using(crate::proofs::OperandsOnTop::lists))]
pub fn front_types<'a>(types: ValTypes<'a>) -> ValTypes<'a>
    ensures { types_seen result ≡ front_of (types_seen types.entry) }
{
    match types {
        ValTypes::None => ValTypes::None,
        ValTypes::One(_) => ValTypes::None,
        ValTypes::Many(types) => {
            let count = types.len();
            if count == 0 {
                ValTypes::None
            } else {
                ValTypes::Many(&types[..count - 1])
            }
        }
    }
}

/// Gives operands of these types, with one more on top, in the place of so many. All are written
/// anew.
///
/// # Errors
///
/// Where memory is refused. All stays then.
#[tactic(auto, using(crate::proofs::OperandsOnTop::gives))]
fn exchange_anew<'a, A: Allocator>(
    stacks: &mut Stacks<A>,
    taken: usize,
    types: ValTypes<'a>,
    top: Word,
) -> Result<(), AllocError>
    requires { taken ≤ length (state_of stacks.old).operands }
    ensures ok { OnOk result (state_of stacks.new ≡ push_operand (operand_of top)
        (push_vals (types_seen types.entry) (below taken (state_of stacks.old)))) }
    ensures err { OnErr result (state_of stacks.new ≡ state_of stacks.old) }
    ensures same { Kept stacks.old stacks.new }
{
    let before = stacks.operands.len();
    exchange_types(stacks, 0, types)?;
    match stacks.push(top) {
        Ok(()) => {
            let given = stacks.operands.len() - before;
            stacks.operands.sink(given, taken);
            Ok(())
        }
        Err(_) => {
            stacks.operands.truncate(before);
            Err(AllocError)
        }
    }
}

/// Gives operands of these types, with one more on top, in the place of so many. Those that are
/// known to be of these types already stay where they are.
///
/// # Errors
///
/// Where memory is refused. All stays then.
#[tactic(auto, using(crate::proofs::OperandsOnTop::stays))]
pub fn exchange_with<'a, A: Allocator>(
    stacks: &mut Stacks<A>,
    taken: usize,
    types: ValTypes<'a>,
    top: Word,
) -> Result<(), AllocError>
    requires { taken ≤ length (state_of stacks.old).operands }
    ensures ok { OnOk result (state_of stacks.new ≡ push_operand (operand_of top)
        (push_vals (types_seen types.entry) (below taken (state_of stacks.old)))) }
    ensures err { OnErr result (state_of stacks.new ≡ state_of stacks.old) }
    ensures same { Kept stacks.old stacks.new }
{
    if let ValTypes::Many(list) = types {
        if list.len() <= taken {
            let above = taken - list.len();
            if has_known(stacks, above, list) {
                return stacks.exchange(above, top);
            }
        }
    }
    exchange_anew(stacks, taken, types, top)
}
