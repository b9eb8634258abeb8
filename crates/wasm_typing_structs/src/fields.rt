//! Operands for all fields of a structure.

ghost use Rattle.std.specs.Prelude.{◌≡◌, ◌≤◌, ◌∷◌, [], length, map};
ghost use Rattle.wasm_readers_types.specs.WasmReadersValues.SeenValues.{field_of};
ghost use Rattle.wasm_typing_checks.specs.WasmTypingStacks.SeenTypeWords.{val_in};
ghost use Rattle.wasm_typing_checks.specs.WasmSpecSteps.Machine.{pop_vals};
ghost use Rattle.wasm_typing_checks.specs.WasmSpecSteps.Meanings.{all_have_defaults};
ghost use Rattle.wasm_typing_checks.specs.WasmValidatorResources.Answers.{world};
ghost use Rattle.wasm_typing_checks.specs.WasmTypingStacks.BodyStacks.{state_of, below, Kept};
ghost use Rattle.wasm_typing_checks.specs.Steps.{Checked, Took};
ghost use Rattle.wasm_typing_checks.specs.SeenTypes.{exchanged};
ghost use Rattle.wasm_typing_structs.specs.Fields.{unpacked_types};

use std::alloc::Allocator;
use wasm_readers_types::FieldType;
use wasm_typing_checks::typing_stacks::{Stacks, TypeWord, Word};
use wasm_typing_checks::validator_resources::WasmModuleResources;
use wasm_typing_checks::{OperatorError, OperatorFault, check_type, has_default, unpack};

/// Whether all fields have a default.
#[tactic(auto, using(crate::proofs::FieldDefaults::defaults))]
pub fn have_defaults(fields: &[FieldType]) -> bool
    ensures { result ≡ all_have_defaults (map field_of fields.now) }
{
    'defaulting: for i in 0..fields.len() {
        if !has_default(unpack(fields[i].element_type)) {
            return false;
        }
    }
    true
}

/// Whether operands of all fields, the last one on top, are below so many that are taken already,
/// and how many are taken with them. It looks at no more than are there: where code isn't reached
/// and none is left, any more can be taken.
#[tactic(auto, using(crate::proofs::FieldOperands::fills))]
fn check_fields<A: Allocator, T: WasmModuleResources>(
    stacks: &Stacks<A>,
    resources: &T,
    taken: usize,
    fields: &[FieldType],
) -> Result<usize, OperatorFault>
    requires { taken ≤ length (state_of stacks.now).operands }
    ensures { Checked result (pop_vals (world (T.context resources.now)) (unpacked_types fields.now)
        (below taken (state_of stacks.now))) (state_of stacks.now) }
{
    let count = fields.len();
    let mut taken = taken;
    'filling: for i in 0..count {
        let next = check_type(
            stacks,
            resources,
            taken,
            TypeWord::new(unpack(fields[count - 1 - i].element_type)),
        )?;
        if next == taken {
            return Ok(taken);
        }
        taken = next;
    }
    Ok(taken)
}

/// Takes operands of all fields below so many that are taken already, and gives one in the place of
/// all these. Where that can't be, all stays.
#[tactic(auto, using(wasm_typing_checks::proofs::OperandExchanges::exchanges), unfolding(wasm_typing_checks::specs::Steps::Took))]
pub fn exchange_fields<A: Allocator, T: WasmModuleResources>(
    stacks: &mut Stacks<A>,
    resources: &T,
    taken: usize,
    fields: &[FieldType],
    given: TypeWord,
) -> Result<(), OperatorError>
    requires { taken ≤ length (state_of stacks.old).operands }
    ensures took { Took result (exchanged (world (T.context resources.now))
        (unpacked_types fields.now) (val_in given ∷ []) (below taken (state_of stacks.old)))
        (state_of stacks.old) (state_of stacks.new) }
    ensures same { Kept stacks.old stacks.new }
{
    let taken = check_fields(stacks, resources, taken, fields)?;
    match stacks.exchange(taken, Word::known(given)) {
        Ok(()) => Ok(()),
        Err(_) => Err(OperatorError::OutOfMemory),
    }
}
