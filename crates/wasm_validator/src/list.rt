//! Lists of modules, checked by one validator.

ghost use Rattle.std.specs.Prelude.{◌≡◌, true, IfOk, IfErr, OnErr};
ghost use Rattle.std.specs.List.{All};
ghost use Rattle.wasm_validator_modules.specs.Payloads.{HoldsTypes};
ghost use Rattle.wasm_validator.specs.ValidatorStages.{may_reset};
ghost use Rattle.wasm_validator.specs.Lists.{DecidesEach, lent};
ghost use Rattle.wasm_validator.specs.Headline.{Headline, types_held};
ghost use Rattle.wasm_spec_rules.specs.FeatureFlags.{features_of};

use std::alloc::Allocator;
use wasm_validator_modules::payload::answer_all;
use wasm_validator_modules::{Error, Types, Validator};

/// Checks modules one after another, each after a `reset`, and gives the answer on each that was
/// looked at, in their order. Behind the first one whose payloads are not all accepted no other is
/// looked at; a module that is refused only for a function's body doesn't end the list. The types of
/// an accepted module name only ids of their list.
///
/// # Errors
///
/// The memory for the answers is asked for first, once. Where it is refused, no module is looked at
/// and the validator stays as it was. All else that is refused is the answer on its module.
pub fn validate_list<A: Allocator + Copy>(
    validator: &mut Validator<A>,
    modules: &[&[u8]],
) -> Result<Vec<Result<Types<A>, Error<A>>, A>, Error<A>>
    requires { may_reset validator.old ≡ true }
    ensures decided { IfOk result (λ answers. DecidesEach answers.items (lent modules.now)
        validator.old validator.new) }
    ensures headline { IfOk result (λ answers. Headline (features_of validator.old.features)
        (lent modules.now) answers.items (types_held validator.old.stage)) }
    ensures types { IfOk result (λ answers. All (λ r. IfOk r HoldsTypes) answers.items) }
    ensures unchanged { OnErr result (validator.new ≡ validator.old) }
    ensures memory { IfErr result (λ e. e ≡ Error.OutOfMemory) }
{
    let alloc = validator.allocator();
    let mut answers = Vec::with_capacity(alloc, modules.len())?;
    'modules: for i in 0..modules.len() {
        validator.reset();
        let answered = answer_all(validator, modules[i]);
        answers.push_reserved(answered.answer);
        if !answered.has_ended {
            return Ok(answers);
        }
    }
    Ok(answers)
}
