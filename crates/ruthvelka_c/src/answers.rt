//! What the validator answers, and the ids that it gives.

ghost use Rattle.std.specs.Prelude.{IfErr, IfOk, map};
ghost use Rattle.wasm_validator_handles.specs.WasmValidator.Verdict.{DecidesAlone};
ghost use Rattle.ruthvelka_c.specs.Lists.{AreAnswered, bytes_of};
ghost use Rattle.ruthvelka_c.specs.Reports.{GivesIds, IsWithin, flags};

use crate::lists::{Bytes, lend};
use crate::report::Answer;
use std::alloc::{AllocError, Global};
use wasm_validator_handles::validator::{
    Flags, Validator, ValidatorId, WasmFeatures, validate_list,
};
use wasm_validator_handles::{write_function_ids, write_type_ids};

/// What a new validator with these proposals answers on these bytes.
pub fn answer_alone(alloc: Global, bytes: &[u8], features: u64) -> Answer
    ensures decided { DecidesAlone result bytes.now 0 (flags features) }
    ensures place { IfErr result (IsWithin bytes.now) }
{
    let features = WasmFeatures::from_bits_retain(features);
    let mut validator = Validator::new_with_features(alloc, features, ValidatorId::from_number(0));
    validator.validate_all(bytes)
}

/// Writes the ids of an accepted module's types and functions, as far as there is room.
pub fn write_ids(answer: &Answer, type_ids: &mut [u32], function_ids: &mut [u32])
    ensures { GivesIds answer.now type_ids.old type_ids.new function_ids.old function_ids.new }
{
    if let Ok(types) = answer {
        let shown = types.as_ref();
        write_type_ids(type_ids, &shown);
        write_function_ids(function_ids, &shown);
    }
}

/// What a new validator with these proposals answers on a list of modules.
pub fn answer_list(
    alloc: Global,
    modules: &[Bytes],
    features: u64,
) -> Result<Vec<Answer>, AllocError>
    ensures { IfOk result (λ answers. AreAnswered (map bytes_of modules.now) features
        answers.items) }
{
    let lent = lend(alloc, modules)?;
    let features = WasmFeatures::from_bits_retain(features);
    let mut validator = Validator::new_with_features(alloc, features, ValidatorId::from_number(0));
    match validate_list(&mut validator, lent.as_slice()) {
        Ok(answers) => Ok(answers),
        Err(_) => Err(AllocError),
    }
}
