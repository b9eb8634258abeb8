//! Two modules whose types stand behind handles.

ghost use Rattle.std.specs.Prelude.{◌≡◌};
ghost use Rattle.std.specs.Bool.{Decides};
ghost use Rattle.wasm_validator_handles.specs.Pairs.{longer};

use wasm_validator::{TypeList, ValidatorId};

/// Whether these are the numbers of one validator.
pub fn are_one(first: ValidatorId, second: ValidatorId) -> bool
    ensures { Decides result (first ≡ second) }
{
    first == second
}

/// The list with more types, which has those of both where one begins the other.
pub fn longer<'a>(first: &'a TypeList, second: &'a TypeList) -> &'a TypeList
    ensures { result.now ≡ longer first.now second.now }
{
    if first.len() < second.len() {
        second
    } else {
        first
    }
}
