//! Matching of function types by their parameters and results, each list in the group that its
//! references stand in.

ghost use Rattle.std.specs.Bool.{Decides};
ghost use Rattle.wasm_validator_matches.specs.Parts.{ListStands, SignaturesAgree};

use crate::with_rec_group::WithRecGroup;
use std::alloc::Allocator;
use wasm_readers_types::ValType;
use wasm_validator_type_list::{TypeList, all_vals_match};

/// Whether a function type with the first parameters and results matches one with the second (Core
/// Specification 3.0, Validation, Matching, Function Types): there are as many, the second
/// parameters match the first, and the first results match the second.
pub fn func_signature_matches<A: Allocator + Copy>(
    types: &TypeList<A>,
    a_params: WithRecGroup<&[ValType]>,
    a_results: WithRecGroup<&[ValType]>,
    b_params: WithRecGroup<&[ValType]>,
    b_results: WithRecGroup<&[ValType]>,
) -> bool
    requires sub_params { ListStands types.now.groups a_params.rec_group.index a_params.inner.now }
    requires sub_results { ListStands types.now.groups
        a_results.rec_group.index a_results.inner.now }
    requires sup_params { ListStands types.now.groups b_params.rec_group.index b_params.inner.now }
    requires sup_results { ListStands types.now.groups
        b_results.rec_group.index b_results.inner.now }
    ensures { Decides result (SignaturesAgree types.now.groups a_params.entry a_results.entry
        b_params.entry b_results.entry) }
{
    all_vals_match(
        types,
        b_params.rec_group,
        b_params.inner,
        a_params.rec_group,
        a_params.inner,
    ) && all_vals_match(
        types,
        a_results.rec_group,
        a_results.inner,
        b_results.rec_group,
        b_results.inner,
    )
}
