//! Whole types, and the types of a group.

ghost use Rattle.std.specs.Prelude.{◌≡◌, ◌<◌, length, is_ok, IfErr};
ghost use Rattle.std.specs.Bool.{Decides};
ghost use Rattle.wasm_spec.specs.GroupRules.{IsValidType};
ghost use Rattle.wasm_validator_resources.specs.WasmReadersErrors.Refusals.{refused};
ghost use Rattle.wasm_validator_resources.specs.WasmSpecRules.FeatureFlags.{features_of};
ghost use Rattle.wasm_validator_type_list.specs.ListViews.{types_in};
ghost use Rattle.wasm_validator_type_list.specs.DeclarationsById.{declares};
ghost use Rattle.wasm_validator_type_checks.specs.Rules.{IsValidGroupAt};
ghost use Rattle.wasm_validator_type_checks.specs.TypeRefusals.{ToldOfType, ToldOfGroup};

use crate::descriptors::check_descriptors;
use crate::subtypes::check_subtype;
use std::alloc::Allocator;
use wasm_readers_types::CoreTypeId;
use wasm_validator_resources::readers_errors::{Refusal, WasmFeatures};
use wasm_validator_type_list::{RecGroupId, TypeList};

/// Checks a type of a list by all rules of a type (Core Specification 3.0, Validation, Types, Sub
/// Types), those of its descriptor clauses last. `offset` is where its group stands in the input.
///
/// The list must have the type.
///
/// # Errors
///
/// Refuses a type that breaks one of the rules, with the first of them.
pub fn check_type<A: Allocator + Copy>(
    features: WasmFeatures,
    types: &TypeList<A>,
    id: CoreTypeId,
    offset: u64,
) -> Result<(), Refusal>
    requires { id.index < length (types_in types.now) }
    ensures decided { Decides (is_ok result) (IsValidType (features_of features)
        (declares types.now.groups) id.index) }
    ensures told { ToldOfType features offset (declares types.now.groups)
        id.index (refused result) }
{
    check_subtype(features, types, id, offset)?;
    check_descriptors(features, types, id, offset)
}

/// Checks each type of a group of a list, in order. `offset` is where the group stands in the
/// input.
///
/// The list must have the group.
///
/// # Errors
///
/// Refuses a group with a type that breaks one of the rules, with the first such rule.
pub fn check_rec_group<A: Allocator + Copy>(
    features: WasmFeatures,
    types: &TypeList<A>,
    group: RecGroupId,
    offset: u64,
) -> Result<(), Refusal>
    requires { group.index < length types.now.groups }
    ensures decided { Decides (is_ok result) (IsValidGroupAt (features_of features)
        types.now.groups group.index) }
    ensures told { IfErr result (ToldOfGroup features offset types.now.groups group.index) }
    ensures place { IfErr result (λ r. r.offset ≡ offset) }
{
    let ids = &types[group];
    types.recall_promises();
    'members: for index in ids.start.index()..ids.end.index() {
        let id = CoreTypeId::from_index(index as u32);
        check_type(features, types, id, offset)?;
    }
    Ok(())
}
