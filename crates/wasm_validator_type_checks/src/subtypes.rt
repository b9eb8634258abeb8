//! What a type extends.

ghost use Rattle.std.specs.Prelude.{◌≡◌, ◌<◌, length, is_ok, IfErr, IfSome};
ghost use Rattle.std.specs.Bool.{Decides};
ghost use Rattle.wasm_spec.specs.SupertypeOrder.{supertype_of, IsDepth};
ghost use Rattle.wasm_validator_resources.specs.WasmReadersErrors.Refusals.{plain, refused};
ghost use Rattle.wasm_validator_resources.specs.WasmSpecRules.FeatureFlags.{features_of};
ghost use Rattle.wasm_readers_types.specs.SeenTypes.{sub_of};
ghost use Rattle.wasm_validator_type_list.specs.ListViews.{types_in};
ghost use Rattle.wasm_validator_type_list.specs.DeclarationsById.{declares};
ghost use Rattle.wasm_validator_type_checks.specs.Rules.{KeepsTypeRules, IsOpen, IsShallow, MayExtend, allows_extending};
ghost use Rattle.wasm_validator_type_checks.specs.TypeRefusals.{told_of_extending, ToldOfExtended, ToldOfSupertype, ToldOfSubtype};

use crate::composite_types::check_composite_type;
use crate::ids::{group_of, supertype};
use std::alloc::Allocator;
use wasm_readers_types::{CoreTypeId, SubType};
use wasm_validator_resources::readers_errors::{
    Fault, GroupRule, Refusal, WasmFeatures, hold, require_if,
};
use wasm_validator_type_list::TypeList;

/// The most proper ancestors of a type.
pub const MAX_WASM_SUBTYPING_DEPTH: u32 = 63;

/// How many proper ancestors are too many.
const TOO_DEEP: u32 = MAX_WASM_SUBTYPING_DEPTH + 1;

/// Accepts where the type is final and extends nothing, or the proposal for sub types is on.
fn check_extending<A: Allocator>(
    features: WasmFeatures,
    ty: &SubType<A>,
    offset: u64,
) -> Result<(), Refusal>
    ensures allowed { is_ok result ≡ allows_extending (features_of features) (sub_of ty.now) }
    ensures told { refused result ≡ told_of_extending features offset (sub_of ty.now) }
{
    let extends = !ty.is_final || !ty.supertype_idxs.is_empty();
    let fault = Fault::Group(GroupRule::Subtypes);
    require_if(extends, features, WasmFeatures::GC, fault, offset)
}

/// Whether the type is not final.
fn is_open<A: Allocator + Copy>(types: &TypeList<A>, id: CoreTypeId) -> bool
    requires { id.index < length (types_in types.now) }
    ensures { Decides result (IsOpen (declares types.now.groups) id.index) }
{
    let _group = group_of(types, id);
    !types[id].is_final
}

/// Accepts where the first type may extend the second.
fn check_extended<A: Allocator + Copy>(
    types: &TypeList<A>,
    id: CoreTypeId,
    extended: CoreTypeId,
    offset: u64,
) -> Result<(), Refusal>
    requires sub { id.index < length (types_in types.now) }
    requires sup { extended.index < length (types_in types.now) }
    ensures decided { Decides (is_ok result) (MayExtend (declares types.now.groups)
        id.index extended.index) }
    ensures told { ToldOfExtended offset (declares types.now.groups) id.index
        extended.index (refused result) }
{
    let open = is_open(types, extended);
    if !open {
        return Err(Refusal::new(Fault::Group(GroupRule::FinalSupertype), offset));
    }
    let fault = Fault::Group(GroupRule::SupertypeMatch);
    hold(types.matches(id, extended), fault, offset)
}

/// Accepts where the type may extend what it extends.
fn check_supertype<A: Allocator + Copy>(
    types: &TypeList<A>,
    id: CoreTypeId,
    offset: u64,
) -> Result<(), Refusal>
    requires { id.index < length (types_in types.now) }
    ensures decided { Decides (is_ok result) (IfSome
        (supertype_of (declares types.now.groups) id.index)
        (MayExtend (declares types.now.groups) id.index)) }
    ensures told { ToldOfSupertype offset (declares types.now.groups) id.index (refused result) }
{
    match supertype(types, id) {
        Some(extended) => check_extended(types, id, extended, offset),
        None => Ok(()),
    }
}

/// The number of proper ancestors of the type, where the list keeps that of what it extends.
fn kept_depth<A: Allocator + Copy>(types: &TypeList<A>, id: CoreTypeId) -> Option<u32>
    requires { id.index < length (types_in types.now) }
    ensures { IfSome result (IsDepth (declares types.now.groups) id.index) }
{
    match supertype(types, id) {
        Some(extended) => match types.subtyping_depth(extended) {
            Some(depth) => Some(u32::from(depth) + 1),
            None => None,
        },
        None => None,
    }
}

/// Accepts where the type has no more proper ancestors than a type may have. They are counted where
/// the list keeps no depth of what the type extends.
fn check_depth<A: Allocator + Copy>(
    types: &TypeList<A>,
    id: CoreTypeId,
    offset: u64,
) -> Result<(), Refusal>
    requires { id.index < length (types_in types.now) }
    ensures decided { Decides (is_ok result) (IsShallow (declares types.now.groups) 64 id.index) }
    ensures told { IfErr result (λ r. r ≡ plain (Fault.SubtypesTooDeep 64) offset) }
{
    match kept_depth(types, id) {
        Some(depth) => {
            if depth < TOO_DEEP {
                return Ok(());
            }
            Err(Refusal::new(Fault::SubtypesTooDeep(TOO_DEEP), offset))
        }
        None => check_links(types, id, offset),
    }
}

/// The same, by following what each type extends.
fn check_links<A: Allocator + Copy>(
    types: &TypeList<A>,
    id: CoreTypeId,
    offset: u64,
) -> Result<(), Refusal>
    requires { id.index < length (types_in types.now) }
    ensures decided { Decides (is_ok result) (IsShallow (declares types.now.groups) 64 id.index) }
    ensures told { IfErr result (λ r. r ≡ plain (Fault.SubtypesTooDeep 64) offset) }
{
    let mut ancestor = id;
    'links: for depth in 0..TOO_DEEP {
        match supertype(types, ancestor) {
            Some(extended) => ancestor = extended,
            None => return Ok(()),
        }
    }
    Err(Refusal::new(Fault::SubtypesTooDeep(TOO_DEEP), offset))
}

/// Checks a type of a list, but for its descriptor clauses (Core Specification 3.0, Validation,
/// Types, Sub Types): what it extends, the depth that it has by that, and its composite type.
/// `offset` is where its group stands in the input.
///
/// The list must have the type.
///
/// # Errors
///
/// Refuses a type that breaks one of the rules, with the first of them.
pub fn check_subtype<A: Allocator + Copy>(
    features: WasmFeatures,
    types: &TypeList<A>,
    id: CoreTypeId,
    offset: u64,
) -> Result<(), Refusal>
    requires { id.index < length (types_in types.now) }
    ensures decided { Decides (is_ok result) (KeepsTypeRules (features_of features)
        (declares types.now.groups) id.index) }
    ensures told { ToldOfSubtype features offset (declares types.now.groups)
        id.index (refused result) }
{
    let _group = group_of(types, id);
    check_extending(features, &types[id], offset)?;
    check_composite_type(features, types, id, offset)?;
    check_supertype(types, id, offset)?;
    check_depth(types, id, offset)
}
