//! Descriptor clauses.

ghost use Rattle.std.specs.Prelude.{◌≡◌, ◌<◌, length, is_ok, IfErr};
ghost use Rattle.std.specs.Bool.{Decides};
ghost use Rattle.wasm_spec.specs.GroupRules.{is_struct};
ghost use Rattle.wasm_validator_resources.specs.WasmReadersErrors.Refusals.{plain, refused};
ghost use Rattle.wasm_validator_resources.specs.WasmSpecRules.FeatureFlags.{features_of};
ghost use Rattle.wasm_readers_types.specs.SeenTypes.{comp_of, sub_of};
ghost use Rattle.wasm_validator_type_list.specs.ListViews.{types_in};
ghost use Rattle.wasm_validator_type_list.specs.DeclarationsById.{declares};
ghost use Rattle.wasm_validator_type_checks.specs.Rules.{KeepsDescriptorRules, allows_clauses, ExtendsSupertypeClauses, HasSameFinality, HasDescriptorLike, DescribesLike, ExtendsDescriptor, ExtendsDescribed, ExtendsClauses, DescriptorDescribes, DescribedHasDescriptor, DescriptorHasSameFinality};
ghost use Rattle.wasm_validator_type_checks.specs.TypeRefusals.{told_of_clauses, unlike_descriptor, unlike_describes, ToldOfExtendedClauses, ToldOfSupertypeClauses, ToldOfDescriptors};

use crate::ids::{are_same, described_type, descriptor, group_of, supertype};
use std::alloc::Allocator;
use wasm_readers_types::{CompositeInnerType, CoreTypeId, SubType};
use wasm_validator_resources::readers_errors::{
    DescriptorRule, Fault, Refusal, WasmFeatures, hold, require,
};
use wasm_validator_type_list::TypeList;

/// Whether it is a structure type.
fn is_structure<A: Allocator>(inner: &CompositeInnerType<A>) -> bool
    ensures { result ≡ is_struct (comp_of inner.now) }
{
    matches!(inner, CompositeInnerType::Struct(_))
}

/// Accepts where the type has no descriptor clause, or the proposal for them is on and it is a
/// structure's.
fn check_clauses<A: Allocator>(
    features: WasmFeatures,
    ty: &SubType<A>,
    offset: u64,
) -> Result<(), Refusal>
    ensures allowed { is_ok result ≡ allows_clauses (features_of features) (sub_of ty.now) }
    ensures told { refused result ≡ told_of_clauses features offset (sub_of ty.now) }
{
    let has_descriptor = ty.composite_type.descriptor_idx.is_some();
    let describes = ty.composite_type.describes_idx.is_some();
    if !has_descriptor && !describes {
        return Ok(());
    }
    let fault = Fault::Descriptor(DescriptorRule::Descriptors);
    require(features, WasmFeatures::CUSTOM_DESCRIPTORS, fault, offset)?;
    let rule = if has_descriptor {
        DescriptorRule::DescriptorOfNonStruct
    } else {
        DescriptorRule::DescribesOfNonStruct
    };
    hold(
        is_structure(&ty.composite_type.inner),
        Fault::Descriptor(rule),
        offset,
    )
}

/// Accepts where what the type extends has a descriptor exactly if the type has one.
fn check_descriptor_alike<A: Allocator + Copy>(
    types: &TypeList<A>,
    id: CoreTypeId,
    extended: CoreTypeId,
    offset: u64,
) -> Result<(), Refusal>
    requires sub { id.index < length (types_in types.now) }
    requires sup { extended.index < length (types_in types.now) }
    ensures decided { Decides (is_ok result) (HasDescriptorLike (declares types.now.groups)
        id.index extended.index) }
    ensures told { IfErr result (λ r. r ≡ plain
        (Fault.Descriptor (unlike_descriptor offset (declares types.now.groups) id.index)) offset) }
{
    let has_descriptor = descriptor(types, id).is_some();
    let rule = if has_descriptor {
        DescriptorRule::SubtypeWithDescriptor
    } else {
        DescriptorRule::SubtypeWithoutDescriptor
    };
    let alike = descriptor(types, extended).is_some() == has_descriptor;
    hold(alike, Fault::Descriptor(rule), offset)
}

/// Accepts where what the type extends describes a type exactly if the type describes one.
fn check_describes_alike<A: Allocator + Copy>(
    types: &TypeList<A>,
    id: CoreTypeId,
    extended: CoreTypeId,
    offset: u64,
) -> Result<(), Refusal>
    requires sub { id.index < length (types_in types.now) }
    requires sup { extended.index < length (types_in types.now) }
    ensures decided { Decides (is_ok result) (DescribesLike (declares types.now.groups)
        id.index extended.index) }
    ensures told { IfErr result (λ r. r ≡ plain
        (Fault.Descriptor (unlike_describes offset (declares types.now.groups) id.index)) offset) }
{
    let describes = described_type(types, id).is_some();
    let rule = if describes {
        DescriptorRule::DescriptorOfNonDescriptor
    } else {
        DescriptorRule::NonDescriptorSupertype
    };
    let alike = described_type(types, extended).is_some() == describes;
    hold(alike, Fault::Descriptor(rule), offset)
}

/// Accepts where the descriptor of the type, if it has one, extends that of what the type extends.
fn check_descriptor_extends<A: Allocator + Copy>(
    types: &TypeList<A>,
    id: CoreTypeId,
    extended: CoreTypeId,
    offset: u64,
) -> Result<(), Refusal>
    requires sub { id.index < length (types_in types.now) }
    requires sup { extended.index < length (types_in types.now) }
    ensures decided { Decides (is_ok result) (ExtendsDescriptor (declares types.now.groups)
        id.index extended.index) }
    ensures told { IfErr result (λ r. r ≡ plain
        (Fault.Descriptor DescriptorRule.DescribedSupertype) offset) }
{
    match descriptor(types, id) {
        Some(of_type) => {
            let fault = Fault::Descriptor(DescriptorRule::DescribedSupertype);
            let extends = are_same(supertype(types, of_type), descriptor(types, extended));
            hold(extends, fault, offset)
        }
        None => Ok(()),
    }
}

/// Accepts where the type that the type describes, if there is one, extends the one that what the
/// type extends describes.
fn check_described_extends<A: Allocator + Copy>(
    types: &TypeList<A>,
    id: CoreTypeId,
    extended: CoreTypeId,
    offset: u64,
) -> Result<(), Refusal>
    requires sub { id.index < length (types_in types.now) }
    requires sup { extended.index < length (types_in types.now) }
    ensures decided { Decides (is_ok result) (ExtendsDescribed (declares types.now.groups)
        id.index extended.index) }
    ensures told { IfErr result (λ r. r ≡ plain
        (Fault.Descriptor DescriptorRule.DescriptorSupertype) offset) }
{
    match described_type(types, id) {
        Some(by_type) => {
            let fault = Fault::Descriptor(DescriptorRule::DescriptorSupertype);
            let extends = are_same(supertype(types, by_type), described_type(types, extended));
            hold(extends, fault, offset)
        }
        None => Ok(()),
    }
}

/// Accepts where the clauses of the first type are those of one that extends the second.
fn check_extended_clauses<A: Allocator + Copy>(
    types: &TypeList<A>,
    id: CoreTypeId,
    extended: CoreTypeId,
    offset: u64,
) -> Result<(), Refusal>
    requires sub { id.index < length (types_in types.now) }
    requires sup { extended.index < length (types_in types.now) }
    ensures decided { Decides (is_ok result) (ExtendsClauses (declares types.now.groups)
        id.index extended.index) }
    ensures told { ToldOfExtendedClauses offset (declares types.now.groups) id.index
        extended.index (refused result) }
{
    check_descriptor_alike(types, id, extended, offset)?;
    check_descriptor_extends(types, id, extended, offset)?;
    check_describes_alike(types, id, extended, offset)?;
    check_described_extends(types, id, extended, offset)
}

/// Accepts where the clauses of the type are those of one that extends what it extends.
fn check_supertype_clauses<A: Allocator + Copy>(
    types: &TypeList<A>,
    id: CoreTypeId,
    offset: u64,
) -> Result<(), Refusal>
    requires { id.index < length (types_in types.now) }
    ensures decided { Decides (is_ok result) (ExtendsSupertypeClauses
        (declares types.now.groups) id.index) }
    ensures told { ToldOfSupertypeClauses offset (declares types.now.groups)
        id.index (refused result) }
{
    match supertype(types, id) {
        Some(extended) => check_extended_clauses(types, id, extended, offset),
        None => Ok(()),
    }
}

/// Accepts where the descriptor of the type, if it has one, describes the type.
fn check_descriptor<A: Allocator + Copy>(
    types: &TypeList<A>,
    id: CoreTypeId,
    offset: u64,
) -> Result<(), Refusal>
    requires { id.index < length (types_in types.now) }
    ensures decided { Decides (is_ok result) (DescriptorDescribes
        (declares types.now.groups) id.index) }
    ensures told { IfErr result (λ r. r ≡ plain
        (Fault.Descriptor DescriptorRule.DescriptorWithoutDescribes) offset) }
{
    match descriptor(types, id) {
        Some(of_type) => {
            let fault = Fault::Descriptor(DescriptorRule::DescriptorWithoutDescribes);
            hold(
                are_same(described_type(types, of_type), Some(id)),
                fault,
                offset,
            )
        }
        None => Ok(()),
    }
}

/// Accepts where the type that the type describes, if there is one, has the type as its descriptor.
fn check_described<A: Allocator + Copy>(
    types: &TypeList<A>,
    id: CoreTypeId,
    offset: u64,
) -> Result<(), Refusal>
    requires { id.index < length (types_in types.now) }
    ensures decided { Decides (is_ok result) (DescribedHasDescriptor
        (declares types.now.groups) id.index) }
    ensures told { IfErr result (λ r. r ≡ plain
        (Fault.Descriptor DescriptorRule.DescribesWithoutDescriptor) offset) }
{
    match described_type(types, id) {
        Some(by_type) => {
            let fault = Fault::Descriptor(DescriptorRule::DescribesWithoutDescriptor);
            hold(
                are_same(descriptor(types, by_type), Some(id)),
                fault,
                offset,
            )
        }
        None => Ok(()),
    }
}

/// Whether both types are final, or both are not.
fn have_same_finality<A: Allocator + Copy>(
    types: &TypeList<A>,
    id: CoreTypeId,
    other: CoreTypeId,
) -> bool
    requires first { id.index < length (types_in types.now) }
    requires second { other.index < length (types_in types.now) }
    ensures { Decides result (HasSameFinality (declares types.now.groups) id.index other.index) }
{
    let _group = group_of(types, id);
    let _other_group = group_of(types, other);
    types[other].is_final == types[id].is_final
}

/// Accepts where the type and its descriptor, if it has one, are of one finality.
fn check_finality<A: Allocator + Copy>(
    types: &TypeList<A>,
    id: CoreTypeId,
    offset: u64,
) -> Result<(), Refusal>
    requires { id.index < length (types_in types.now) }
    ensures decided { Decides (is_ok result) (DescriptorHasSameFinality
        (declares types.now.groups) id.index) }
    ensures told { IfErr result (λ r. r ≡ plain
        (Fault.Descriptor DescriptorRule.DescriptorFinality) offset) }
{
    match descriptor(types, id) {
        Some(of_type) => {
            let fault = Fault::Descriptor(DescriptorRule::DescriptorFinality);
            hold(have_same_finality(types, id, of_type), fault, offset)
        }
        None => Ok(()),
    }
}

/// Checks the descriptor clauses of a type of a list: the proposal and the form that they need,
/// that they follow the clauses of what the type extends, and that a type and its descriptor name
/// one another. `offset` is where the type's group stands in the input.
///
/// The list must have the type.
///
/// # Errors
///
/// Refuses a type that breaks one of the rules, with the first of them.
pub fn check_descriptors<A: Allocator + Copy>(
    features: WasmFeatures,
    types: &TypeList<A>,
    id: CoreTypeId,
    offset: u64,
) -> Result<(), Refusal>
    requires { id.index < length (types_in types.now) }
    ensures decided { Decides (is_ok result) (KeepsDescriptorRules (features_of features)
        (declares types.now.groups) id.index) }
    ensures told { ToldOfDescriptors features offset (declares types.now.groups)
        id.index (refused result) }
{
    let _group = group_of(types, id);
    check_clauses(features, &types[id], offset)?;
    check_supertype_clauses(types, id, offset)?;
    check_descriptor(types, id, offset)?;
    check_described(types, id, offset)?;
    check_finality(types, id, offset)
}
