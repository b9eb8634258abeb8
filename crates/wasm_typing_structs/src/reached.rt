//! Structure types that a body reaches, and their fields.

ghost use Rattle.std.specs.Prelude.{◌≡◌, Some, None, true, map, option_map, slice_get, IfOk, OnOk, OnErr};
ghost use Rattle.wasm_readers_types.specs.WasmReadersValues.SeenValues.{index_of, field_of};
ghost use Rattle.wasm_typing_checks.specs.WasmSpecSteps.Actions.{gc, has, reaches_type};
ghost use Rattle.wasm_typing_checks.specs.WasmSpecSteps.Meanings.{is_on as allowed};
ghost use Rattle.wasm_typing_checks.specs.WasmSpecRules.FeatureFlags.{features_of};
ghost use Rattle.wasm_typing_checks.specs.Steps.{held};
ghost use Rattle.wasm_typing_checks.specs.DeclaredTypes.{fields_in, descriptor_in, Barred};
ghost use Rattle.wasm_typing_structs.specs.Fields.{needed_of, field_in};

use std::alloc::Allocator;
use wasm_operators_plain::readers_errors::WasmFeatures;
use wasm_readers_types::{CompositeInnerType, FieldType, PackedIndex};
use wasm_typing_checks::typing_stacks::Stacks;
use wasm_typing_checks::validator_resources::WasmModuleResources;
use wasm_typing_checks::{OperatorFault, OperatorRule, has, identity, reaches};

/// The proposal that an operator on structures is of.
#[derive(Clone, Copy)]
pub enum Proposal {
    Gc,
    CustomDescriptors,
}

/// A structure type: which it is, that of its descriptors, if it has one, and its fields.
#[derive(Clone, Copy)]
pub struct Structure<'a> {
    pub identity: PackedIndex,
    pub descriptor: Option<PackedIndex>,
    pub fields: &'a [FieldType],
}

/// A field, and which structure type it is of.
#[derive(Clone, Copy)]
pub struct Member {
    pub identity: PackedIndex,
    pub ty: FieldType,
}

/// Whether a proposal is on.
fn is_on<A: Allocator>(stacks: &Stacks<A>, proposal: Proposal) -> bool
    ensures { result ≡ allowed (features_of stacks.now.features) (needed_of proposal) }
{
    match proposal {
        Proposal::Gc => has(stacks, WasmFeatures::GC),
        Proposal::CustomDescriptors => has(stacks, WasmFeatures::CUSTOM_DESCRIPTORS),
    }
}

/// The rule that a proposal is on.
fn rule(proposal: Proposal) -> OperatorRule {
    match proposal {
        Proposal::Gc => OperatorRule::Gc,
        Proposal::CustomDescriptors => OperatorRule::CustomDescriptors,
    }
}

/// The structure type of this type index, for an operator of a proposal.
#[tactic(auto, using(wasm_typing_checks::proofs::ActionSteps::acts, wasm_typing_checks::proofs::IndexedTypes::reaching))]
pub fn reach_structure<'a, A: Allocator, T: WasmModuleResources>(
    stacks: &Stacks<A>,
    resources: &'a T,
    proposal: Proposal,
    type_index: u32,
) -> Result<Structure<'a>, OperatorFault>
    ensures identity { IfOk result (λ s. Some (index_of s.identity)
        ≡ slice_get (T.context resources.now).types type_index) }
    ensures fields { IfOk result (λ s. fields_in (T.context resources.now) type_index
        ≡ Some (map field_of s.fields.now)) }
    ensures descriptor { IfOk result (λ s. descriptor_in (T.context resources.now) type_index
        ≡ Some (option_map index_of s.descriptor)) }
    ensures on { OnOk result (held stacks.now (T.context resources.now)
        (has (needed_of proposal)) ≡ true) }
    ensures reached { OnOk result (held stacks.now (T.context resources.now)
        (reaches_type type_index) ≡ true) }
    ensures barred { OnErr result (Barred stacks.now (T.context resources.now) (needed_of proposal)
        type_index (fields_in (T.context resources.now) type_index ≡ None)) }
{
    if !is_on(stacks, proposal) {
        return Err(OperatorFault::new(rule(proposal)));
    }
    let Some(identity) = identity(resources, type_index) else {
        return Err(OperatorFault::at(OperatorRule::UnknownType, type_index));
    };
    let Some(sub) = resources.sub_type_at(type_index) else {
        return Err(OperatorFault::at(OperatorRule::UnknownType, type_index));
    };
    match &sub.composite_type.inner {
        CompositeInnerType::Struct(ty) => {
            if !reaches(stacks, sub.composite_type.shared) {
                return Err(OperatorFault::at(OperatorRule::Shared, type_index));
            }
            Ok(Structure {
                identity,
                descriptor: sub.composite_type.descriptor_idx,
                fields: ty.fields.as_slice(),
            })
        }
        _ => Err(OperatorFault::at(OperatorRule::NotAStruct, type_index)),
    }
}

/// The field of this index of the structure type of this type index.
#[tactic(auto, using(crate::proofs::Structures::members))]
pub fn reach_member<A: Allocator, T: WasmModuleResources>(
    stacks: &Stacks<A>,
    resources: &T,
    type_index: u32,
    field_index: u32,
) -> Result<Member, OperatorFault>
    ensures identity { IfOk result (λ m. Some (index_of m.identity)
        ≡ slice_get (T.context resources.now).types type_index) }
    ensures field { IfOk result (λ m. field_in (T.context resources.now) type_index field_index
        ≡ Some (field_of m.ty)) }
    ensures on { OnOk result (held stacks.now (T.context resources.now) (has gc) ≡ true) }
    ensures reached { OnOk result (held stacks.now (T.context resources.now)
        (reaches_type type_index) ≡ true) }
    ensures barred { OnErr result (Barred stacks.now (T.context resources.now) gc type_index
        (field_in (T.context resources.now) type_index field_index ≡ None)) }
{
    let structure = reach_structure(stacks, resources, Proposal::Gc, type_index)?;
    let place = field_index as usize;
    if place < structure.fields.len() {
        Ok(Member {
            identity: structure.identity,
            ty: structure.fields[place],
        })
    } else {
        Err(OperatorFault::at(OperatorRule::UnknownField, field_index))
    }
}
