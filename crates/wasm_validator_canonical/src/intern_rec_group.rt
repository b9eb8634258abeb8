//! What a module's recursion group adds to the list of types: it is written as the list has groups,
//! looked up or put at the end, and checked where it is new.
//!
//! Refusals come in this order: the number of types, of which only the group's count where equal
//! types are one; how the group is written, index by index; where equal types are one and the group
//! is new, the number of types in the list; and the rules of each type, over the ids that the types
//! have in the list by then. A refused group may already be in the list, behind what the list had,
//! which is then only to be dropped.

ghost use Rattle.std.specs.Prelude.{◌≡◌, ◌+◌, ◌<◌, ◌≤◌, ◌^◌, true, false, ◌||◌, map, length, is_ok, IfOk, IfErr, OnOk, IsTrue};
ghost use Rattle.std.specs.Bool.{Decides};
ghost use Rattle.std.specs.List.{All};
ghost use Rattle.wasm_spec.specs.Features.{canonical};
ghost use Rattle.wasm_spec_rules.specs.FeatureFlags.{features_of};
ghost use Rattle.wasm_readers_types.specs.WasmReadersValues.declared.indices.TheConstants.{MAX_IDS};
ghost use Rattle.wasm_readers_types.specs.WasmReadersValues.declared.indices.CoreTypeId.{CoreTypeId};
ghost use Rattle.wasm_readers_types.specs.SeenTypes.{sub_of, rec_of};
ghost use Rattle.wasm_validator_type_list.specs.WasmValidatorTypeGroups.Elements.{ids_left};
ghost use Rattle.wasm_validator_type_list.specs.GroupOrder.{IsListable, AreListable};
ghost use Rattle.wasm_validator_type_list.specs.ListViews.{types_in};
ghost use Rattle.wasm_validator_type_list.specs.ListRefusals.{too_many_types};
ghost use Rattle.wasm_validator_type_list.specs.DefTypes.{types_of_list};
ghost use Rattle.wasm_validator_type_checks.specs.Rules.{IsValidGroupAt};
ghost use Rattle.wasm_validator_type_checks.specs.TypeRefusals.{ToldOfGroup};
ghost use Rattle.wasm_validator_canonical.specs.Indices.{numbers, canonical_group, extend_at_most_one};
ghost use Rattle.wasm_validator_canonical.specs.Groups.{has_form, allows_written, closes, AreValid};
ghost use Rattle.wasm_validator_canonical.specs.Answers.{Says, IsRefusal, IsAt};
ghost use Rattle.wasm_validator_canonical.specs.Refusals.{rec_without_gc, extends_many};
ghost use Rattle.wasm_validator_canonical.specs.Depths.{KeepsDepth, StillKept};
ghost use Rattle.wasm_validator_canonical.specs.GroupInterning.{next_ids, AddsWritten, KeepsGroups, InternsValid};
ghost use Rattle.wasm_validator_canonical.specs.GroupFaults.{counted_first, FitsFirst, IfContent, ToldOfWritten, ToldOfInterned, ToldOfAdded};

use crate::depths::keep_depths;
use crate::type_canonicalizer::{TypeCanonicalizer, extend_at_most_one};
use bitflags::Flags;
use std::alloc::Allocator;
use wasm_readers_errors::{Error, Fault, GroupRule, Refusal, Rule, WasmFeatures};
use wasm_readers_types::{CoreTypeId, MAX_IDS, RecGroup, SubType};
use wasm_validator_type_checks::check_rec_group;
use wasm_validator_type_list::{RecGroupElements, RecGroupId, TypeList};

/// Whether the features ask for equal types to be one: without these features no type can refer to
/// another, and each written type is its own.
pub fn needs_type_canonicalization(features: WasmFeatures) -> bool
    ensures { result ≡ canonical (features_of features) }
{
    features.contains(WasmFeatures::GC)
        || features.contains(WasmFeatures::FUNCTION_REFERENCES)
        || features.contains(WasmFeatures::STACK_SWITCHING)
        || features.contains(WasmFeatures::CUSTOM_DESCRIPTORS)
}

/// Whether the group may be written as it is: `rec` needs the garbage collection proposal.
fn may_be_written<A: Allocator>(features: WasmFeatures, group: &RecGroup<A>) -> bool
    ensures { result ≡ allows_written (features_of features) (rec_of group.now) }
{
    !group.is_explicit_rec_group() || features.contains(WasmFeatures::GC)
}

/// The sub types of the group as the list has them.
fn canonical_types<A: Allocator + Copy>(
    features: WasmFeatures,
    alloc: A,
    ids: &[CoreTypeId],
    group: RecGroup<A>,
    offset: u64,
) -> Result<Vec<SubType<A>, A>, Error>
    requires small { All (λ (id : CoreTypeId). id.index < MAX_IDS) ids.now }
    requires few { length ids.now < 2 ^ 31 }
    requires fits { length group.types ≤ MAX_IDS }
    ensures value { IfOk result (λ ss. map sub_of ss.items
        ≡ canonical_group (numbers ids.now) (rec_of group).types) }
    ensures closes { Says result (closes (features_of features) (length ids.now) (rec_of group)) }
    ensures place { IfErr result (IsAt offset) }
    ensures written { allows_written (features_of features) (rec_of group) ≡ false
        → IsRefusal result (rec_without_gc offset) }
    ensures extends { allows_written (features_of features) (rec_of group) ≡ true
        → extend_at_most_one (rec_of group) ≡ false → IsRefusal result (extends_many offset) }
    ensures told { IfErr result (IfContent (ToldOfWritten features offset
        (length ids.now) (rec_of group))) }
{
    if !may_be_written(features, &group) {
        let fault = Fault::Group(GroupRule::RecGroups);
        return Err(Error::Refused(Refusal::missing(fault, offset, WasmFeatures::GC)));
    }
    if !extend_at_most_one(group.types()) {
        let fault = Fault::Group(GroupRule::MultipleSupertypes);
        return Err(Error::Refused(Refusal::new(fault, offset)));
    }
    let has_gc = features.contains(WasmFeatures::GC);
    let count = group.types().len() as u32;
    let canonicalizer = TypeCanonicalizer::new(ids, count, has_gc, offset);
    canonicalizer.sub_types(alloc, group.into_types())
}

/// How many types of a list with so many are counted before a group is looked up in it.
fn counted_first(is_canonical: bool, held: usize) -> usize
    ensures { result ≡ counted_first is_canonical held }
{
    if is_canonical { 0 } else { held }
}

/// Adds the types of a recursion group that a module writes behind its types, which have these ids,
/// to the list: each type index is resolved among the module's types and those of the group, and
/// where equal types are one a group that the list has keeps its ids; where they aren't, the
/// group's types have the next ids. The rules of each type are checked where the group is new.
/// Answers the ids of the group's types. `offset` is where the group stands in the input.
///
/// Core Specification 3.0, Validation, Types (Recursive Types).
///
/// The list must be one to which groups may be added, with equal types as one where the features
/// ask for it, and its types must be valid by the features. It must have the types with these ids,
/// fewer than 2³¹; and a group that is written without `rec` must have one type.
///
/// # Errors
///
/// Refused, at the offset, where the list would have more types than there are ids, where an index is
/// out of bounds, and where a rule doesn't hold; and where memory is. Where equal types are one the
/// ids are asked for once the group is known to be new, and else first. The list then still begins
/// with all that it had, and may have the group behind it: it is only to be dropped.
#[tactic(auto, using(crate::proofs::ListFronts::lists_begin))]
pub fn canonicalize_and_intern_rec_group<A: Allocator + Copy>(
    features: WasmFeatures,
    alloc: A,
    types: &mut TypeList<A>,
    ids: &[CoreTypeId],
    group: RecGroup<A>,
    offset: u64,
) -> Result<RecGroupElements, Error>
    requires open { IsTrue types.old.is_open }
    requires mode { types.old.is_canonical ≡ canonical (features_of features) }
    requires known { All (λ (id : CoreTypeId). id.index
        < length (types_of_list types.old)) ids.now }
    requires few { length ids.now < 2 ^ 31 }
    requires form { has_form (rec_of group) ≡ true }
    requires valid { AreValid (features_of features) (types_of_list types.old) }
    ensures added { AddsWritten (features_of features) result types.old (numbers ids.now)
        (rec_of group) types.new }
    ensures valid { OnOk result (AreValid (features_of features) (types_of_list types.new)) }
    ensures own_ids { canonical (features_of features) ≡ false
        → IfOk result (λ elements. ids_left elements ≡ next_ids types.old (length group.types)) }
    ensures grows { canonical (features_of features) ≡ false
        → OnOk result (length (types_in types.new)
        ≡ length (types_in types.old) + length group.types) }
    ensures depths { IfOk result (λ elements. All (KeepsDepth types.new) (ids_left elements)) }
    ensures earlier_depths { OnOk result (StillKept types.old types.new) }
    ensures place { IfErr result (IsAt offset) }
    ensures limit { MAX_IDS < counted_first (canonical (features_of features))
        (length (types_in types.old)) + length group.types
        → IsRefusal result (too_many_types offset) }
    ensures written { FitsFirst (canonical (features_of features)) types.old (length group.types)
        → allows_written (features_of features) (rec_of group) ≡ false
        → IsRefusal result (rec_without_gc offset) }
    ensures told { IfErr result (IfContent (ToldOfAdded features offset types.old
        (numbers ids.now) (rec_of group))) }
    ensures kept_groups { KeepsGroups types.old types.new }
    ensures same_open { types.new.is_open ≡ types.old.is_open }
    ensures same_mode { types.new.is_canonical ≡ types.old.is_canonical }
{
    let held = types.len();
    let is_canonical = types.is_canonical();
    let counted = counted_first(is_canonical, held);
    if group.types().len() > MAX_IDS as usize - counted {
        let fault = Fault::Rule(Rule::TooManyTypes);
        return Err(Error::Refused(Refusal::new(fault, offset)));
    }
    match canonical_types(features, alloc, ids, group, offset) {
        Ok(canonical) => match intern(features, types, RecGroup::explicit(canonical), offset) {
            Ok(elements) => match keep_depths(types, elements) {
                Ok(()) => Ok(elements),
                Err(_) => Err(Error::OutOfMemory),
            },
            Err(error) => Err(error),
        },
        Err(error) => Err(error),
    }
}

/// Checks the types of a group where it is new.
fn check_if_new<A: Allocator + Copy>(
    features: WasmFeatures,
    types: &TypeList<A>,
    is_new: bool,
    group: RecGroupId,
    offset: u64,
) -> Result<(), Refusal>
    requires { group.index < length types.now.groups }
    ensures new { is_new ≡ true → Decides (is_ok result)
        (IsValidGroupAt (features_of features) types.now.groups group.index) }
    ensures known { is_new ≡ false → is_ok result ≡ true }
    ensures told { IfErr result (ToldOfGroup features offset types.now.groups group.index) }
    ensures place { IfErr result (λ r. r.offset ≡ offset) }
{
    if is_new {
        check_rec_group(features, types, group, offset)
    } else {
        Ok(())
    }
}

/// Interns the group, checks its types where it is new, and says their ids.
#[tactic(auto, using(crate::proofs::ListFronts::lists_begin))]
fn intern<A: Allocator + Copy>(
    features: WasmFeatures,
    types: &mut TypeList<A>,
    group: RecGroup<A>,
    offset: u64,
) -> Result<RecGroupElements, Error>
    requires open { IsTrue types.old.is_open }
    requires members { types.old.is_canonical ≡ false → 0 < length group.types }
    requires listable { IsListable (length (types_in types.old)) group.types }
    requires valid { AreValid (features_of features) (types_of_list types.old) }
    ensures interned { InternsValid (features_of features) result types.old types.new group.types }
    ensures listable { OnOk result (AreListable types.new.groups) }
    ensures place { IfErr result (IsAt offset) }
    ensures told { IfErr result (IfContent (ToldOfInterned features offset types.old
        group.types)) }
    ensures kept_groups { KeepsGroups types.old types.new }
    ensures same_open { types.new.is_open ≡ types.old.is_open }
    ensures same_mode { types.new.is_canonical ≡ types.old.is_canonical }
{
    types.recall_promises();
    let is_canonical = types.is_canonical();
    match types.intern_canonical_rec_group(is_canonical, group, offset) {
        Ok((is_new, id)) => {
            // Asked for what it promises: where equal types are one, they still are.
            let _is_canonical = types.is_canonical();
            types.recall_promises();
            match check_if_new(features, types, is_new, id, offset) {
                Ok(()) => Ok(types.rec_group_elements(id)),
                Err(refusal) => Err(Error::Refused(refusal)),
            }
        }
        Err(error) => Err(error),
    }
}
