//! Equality, order and hash: said once of any type whose equality tells whether two values are the
//! same, and so of the ids of types, of groups and of validators, and of what is known of a type.

ghost use Rattle.std.specs.Prelude.{◌≡◌};
ghost use Rattle.std.specs.Bool.{Decides};
ghost use Rattle.wasm_laws_core.specs.Equality.{Agree, same_by};

use std::hash::Hash;
use wasm_readers_types::CoreTypeId;
use wasm_validator_matches::TypeInfo;
use wasm_validator_type_list::RecGroupId;
use wasm_validator_types::ValidatorId;

/// A type whose `==` tells whether two values are the same to a contract.
pub trait Same: Ord + Hash {
    ghost same: { (x y : Self) → Decides (Self.PartialEq.eq x y) (x ≡ y) };
}

impl Same for CoreTypeId {
    ghost same = { same_by (λ id. id.index) (λ n. record { index = n }) (λ id i. id) };
}

impl Same for RecGroupId {
    ghost same = { same_by (λ id. id.index) (λ n. record { index = n }) (λ id i. id) };
}

impl Same for ValidatorId {
    ghost same = { same_by (λ n. n) (λ n. n) (λ n i. n) };
}

impl Same for TypeInfo {
    ghost same = { same_by (λ info. info.size) (λ n. record { size = n }) (λ info i. info) };
}

/// Two values are equal exactly where they are the same, which is exactly where `cmp` answers
/// `Equal`; `partial_cmp` answers what `cmp` does; and equal values hash alike.
pub fn agree<T: Same>()
    ensures { Agree T.eq T.partial_cmp T.cmp T.hash_input }
{}

/// So it is of these four.
pub fn ids_agree()
    ensures types { Agree ⟦<CoreTypeId as PartialEq>⟧.eq ⟦<CoreTypeId as PartialOrd>⟧.partial_cmp
        ⟦<CoreTypeId as Ord>⟧.cmp ⟦<CoreTypeId as Hash>⟧.hash_input }
    ensures groups { Agree ⟦<RecGroupId as PartialEq>⟧.eq ⟦<RecGroupId as PartialOrd>⟧.partial_cmp
        ⟦<RecGroupId as Ord>⟧.cmp ⟦<RecGroupId as Hash>⟧.hash_input }
    ensures validators { Agree ⟦<ValidatorId as PartialEq>⟧.eq
        ⟦<ValidatorId as PartialOrd>⟧.partial_cmp ⟦<ValidatorId as Ord>⟧.cmp
        ⟦<ValidatorId as Hash>⟧.hash_input }
    ensures infos { Agree ⟦<TypeInfo as PartialEq>⟧.eq ⟦<TypeInfo as PartialOrd>⟧.partial_cmp
        ⟦<TypeInfo as Ord>⟧.cmp ⟦<TypeInfo as Hash>⟧.hash_input }
{
    agree::<CoreTypeId>();
    agree::<RecGroupId>();
    agree::<ValidatorId>();
    agree::<TypeInfo>();
}
