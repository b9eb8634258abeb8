//! Matching of parts of types (Core Specification 3.0, Validation, Matching), by the functions that
//! the list of types matches its own types with.

ghost use Rattle.std.specs.Prelude.{List};
ghost use Rattle.std.specs.Bool.{Decides};
ghost use Rattle.wasm_readers_types.specs.SeenTypes.{func_of, struct_of, comp_of};
ghost use Rattle.wasm_readers_types.specs.declared.types.SubType.{SubType};
ghost use Rattle.wasm_validator_matches.specs.Parts.{RefStands, ValStands, StorageStands, FieldStands, ArrayStands, ContStands, RefsAgree, ValsAgree, StoragesAgree, FieldsAgree, ArraysAgree, ContsAgree, CompStands, CompsAgree, CompositesAgree, SubsAgree};

use crate::composites::func_signature_matches;
use crate::with_rec_group::WithRecGroup;
use std::alloc::Allocator;
use wasm_readers_types::{
    ArrayType, CompositeType, ContType, FieldType, FuncType, RefType, StorageType, StructType,
    SubType, ValType,
};
use wasm_validator_type_list::{TypeList, all_fields_match, inners_match, subs_match};

/// Parts of types that may match one another.
pub trait Matches<A: Allocator>: Sized {
    ghost stands: { List (List (SubType A)) → Self → Type 0 };

    ghost agree: { List (List (SubType A)) → Self → Self → Type 0 };

    /// Whether the first matches the second, where both stand in groups of the list.
    fn matches(types: &TypeList<A>, a: Self, b: Self) -> bool
        requires sub { stands types.now.groups a }
        requires sup { stands types.now.groups b }
        ensures { Decides result (agree types.now.groups a b) };
}

impl<A: Allocator + Copy> Matches<A> for WithRecGroup<RefType> {
    ghost stands = { RefStands };

    ghost agree = { RefsAgree };

    fn matches(types: &TypeList<A>, a: WithRecGroup<RefType>, b: WithRecGroup<RefType>) -> bool {
        types.refs_match(a.rec_group, a.inner, b.rec_group, b.inner)
    }
}

impl<A: Allocator + Copy> Matches<A> for WithRecGroup<ValType> {
    ghost stands = { ValStands };

    ghost agree = { ValsAgree };

    fn matches(types: &TypeList<A>, a: WithRecGroup<ValType>, b: WithRecGroup<ValType>) -> bool {
        types.vals_match(a.rec_group, a.inner, b.rec_group, b.inner)
    }
}

impl<A: Allocator + Copy> Matches<A> for WithRecGroup<StorageType> {
    ghost stands = { StorageStands };

    ghost agree = { StoragesAgree };

    fn matches(
        types: &TypeList<A>,
        a: WithRecGroup<StorageType>,
        b: WithRecGroup<StorageType>,
    ) -> bool {
        types.storages_match(a.rec_group, a.inner, b.rec_group, b.inner)
    }
}

impl<A: Allocator + Copy> Matches<A> for WithRecGroup<FieldType> {
    ghost stands = { FieldStands };

    ghost agree = { FieldsAgree };

    fn matches(
        types: &TypeList<A>,
        a: WithRecGroup<FieldType>,
        b: WithRecGroup<FieldType>,
    ) -> bool {
        types.fields_match(a.rec_group, a.inner, b.rec_group, b.inner)
    }
}

impl<A: Allocator + Copy> Matches<A> for WithRecGroup<ArrayType> {
    ghost stands = { ArrayStands };

    ghost agree = { ArraysAgree };

    fn matches(
        types: &TypeList<A>,
        a: WithRecGroup<ArrayType>,
        b: WithRecGroup<ArrayType>,
    ) -> bool {
        types.fields_match(a.rec_group, a.inner.0, b.rec_group, b.inner.0)
    }
}

impl<'a, A: Allocator + Copy> Matches<A> for WithRecGroup<&'a ContType> {
    ghost stands = { λ gs a. ContStands gs a.rec_group.index a.inner.now };

    ghost agree = { λ gs a b. ContsAgree gs a.rec_group.index b.rec_group.index
        a.inner.now b.inner.now };

    fn matches(
        types: &TypeList<A>,
        a: WithRecGroup<&'a ContType>,
        b: WithRecGroup<&'a ContType>,
    ) -> bool {
        types.id_is_subtype(
            types.id_at(a.rec_group, a.inner.0.unpack()),
            types.id_at(b.rec_group, b.inner.0.unpack()),
        )
    }
}

impl<'a, A: Allocator + Copy> Matches<A> for WithRecGroup<&'a FuncType<A>> {
    ghost stands = { λ gs a. CompStands gs a.rec_group.index (func_of a.inner.now) };

    ghost agree = { λ gs a b. CompsAgree gs a.rec_group.index b.rec_group.index
        (func_of a.inner.now) (func_of b.inner.now) };

    fn matches(
        types: &TypeList<A>,
        a: WithRecGroup<&'a FuncType<A>>,
        b: WithRecGroup<&'a FuncType<A>>,
    ) -> bool {
        func_signature_matches(
            types,
            WithRecGroup::new(a.inner.params(), a.rec_group),
            WithRecGroup::new(a.inner.results(), a.rec_group),
            WithRecGroup::new(b.inner.params(), b.rec_group),
            WithRecGroup::new(b.inner.results(), b.rec_group),
        )
    }
}

impl<'a, A: Allocator + Copy> Matches<A> for WithRecGroup<&'a StructType<A>> {
    ghost stands = { λ gs a. CompStands gs a.rec_group.index (struct_of a.inner.now) };

    ghost agree = { λ gs a b. CompsAgree gs a.rec_group.index b.rec_group.index
        (struct_of a.inner.now) (struct_of b.inner.now) };

    fn matches(
        types: &TypeList<A>,
        a: WithRecGroup<&'a StructType<A>>,
        b: WithRecGroup<&'a StructType<A>>,
    ) -> bool {
        all_fields_match(
            types,
            a.rec_group,
            a.inner.fields.as_slice(),
            b.rec_group,
            b.inner.fields.as_slice(),
        )
    }
}

impl<'a, A: Allocator + Copy> Matches<A> for WithRecGroup<&'a CompositeType<A>> {
    ghost stands = { λ gs a. CompStands gs a.rec_group.index (comp_of a.inner.now.inner) };

    ghost agree = { λ gs a b. CompositesAgree gs a.rec_group.index b.rec_group.index
        a.inner.now b.inner.now };

    fn matches(
        types: &TypeList<A>,
        a: WithRecGroup<&'a CompositeType<A>>,
        b: WithRecGroup<&'a CompositeType<A>>,
    ) -> bool {
        let sub = a.inner;
        let sup = b.inner;
        sub.shared == sup.shared
            && inners_match(types, a.rec_group, &sub.inner, b.rec_group, &sup.inner)
    }
}

impl<'a, A: Allocator + Copy> Matches<A> for WithRecGroup<&'a SubType<A>> {
    ghost stands = { λ gs a. CompStands gs a.rec_group.index
        (comp_of a.inner.now.composite_type.inner) };

    ghost agree = { λ gs a b. SubsAgree gs a.rec_group.index b.rec_group.index
        a.inner.now b.inner.now };

    fn matches(
        types: &TypeList<A>,
        a: WithRecGroup<&'a SubType<A>>,
        b: WithRecGroup<&'a SubType<A>>,
    ) -> bool {
        subs_match(types, a.rec_group, a.inner, b.rec_group, b.inner)
    }
}
